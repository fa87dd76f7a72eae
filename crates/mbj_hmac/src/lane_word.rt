// Words of all lanes, of which each is chosen from two vectors.
ghost use Rattle.std.specs.Prelude.{◌≡◌, ℕ, ◌<◌, ◌==◌, length, if◌then◌else◌};
ghost use Rattle.mbj_types.specs.Lanes.{lane_at, lane_of};

use std::simd::{u32x16, u64x8};

/// A word of each lane, side by side.
pub(crate) trait LaneWord: Copy {
    /// How many lanes there are.
    ghost LANES: { ℕ };

    /// The word in a lane.
    ghost lane: { Self → ℕ → ℕ };

    /// Numbers of the lanes as words.
    fn of_numbers(numbers: u32x16) -> Self
        ensures { (i : ℕ) → i < LANES → lane result i ≡ lane_at 32 numbers i };

    /// The word of `same` in each lane in which `x` and `y` have the same word, and else that of `other`.
    fn where_equal(x: Self, y: Self, same: Self, other: Self) -> Self
        ensures { (i : ℕ) → i < LANES → lane result i ≡ if lane x i == lane y i then lane same i else lane other i };
}

impl LaneWord for u32x16 {
    ghost LANES = { 16 };

    ghost lane = { lane_at 32 };

    #[inline(always)]
    fn of_numbers(numbers: u32x16) -> u32x16 {
        numbers
    }

    #[inline(always)]
    fn where_equal(x: u32x16, y: u32x16, same: u32x16, other: u32x16) -> u32x16 {
        x.simd_eq(y).select(same, other)
    }
}

impl LaneWord for u64x8 {
    ghost LANES = { 8 };

    ghost lane = { lane_at 64 };

    #[inline(always)]
    fn of_numbers(numbers: u32x16) -> u64x8 {
        numbers.extract::<0, 8>().cast::<u64>()
    }

    #[inline(always)]
    fn where_equal(x: u64x8, y: u64x8, same: u64x8, other: u64x8) -> u64x8 {
        x.simd_eq(y).select(same, other)
    }
}

/// Each lane in which `x` and `y` have the same word gets the words of `same`, vector by vector.
#[inline(always)]
pub(crate) fn choose<V: LaneWord>(x: V, y: V, same: &[V], words: &mut [V])
    requires { length same.now ≡ length words.old }
    ensures chosen { (i : ℕ) → i < V.LANES → lane_of V.lane words.new i
        ≡ if V.lane x i == V.lane y i then lane_of V.lane same.now i else lane_of V.lane words.old i }
    ensures length { length words.new ≡ length words.old }
{
    'vectors: for k in 0..same.len() {
        words[k] = V::where_equal(x, y, same[k], words[k]);
    }
}
