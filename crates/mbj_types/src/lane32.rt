ghost use Rattle.std.specs.Prelude.{◌≡◌, ℕ, ◌+◌, ◌*◌, ◌/◌, ◌%◌, ◌^◌, ◌<◌, bit_and, bit_xor};
ghost use Rattle.std.specs.Int.{w32, bit_not};
ghost use Rattle.mbj_types.specs.Lanes.{lane_at, lane_at-lt};

use std::simd::Simd;

/// `LANES` words of 32 bits side by side. Each call works on every lane by itself and none
/// gives a lane out, so code that is generic over a lane word serves all its lanes at once.
pub trait Lane32: Copy {
    ghost LANES: { ℕ };

    /// How many lanes a value has.
    const LANES: u32;

    // the word in a lane, for lanes below LANES
    ghost lane: { Self → ℕ → ℕ };

    /// The word in every lane.
    fn splat(word: u32) -> Self
        ensures { (i : ℕ) → i < LANES → lane result i ≡ word };

    /// The bits in which the two words of a lane differ.
    fn xored(self, other: Self) -> Self
        ensures { (i : ℕ) → i < LANES → lane result i ≡ bit_xor (lane self i) (lane other i) };

    /// The bits that are set in both words of a lane.
    fn anded(self, other: Self) -> Self
        ensures { (i : ℕ) → i < LANES → lane result i ≡ bit_and (lane self i) (lane other i) };

    /// The bits that aren't set in the word of a lane.
    fn inverted(self) -> Self
        ensures { (i : ℕ) → i < LANES → lane result i ≡ bit_not w32 (lane self i) };

    /// The sum of the two words of a lane, modulo 2^32.
    fn plus(self, other: Self) -> Self
        ensures { (i : ℕ) → i < LANES → lane result i ≡ (lane self i + lane other i) % 2 ^ 32 };

    /// The word of each lane moved up by fewer than 32 bits; what leaves it is dropped.
    fn shl(self, by: u32) -> Self
        requires { by < 32 }
        ensures { (i : ℕ) → i < LANES → lane result i ≡ lane self i * 2 ^ by % 2 ^ 32 };

    /// The word of each lane moved down by fewer than 32 bits; what leaves it is dropped.
    fn shr(self, by: u32) -> Self
        requires { by < 32 }
        ensures { (i : ℕ) → i < LANES → lane result i ≡ lane self i / 2 ^ by };

    // a lane holds a word
    ghost fits: { (x : Self) (i : ℕ) → lane x i < 2 ^ 32 };
}

impl<const N: usize> Lane32 for Simd<u32, N> {
    // a vector has at most 64 lanes, which its type alone doesn't say
    ghost LANES = { N % 2 ^ 32 };

    const LANES: u32 = (N & u32::MAX as usize) as u32;

    ghost lane = { lane_at 32 };

    ghost fits = { lane_at-lt 32 };

    #[inline(always)]
    fn splat(word: u32) -> Self {
        Simd::splat(word)
    }

    #[inline(always)]
    fn xored(self, other: Self) -> Self {
        self ^ other
    }

    #[inline(always)]
    fn anded(self, other: Self) -> Self {
        self & other
    }

    #[inline(always)]
    fn inverted(self) -> Self {
        !self
    }

    #[inline(always)]
    fn plus(self, other: Self) -> Self {
        self + other
    }

    #[inline(always)]
    fn shl(self, by: u32) -> Self {
        self << Simd::splat(by)
    }

    #[inline(always)]
    fn shr(self, by: u32) -> Self {
        self >> Simd::splat(by)
    }
}
