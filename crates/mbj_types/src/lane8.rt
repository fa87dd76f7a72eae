ghost use Rattle.std.specs.Prelude.{◌≡◌, ℕ, ◌+◌, ◌*◌, ◌/◌, ◌%◌, ◌^◌, ◌<◌, slice_index, bit_and, bit_xor};
ghost use Rattle.std.specs.Int.{w8, bit_not};
ghost use Rattle.mbj_types.specs.Lanes.{lane_at, lane_at-lt, IsTableIndex, table_byte};

use std::simd::{u8x16, u8x32};

/// `LANES` bytes side by side. Each call works on every lane by itself and none
/// gives a lane out, so code that is generic over a lane word serves all its lanes at once.
pub trait Lane8: Copy {
    ghost LANES: { ℕ };

    /// How many lanes a value has.
    const LANES: u32;

    // the byte in a lane, for lanes below LANES
    ghost lane: { Self → ℕ → ℕ };

    /// The byte in every lane.
    fn splat(word: u8) -> Self
        ensures { (i : ℕ) → i < LANES → lane result i ≡ word };

    /// The bits in which the two bytes of a lane differ.
    fn xored(self, other: Self) -> Self
        ensures { (i : ℕ) → i < LANES → lane result i ≡ bit_xor (lane self i) (lane other i) };

    /// The bits that are set in both bytes of a lane.
    fn anded(self, other: Self) -> Self
        ensures { (i : ℕ) → i < LANES → lane result i ≡ bit_and (lane self i) (lane other i) };

    /// The bits that aren't set in the byte of a lane.
    fn inverted(self) -> Self
        ensures { (i : ℕ) → i < LANES → lane result i ≡ bit_not w8 (lane self i) };

    /// The sum of the two bytes of a lane, modulo 2^8.
    fn plus(self, other: Self) -> Self
        ensures { (i : ℕ) → i < LANES → lane result i ≡ (lane self i + lane other i) % 2 ^ 8 };

    /// The byte of each lane moved up by fewer than 8 bits; what leaves it is dropped.
    fn shl(self, by: u32) -> Self
        requires { by < 8 }
        ensures { (i : ℕ) → i < LANES → lane result i ≡ lane self i * 2 ^ by % 2 ^ 8 };

    /// The byte of each lane moved down by fewer than 8 bits; what leaves it is dropped.
    fn shr(self, by: u32) -> Self
        requires { by < 8 }
        ensures { (i : ℕ) → i < LANES → lane result i ≡ lane self i / 2 ^ by };

    /// The byte of a table at the byte of each lane, which is below 16, and 0 if it is 128 or more. The table stands in a register: no
    /// address depends on a lane.
    fn looked_up(self, table: &[u8; 16]) -> Self
        requires { (i : ℕ) → i < LANES → IsTableIndex (lane self i) }
        ensures { (i : ℕ) → i < LANES → lane result i ≡ table_byte table.now (lane self i) };

    // a lane holds a byte
    ghost fits: { (x : Self) (i : ℕ) → lane x i < 2 ^ 8 };
}

impl Lane8 for u8x16 {
    ghost LANES = { 16 };

    const LANES: u32 = 16;

    ghost lane = { lane_at 8 };

    ghost fits = { lane_at-lt 8 };

    #[inline(always)]
    fn splat(word: u8) -> Self {
        u8x16::splat(word)
    }

    #[inline(always)]
    fn xored(self, other: Self) -> Self {
        self ^ other
    }

    #[inline(always)]
    fn anded(self, other: Self) -> Self {
        self & other
    }

    #[inline(always)]
    fn inverted(self) -> Self {
        !self
    }

    #[inline(always)]
    fn plus(self, other: Self) -> Self {
        self + other
    }

    #[inline(always)]
    fn shl(self, by: u32) -> Self {
        self << u8x16::splat(by as u8)
    }

    #[inline(always)]
    fn shr(self, by: u32) -> Self {
        self >> u8x16::splat(by as u8)
    }

    #[inline(always)]
    fn looked_up(self, table: &[u8; 16]) -> Self {
        u8x16::from_array(*table).swizzle_dyn_within::<16>(self)
    }
}

// A table in each half of a vector.
#[inline(always)]
fn in_each_half(table: &[u8; 16]) -> u8x32
    ensures { (i : ℕ) → i < 32 → slice_index result i ≡ slice_index table.now (i % 16) }
{
    u8x16::from_array(*table).swizzle([
        0, 1, 2, 3, 4, 5, 6, 7, 8, 9, 10, 11, 12, 13, 14, 15, 0, 1, 2, 3, 4, 5, 6, 7, 8, 9, 10, 11,
        12, 13, 14, 15,
    ])
}

impl Lane8 for u8x32 {
    ghost LANES = { 32 };

    const LANES: u32 = 32;

    ghost lane = { lane_at 8 };

    ghost fits = { lane_at-lt 8 };

    #[inline(always)]
    fn splat(word: u8) -> Self {
        u8x32::splat(word)
    }

    #[inline(always)]
    fn xored(self, other: Self) -> Self {
        self ^ other
    }

    #[inline(always)]
    fn anded(self, other: Self) -> Self {
        self & other
    }

    #[inline(always)]
    fn inverted(self) -> Self {
        !self
    }

    #[inline(always)]
    fn plus(self, other: Self) -> Self {
        self + other
    }

    #[inline(always)]
    fn shl(self, by: u32) -> Self {
        self << u8x32::splat(by as u8)
    }

    #[inline(always)]
    fn shr(self, by: u32) -> Self {
        self >> u8x32::splat(by as u8)
    }

    #[inline(always)]
    fn looked_up(self, table: &[u8; 16]) -> Self {
        in_each_half(table).swizzle_dyn_within::<16>(self)
    }
}
