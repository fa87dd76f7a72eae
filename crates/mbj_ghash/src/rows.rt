//! The tables of a power of the hash subkey: its products with halves of bytes, by which a block is multiplied.
ghost use Rattle.std.specs.Prelude.{◌≡◌, ℕ, ◌+◌, ◌*◌, ◌/◌, ◌%◌, ◌<◌, ◌≤◌, List, Bool, bit_xor};
ghost use Rattle.mbj_types.specs.Lanes.{lane_at};
ghost use Rattle.mbj_aes.specs.BlockWords.{block_byte};
ghost use Rattle.mbj_types.specs.Field.{times_x, times_power};
ghost use Rattle.mbj_ghash.specs.Inside.{IsInBoth, AreRows, AreRowsOf};

use crate::tables::{BEFORE, CARRIED, HIGH_PAIR, LAST_TWO, LOW_PAIR, ODD};
use mbj_aes::BlockWord;
use mbj_aes::moves::TakenWord;
use mbj_types::Lane8;
use std::simd::u8x32;

/// A register of two blocks, as an entry of an array.
#[derive(Clone, Copy)]
pub struct Register {
    pub bytes: u8x32,
}

// x times the element in both halves: the bits move down by one.
#[inline(always)]
fn times_x(v: u8x32) -> u8x32
    ensures { (p : List Bool) → IsInBoth p v → IsInBoth (times_x p) result }
{
    let lowest = v.anded(u8x32::splat(1));
    let all_or_none = lowest.plus(u8x32::splat(0xff)).inverted();
    let carried = all_or_none
        .placed(&BEFORE)
        .anded(u8x32::in_each_block(&CARRIED));
    v.shr(1).xored(carried)
}

// For each of four bytes, those from `first` on in the first half and 8 further in the second: 0, the byte of `one`, that of `two`, and the
// sum of both.
#[inline(always)]
fn pairs(one: u8x32, two: u8x32, first: u8) -> u8x32
    requires { first ≤ 4 }
    ensures { (b q m : ℕ) → b < 2 → q < 4 → m < 4 → block_byte (lane_at 8) result b (4 * q + m) ≡ bit_xor
        (m % 2 * block_byte (lane_at 8) one b (8 * b + first + q)) (m / 2 * block_byte (lane_at 8) two b (8 * b + first + q)) }
{
    let from = u8x32::splat(first);
    let ones = one.taken(u8x32::from_array(ODD).plus(from));
    ones.xored(two.taken(u8x32::from_array(LAST_TWO).plus(from)))
}

// The sum of what four places from `first` on have at the low and the high two bits of each half of a byte.
#[inline(always)]
fn row(low: u8x32, high: u8x32, first: u8) -> Register
    requires { first ≤ 12 }
    ensures { (b n : ℕ) → b < 2 → n < 16 → block_byte (lane_at 8) result.bytes b n ≡ bit_xor
        (block_byte (lane_at 8) low b (first + n % 4)) (block_byte (lane_at 8) high b (first + n / 4)) }
{
    let from = u8x32::splat(first);
    let lows = low.taken(u8x32::in_each_block(&LOW_PAIR).plus(from));
    let highs = high.taken(u8x32::in_each_block(&HIGH_PAIR).plus(from));
    Register {
        bytes: lows.xored(highs),
    }
}

// The rows of an element, of which the products by 1, x, x^2 and x^3 are given.
#[inline(always)]
fn eight_rows(by_1: u8x32, by_x: u8x32, by_x2: u8x32, by_x3: u8x32) -> [Register; 8]
    ensures { (p : List Bool) → IsInBoth p by_1 → IsInBoth (times_power 1 p) by_x → IsInBoth (times_power 2 p) by_x2
        → IsInBoth (times_power 3 p) by_x3 → AreRows p result }
{
    let low = pairs(by_x3, by_x2, 0);
    let high = pairs(by_x, by_1, 0);
    let next_low = pairs(by_x3, by_x2, 4);
    let next_high = pairs(by_x, by_1, 4);
    [
        row(low, high, 0),
        row(low, high, 4),
        row(low, high, 8),
        row(low, high, 12),
        row(next_low, next_high, 0),
        row(next_low, next_high, 4),
        row(next_low, next_high, 8),
        row(next_low, next_high, 12),
    ]
}

/// The tables of an element: at half a byte row `d` has byte `d` of the product in its first half, and byte `d + 8` in its second.
#[derive(Drop)]
pub struct Rows {
    /// By the high half of a byte.
    pub high: [Register; 8],
    /// By the low half.
    pub low: [Register; 8],
}

impl Rows {
    /// The tables of the block `h`.
    #[inline(never)]
    pub fn new(h: &[u8; 16]) -> Rows
        ensures { AreRowsOf h.now result }
    {
        let by_1 = u8x32::in_each_block(h);
        let by_x = times_x(by_1);
        let by_x2 = times_x(by_x);
        let by_x3 = times_x(by_x2);
        let by_x4 = times_x(by_x3);
        let by_x5 = times_x(by_x4);
        let by_x6 = times_x(by_x5);
        Rows {
            high: eight_rows(by_1, by_x, by_x2, by_x3),
            low: eight_rows(by_x4, by_x5, by_x6, times_x(by_x6)),
        }
    }
}
