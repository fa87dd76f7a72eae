//! Sums of products of blocks with elements, not yet reduced.
ghost use Rattle.std.specs.Prelude.{◌≡◌, ℕ, ◌<◌, ◌≤◌, List};
ghost use Rattle.mbj_types.specs.Field.{add, zeros, product, times_power, weighted};
ghost use Rattle.mbj_types.specs.Ghash.{element};
ghost use Rattle.mbj_types.specs.Lanes.{lane_at};
ghost use Rattle.mbj_aes.specs.BlockWords.{block_byte, block_at};
ghost use Rattle.mbj_ghash.specs.Inside.{AreRowsOf, register, sum_of};
ghost use Rattle.mbj_aes.specs.Bytes.{IsBlock};

use crate::fold::folded;
use crate::rows::{Register, Rows};
use mbj_aes::BlockWord;
use mbj_aes::lookups::{high_half, low_half};
use mbj_aes::moves::{TakenWord, first_block, moved_out, moved_up, second_block};
use mbj_types::Lane8;
use std::simd::u8x32;

/// A sum of products: byte `i` of the first half of place `d` belongs to byte `i + d`, of the second half to byte `i + d + 8`.
#[derive(Drop)]
pub struct Sum {
    pub places: [Register; 8],
}

// The places of a sum, moved and added: the bytes that stay in each half, and those that leave it.
#[derive(Clone, Copy)]
struct Moved {
    inside: u8x32,
    beyond: u8x32,
}

impl Sum {
    /// The empty sum.
    #[inline(always)]
    pub fn new() -> Sum
        ensures { sum_of result.places ≡ zeros 128 }
    {
        Sum {
            places: [Register {
                bytes: u8x32::splat(0),
            }; 8],
        }
    }

    /// Adds the product of a block and the element of the tables.
    #[inline(always)]
    pub fn add(&mut self, block: &[u8; 16], rows: &Rows)
        ensures { (h : List ℕ) → AreRowsOf h rows.now
            → sum_of self.new.places ≡ add (sum_of self.old.places) (product (element block.now) (element h)) }
    {
        let both = u8x32::in_each_block(block);
        let low = low_half(both);
        let high = high_half(both);
        for d in 0..8 {
            let product = rows.low[d]
                .bytes
                .taken(low)
                .xored(rows.high[d].bytes.taken(high));
            self.places[d].bytes = self.places[d].bytes.xored(product);
        }
    }

    #[inline(always)]
    fn moved(&self) -> Moved
        ensures sum { (b : ℕ) → b < 2 → add (element (block_at (lane_at 8) result.inside b)) (times_power 128 (element (block_at (lane_at 8) result.beyond b)))
            ≡ weighted (λ d. element (block_at (lane_at 8) (register self.now.places d) b)) 8 }
        ensures rest { (b j : ℕ) → b < 2 → 7 ≤ j → j < 16 → block_byte (lane_at 8) result.beyond b j ≡ 0 }
    {
        let mut inside = u8x32::splat(0);
        let mut beyond = u8x32::splat(0);
        for d in 0..8 {
            inside = inside.xored(moved_up(self.places[d].bytes, d as u8));
            beyond = beyond.xored(moved_out(self.places[d].bytes, d as u8));
        }
        Moved { inside, beyond }
    }

    /// The sum as an element.
    #[inline(always)]
    pub fn reduced(&self) -> [u8; 16]
        ensures block { IsBlock result }
        ensures sum { element result ≡ sum_of self.now.places }
    {
        let Moved { inside, beyond } = self.moved();
        let upper = second_block(inside);
        let low = first_block(inside).xored(moved_up(upper, 8));
        let high = first_block(beyond).xored(moved_out(upper, 8));
        folded(low, high.xored(moved_up(second_block(beyond), 8)))
    }
}
