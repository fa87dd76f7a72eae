//! What passes x^127 in a product, folded back.
ghost use Rattle.std.specs.Prelude.{◌≡◌, ℕ};
ghost use Rattle.mbj_types.specs.Field.{add, times_power};
ghost use Rattle.mbj_types.specs.Ghash.{element};
ghost use Rattle.mbj_types.specs.Lanes.{lane_at};
ghost use Rattle.mbj_aes.specs.BlockWords.{block_byte, block_at};
ghost use Rattle.mbj_aes.specs.Bytes.{IsBlock};

use crate::tables::{FOLD_HIGH, FOLD_LOW, FOLD_NEXT_HIGH, FOLD_NEXT_LOW};
use mbj_aes::BlockWord;
use mbj_aes::lookups::by_halves;
use mbj_aes::moves::moved_up;
use mbj_types::Lane8;
use std::simd::u8x16;

// The bytes of a block in a register.
#[inline(always)]
fn bytes_of(x: u8x16) -> [u8; 16]
    ensures { result ≡ block_at (lane_at 8) x 0 }
{
    let mut block = [[0; 16]];
    x.store(&mut block);
    block[0]
}

/// The sum of the element `low` and x^128 times the element `high`, whose last byte is 0, so that nothing passes x^127 once more
/// (SP 800-38D, 6.3).
#[inline(always)]
pub fn folded(low: u8x16, high: u8x16) -> [u8; 16]
    requires { block_byte (lane_at 8) high 0 15 ≡ 0 }
    ensures block { IsBlock result }
    ensures sum { element result ≡ add (element (block_at (lane_at 8) low 0)) (times_power 128 (element (block_at (lane_at 8) high 0))) }
{
    let first = by_halves(&FOLD_LOW, &FOLD_HIGH, high);
    let next = by_halves(&FOLD_NEXT_LOW, &FOLD_NEXT_HIGH, high);
    bytes_of(low.xored(first).xored(moved_up(next, 1)))
}
