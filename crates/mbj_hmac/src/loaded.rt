// The words of blocks, by word, for all lanes or for one half of them.
ghost use Rattle.std.specs.Prelude.{◌≡◌, ℕ, ◌<◌, length};
ghost use Rattle.mbj_types.specs.Lanes.{lane_at, lane_of};
ghost use Rattle.mbj_sha_lanes.specs.Halves.{IsWithin};
ghost use Rattle.mbj_sha_lanes.specs.Words.{words32};

use mbj_sha_lanes::{Blocks, Half, Load32, half_words, put_half};
use std::simd::u32x16;

/// The words of the blocks of all lanes, or of those in the half that is named. What the others have is not looked at.
#[inline(always)]
pub(crate) fn loaded<B: Blocks>(blocks: &B, half: Option<Half>) -> [u32x16; 16]
    requires size { B.block_bytes ≡ 64 }
    requires lent { (i : ℕ) → i < 16 → B.lends blocks.now i }
    ensures vectors { length result ≡ 16 }
    ensures lanes { (i : ℕ) → i < 16 → IsWithin half i → words32 (B.block blocks.now i) ≡ lane_of (lane_at 32) result i }
{
    match half {
        Some(half) => {
            let mut words = [u32x16::splat(0); 16];
            put_half(&mut words, half, &half_words(blocks, half));
            words
        }
        None => u32x16::block_words(blocks),
    }
}
