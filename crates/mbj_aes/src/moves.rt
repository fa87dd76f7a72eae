//! The bytes of the blocks in a register, each taken from another place of its block. The places stand in a register: no address and no
//! branch depends on them.
ghost use Rattle.std.specs.Prelude.{◌≡◌, ℕ, ◌+◌, ◌*◌, ◌%◌, ◌<◌, ◌≤◌};
ghost use Rattle.mbj_types.specs.Lanes.{lane_at, IsTableIndex};
ghost use Rattle.mbj_aes.specs.BlockWords.{block_byte};
ghost use Rattle.mbj_aes.specs.Moves.{byte_or_zero, moved_up, moved_out};

use crate::register::BlockWord;
use std::simd::{u8x16, u8x32};

/// A register of whole blocks whose bytes can be taken from any place of their block.
pub trait TakenWord: BlockWord {
    /// The byte of each block at the place that stands in each lane, which is below 16, and 0 if it is 128 or more.
    fn taken(self, places: Self) -> Self
        requires { (b j : ℕ) → b < Self.BLOCKS → j < 16 → IsTableIndex (block_byte Self.lane places b j) }
        ensures { (b j : ℕ) → b < Self.BLOCKS → j < 16 → block_byte Self.lane result b j
            ≡ byte_or_zero (block_byte Self.lane self b) (block_byte Self.lane places b j) };
}

impl TakenWord for u8x16 {
    #[inline(always)]
    fn taken(self, places: Self) -> Self {
        self.swizzle_dyn_within::<16>(places)
    }
}

impl TakenWord for u8x32 {
    #[inline(always)]
    fn taken(self, places: Self) -> Self {
        self.swizzle_dyn_within::<16>(places)
    }
}

// The places of a block.
const PLACES: [u8; 16] = [0, 1, 2, 3, 4, 5, 6, 7, 8, 9, 10, 11, 12, 13, 14, 15];

// The places from `first` on, modulo 256.
#[inline(always)]
fn places_from<W: TakenWord>(first: u8) -> W
    ensures { (b j : ℕ) → b < W.BLOCKS → j < 16 → block_byte W.lane result b j ≡ (j + first) % 256 }
{
    W::in_each_block(&PLACES).plus(W::splat(first))
}

/// Each block moved up by `by` bytes, at most 16, with zeros before it.
#[inline(always)]
pub fn moved_up<W: TakenWord>(x: W, by: u8) -> W
    requires { by ≤ 16 }
    ensures { (b j : ℕ) → b < W.BLOCKS → j < 16 → block_byte W.lane result b j ≡ moved_up by (block_byte W.lane x b) j }
{
    x.taken(places_from(by.wrapping_neg()))
}

/// What leaves each block that is moved up by `by` bytes, at most 16, from the block's start on, with zeros behind it.
#[inline(always)]
pub fn moved_out<W: TakenWord>(x: W, by: u8) -> W
    requires { by ≤ 16 }
    ensures { (b j : ℕ) → b < W.BLOCKS → j < 16 → block_byte W.lane result b j ≡ moved_out by (block_byte W.lane x b) j }
{
    let places: W = places_from(128 - by);
    x.taken(places.anded(W::splat(0x8f)))
}

/// The first of two blocks.
#[inline(always)]
pub fn first_block(x: u8x32) -> u8x16
    ensures { (j : ℕ) → j < 16 → block_byte (lane_at 8) result 0 j ≡ block_byte (lane_at 8) x 0 j }
{
    x.extract::<0, 16>()
}

/// The second of two blocks.
#[inline(always)]
pub fn second_block(x: u8x32) -> u8x16
    ensures { (j : ℕ) → j < 16 → block_byte (lane_at 8) result 0 j ≡ block_byte (lane_at 8) x 1 j }
{
    x.extract::<16, 16>()
}
