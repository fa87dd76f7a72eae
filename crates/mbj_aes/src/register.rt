//! Whole blocks side by side in a register.
ghost use Rattle.std.specs.Prelude.{◌≡◌, ℕ, ◌+◌, ◌*◌, ◌<◌, ◌≤◌, [], length, slice_index, slice_index_or, refl};
ghost use Rattle.mbj_aes.specs.BlockWords.{block_byte, block_at};

use mbj_types::Lane8;
use std::simd::{u8x16, u8x32};

/// A lane word whose lanes are `BLOCKS` whole blocks of 16 bytes. Each call works on every block by itself.
pub trait BlockWord: Lane8 {
    ghost BLOCKS: { ℕ };

    /// How many blocks a value has.
    const BLOCKS: u32;

    /// These bytes in each block.
    fn in_each_block(bytes: &[u8; 16]) -> Self
        ensures { (b j : ℕ) → b < BLOCKS → j < 16 → block_byte Self.lane result b j ≡ slice_index bytes.now j };

    /// The bytes of each block in another order: byte `j` becomes that at `places[j]`. The places stand in a register.
    fn placed(self, places: &[u8; 16]) -> Self
        requires { (j : ℕ) → j < 16 → slice_index places.now j < 16 }
        ensures { (b j : ℕ) → b < BLOCKS → j < 16
            → block_byte Self.lane result b j ≡ block_byte Self.lane self b (slice_index places.now j) };

    /// The first of these blocks, as many as a value has.
    fn load(blocks: &[[u8; 16]]) -> Self
        requires { BLOCKS ≤ length blocks.now }
        ensures { (b : ℕ) → b < BLOCKS → block_at Self.lane result b ≡ slice_index_or blocks.now b [] };

    /// Writes the blocks over the first of these.
    fn store(self, blocks: &mut [[u8; 16]])
        requires { BLOCKS ≤ length blocks.old }
        ensures first { (b : ℕ) → b < BLOCKS → slice_index_or blocks.new b [] ≡ block_at Self.lane self b }
        ensures others { (b : ℕ) → BLOCKS ≤ b → slice_index_or blocks.new b [] ≡ slice_index_or blocks.old b [] };

    // the lanes are the bytes of the blocks
    ghost whole: { Self.LANES ≡ 16 * BLOCKS };
}

// Bytes as a vector, which is their list.
#[inline(always)]
fn vector_from(bytes: &[u8]) -> u8x16
    requires { length bytes.now ≡ 16 }
    ensures value { result ≡ bytes.now }
    ensures bytes { (j : ℕ) → slice_index bytes.now j < 256 }
{
    u8x16::from_slice(bytes)
}

// A block as a vector, which is the list of its bytes.
#[inline(always)]
fn vector_of(block: &[u8; 16]) -> u8x16
    ensures value { result ≡ block.now }
    ensures size { length block.now ≡ 16 }
    ensures bytes { (j : ℕ) → slice_index block.now j < 256 }
{
    vector_from(block)
}

impl BlockWord for u8x16 {
    ghost BLOCKS = { 1 };

    const BLOCKS: u32 = 1;

    #[inline(always)]
    fn in_each_block(bytes: &[u8; 16]) -> Self {
        vector_of(bytes)
    }

    #[inline(always)]
    fn placed(self, places: &[u8; 16]) -> Self {
        self.swizzle_dyn_within::<16>(u8x16::from_array(*places))
    }

    #[inline(always)]
    fn load(blocks: &[[u8; 16]]) -> Self {
        vector_of(&blocks[0])
    }

    #[inline(always)]
    fn store(self, blocks: &mut [[u8; 16]]) {
        blocks[0] = self.to_array();
    }

    ghost whole = { refl };
}

// Two vectors side by side.
#[inline(always)]
fn both(first: u8x16, second: u8x16) -> u8x32
    ensures size { length result ≡ 32 }
    ensures first { (j : ℕ) → j < 16 → slice_index result j ≡ slice_index first j }
    ensures second { (j : ℕ) → j < 16 → slice_index result (16 + j) ≡ slice_index second j }
{
    first.shuffle(
        second,
        [
            0, 1, 2, 3, 4, 5, 6, 7, 8, 9, 10, 11, 12, 13, 14, 15, 16, 17, 18, 19, 20, 21, 22, 23,
            24, 25, 26, 27, 28, 29, 30, 31,
        ],
    )
}

impl BlockWord for u8x32 {
    ghost BLOCKS = { 2 };

    const BLOCKS: u32 = 2;

    #[inline(always)]
    fn in_each_block(bytes: &[u8; 16]) -> Self {
        let block = vector_of(bytes);
        both(block, block)
    }

    #[inline(always)]
    fn placed(self, places: &[u8; 16]) -> Self {
        let each = u8x16::from_array(*places);
        self.swizzle_dyn_within::<16>(both(each, each))
    }

    #[inline(always)]
    fn load(blocks: &[[u8; 16]]) -> Self {
        both(vector_of(&blocks[0]), vector_of(&blocks[1]))
    }

    #[inline(always)]
    fn store(self, blocks: &mut [[u8; 16]]) {
        blocks[0] = self.extract::<0, 16>().to_array();
        blocks[1] = self.extract::<16, 16>().to_array();
    }

    ghost whole = { refl };
}
