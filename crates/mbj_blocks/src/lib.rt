//! The blocks of 16 bytes of a text, numbered from 0 on, of which the last may be shorter: reading one, putting one in
//! its place, and xoring them with a cipher's output blocks. No call takes memory.
//!
//! ```
//! let mut text = [0x0f; 20];
//! put_block(&mut text, 0, &[0xf0; BLOCK_BYTES]);
//! expect(&rt, "put", block_at(&text, 0), [0xf0; BLOCK_BYTES]);
//! ```
#![tactic(auto)]

mod outputs;

ghost use Rattle.std.specs.Prelude.{◌≡◌, ◌+◌, ◌*◌, ◌<◌, ◌≤◌, length, take, drop};
ghost use Rattle.mbj_types.specs.Blocks.{xor_lists, filled_block};
ghost use Rattle.mbj_blocks.specs.Places.{block_of, with_block};

use mbj_types::{BLOCK_BYTES, xor_in_place};
pub use outputs::xor_blocks;

/// The 16 bytes of a text from `start` on, which it has.
#[inline(always)]
pub fn block_from(text: &[u8], start: usize) -> [u8; 16]
    requires { start + 16 ≤ length text.now }
    ensures { result ≡ take 16 (drop start text.now) }
{
    let mut block = [0; BLOCK_BYTES];
    block.copy_from_slice(&text[start..start + BLOCK_BYTES]);
    block
}

/// Block `i` of a text that has that block whole.
pub fn block_at(text: &[u8], i: usize) -> [u8; 16]
    requires { 16 * (i + 1) ≤ length text.now }
    ensures { result ≡ block_of text.now i }
{
    block_from(text, BLOCK_BYTES * i)
}

/// Puts `block` in the place of block `i` of a text that has that block whole.
pub fn put_block(text: &mut [u8], i: usize, block: &[u8; 16])
    requires { 16 * (i + 1) ≤ length text.old }
    ensures { text.new ≡ with_block text.old i block.now }
{
    let start = BLOCK_BYTES * i;
    text[start..start + BLOCK_BYTES].copy_from_slice(block);
}

/// Xors block `i` of a text with `mask`, of which the last block of the text takes as many bytes as it has.
pub fn xor_block(text: &mut [u8], i: usize, mask: &[u8; 16])
    requires { 16 * i < length text.old }
    ensures { text.new ≡ with_block text.old i (xor_lists (block_of text.old i) mask.now) }
{
    let start = BLOCK_BYTES * i;
    if text.len() - start >= BLOCK_BYTES {
        let mut block = block_at(text, i);
        xor_in_place(&mut block, mask);
        put_block(text, i, &block);
    } else {
        xor_in_place(&mut text[start..], mask);
    }
}

/// A part of a block, of at most 16 bytes, with zero bytes behind it.
pub fn filled_block(part: &[u8]) -> [u8; 16]
    requires { length part.now ≤ 16 }
    ensures { result ≡ filled_block part.now }
{
    let mut block = [0; BLOCK_BYTES];
    block[..part.len()].copy_from_slice(part);
    block
}
