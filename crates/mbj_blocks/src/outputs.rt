//! Blocks of a text xored with output blocks of a cipher (SP 800-38A, 6.5), one after another.
ghost use Rattle.std.specs.Prelude.{◌≡◌, ℕ, ◌+◌, ◌*◌, ◌<◌, ◌≤◌, List, [], ◌∷◌, length, slice_index_or};
ghost use Rattle.mbj_types.specs.Blocks.{xor_lists};
ghost use Rattle.mbj_blocks.specs.Places.{block_of, with_block};
ghost use Rattle.mbj_blocks.specs.Walked.{Walked};

use crate::xor_block;
use mbj_types::BLOCK_BYTES;
use std::simd::u8x16;

// Xors block `i` of a text, which has it whole, with `mask`, as one vector.
#[inline(always)]
fn xor_whole(text: &mut [u8], i: usize, mask: &[u8; 16])
    requires { 16 * (i + 1) ≤ length text.old }
    ensures { text.new ≡ with_block text.old i (xor_lists (block_of text.old i) mask.now) }
{
    let start = BLOCK_BYTES * i;
    let whole = &mut text[start..start + BLOCK_BYTES];
    let block = u8x16::from_slice(whole) ^ u8x16::from_array(*mask);
    block.copy_to_slice(whole);
}

// Xors block `i` of a text, of which the last one may be shorter, with `mask`. A call for that one keeps it out of the
// loop over the others.
#[inline(never)]
fn xor_last(text: &mut [u8], i: usize, mask: &[u8; 16])
    requires { 16 * i < length text.old }
    ensures { text.new ≡ with_block text.old i (xor_lists (block_of text.old i) mask.now) }
{
    xor_block(text, i, mask);
}

// Xors block `i` of a text with `mask`.
#[inline(always)]
fn xor_output(text: &mut [u8], i: usize, mask: &[u8; 16])
    requires { 16 * i < length text.old }
    ensures { text.new ≡ with_block text.old i (xor_lists (block_of text.old i) mask.now) }
{
    if i < text.len() / BLOCK_BYTES {
        xor_whole(text, i, mask);
    } else {
        xor_last(text, i, mask);
    }
}

/// Xors the blocks of a text from block `first` on, each with its mask. The last block of the text takes as many bytes of
/// its mask as it has.
#[inline(always)]
pub fn xor_blocks(text: &mut [u8], first: usize, outputs: &[[u8; 16]])
    requires { 16 * (first + length outputs.now) < length text.old + 16 }
    ensures { (rest : ℕ → List (List ℕ) → List (List ℕ)) (whole : List ℕ)
        → ((j : ℕ) (b : List ℕ) (bs : List (List ℕ)) → j < length outputs.now
        → rest j (b ∷ bs) ≡ xor_lists b (slice_index_or outputs.now j []) ∷ rest (j + 1) bs)
        → Walked (rest 0) text.old first whole → Walked (rest (length outputs.now)) text.new (first + length outputs.now) whole }
{
    'each: for j in 0..outputs.len() {
        xor_output(text, first + j, &outputs[j]);
    }
}
