ghost use Rattle.std.specs.Prelude.{◌≡◌, ℕ, ◌+◌, ◌*◌, ◌%◌, ◌<◌, ◌≤◌, List, [], length, slice_index_or};
ghost use Rattle.mbj_types.specs.Aes.{decipher};
ghost use Rattle.mbj_types.specs.Modes.{uncbc, uncbc_text};
ghost use Rattle.mbj_blocks.specs.Places.{block_of};
ghost use Rattle.mbj_blocks.specs.Walked.{Walked};

use mbj_aes::Schedule;
use mbj_aes_lanes::{BATCH_BLOCKS, DecryptionKey};
use mbj_blocks::{block_at, put_block};
use mbj_types::{BLOCK_BYTES, xor_in_place};

// Copies blocks of a text, from block `first` on.
fn copy_blocks(text: &[u8], first: usize, blocks: &mut [[u8; 16]])
    requires { 16 * (first + length blocks.old) ≤ length text.now }
    ensures { (j : ℕ) → j < length blocks.old → slice_index_or blocks.new j [] ≡ block_of text.now (first + j) }
{
    'each: for j in 0..blocks.len() {
        blocks[j] = block_at(text, first + j);
    }
}

// The deciphered blocks of a text from block `first` on, `many` of them, which are at most `BATCH_BLOCKS`.
#[inline(always)]
fn opened_blocks(
    key: &DecryptionKey,
    text: &[u8],
    first: usize,
    many: usize,
) -> [[u8; 16]; BATCH_BLOCKS]
    requires batch { many ≤ BATCH_BLOCKS }
    requires inside { 16 * (first + many) ≤ length text.now }
    ensures length { length result ≡ BATCH_BLOCKS }
    ensures opened { (j : ℕ) → j < many → slice_index_or result j [] ≡ decipher key.now (block_of text.now (first + j)) }
{
    let mut opened = [[0; BLOCK_BYTES]; BATCH_BLOCKS];
    let blocks = &mut opened[..many];
    copy_blocks(text, first, blocks);
    key.decrypt(blocks);
    opened
}

// Xors deciphered blocks, each with the ciphertext before it, and puts them in the text from block `first` on. `chain` is the ciphertext
// before the first of them, and that of the last one is returned.
fn put_opened(text: &mut [u8], first: usize, opened: &[[u8; 16]], chain: &[u8; 16]) -> [u8; 16]
    requires { 16 * (first + length opened.now) ≤ length text.old }
    ensures { (d : List ℕ → List ℕ) (whole : List ℕ)
        → ((j : ℕ) → j < length opened.now → slice_index_or opened.now j [] ≡ d (block_of text.old (first + j)))
        → Walked (uncbc d chain.now) text.old first whole → Walked (uncbc d result) text.new (first + length opened.now) whole }
{
    let mut chain = *chain;
    'each: for j in 0..opened.len() {
        let ciphertext = block_at(text, first + j);
        let mut block = opened[j];
        xor_in_place(&mut block, &chain);
        put_block(text, first + j, &block);
        chain = ciphertext;
    }
    chain
}

/// Decrypts a text in place by CBC (SP 800-38A, 6.2): each block of 16 bytes is deciphered and xored with the
/// ciphertext before it, the first one with the IV. The text's length is a multiple of 16 bytes, and may be 0.
pub fn decrypt_in_place(key: &Schedule, iv: &[u8; 16], text: &mut [u8])
    requires { length text.old % 16 ≡ 0 }
    ensures { text.new ≡ uncbc_text (decipher key.now) iv.now text.old }
{
    let key = DecryptionKey::new(key);
    let many = text.len() / BLOCK_BYTES;
    let mut chain = *iv;
    'batches: for b in 0..many.div_ceil(BATCH_BLOCKS) {
        let first = BATCH_BLOCKS * b;
        let here = (many - first).min(BATCH_BLOCKS);
        let opened = opened_blocks(&key, text, first, here);
        chain = put_opened(text, first, &opened[..here], &chain);
    }
}
