ghost use Rattle.std.specs.Prelude.{◌≡◌, ℕ, ◌+◌, ◌*◌, ◌/◌, ◌<◌, ◌≤◌, List, [], ◌∷◌, ◌++◌, length, replicate, slice_index_or};
ghost use Rattle.std.specs.List.{concat};
ghost use Rattle.mbj_types.specs.Aes.{encipher};
ghost use Rattle.mbj_types.specs.Blocks.{blocks, filled_blocks, zero_block};
ghost use Rattle.mbj_types.specs.Ghash.{ghash};
ghost use Rattle.mbj_types.specs.Gcm.{bit_length, gctr, inc32, pre_counter_block};
ghost use Rattle.mbj_blocks.specs.Walked.{Walked};
ghost use Rattle.mbj_gcm.specs.Inside.First.{AreFirst};
ghost use Rattle.mbj_gcm.specs.Incremented.{incremented};

use crate::hash::hash_of_parts;
use mbj_aes_lanes::{BATCH_BLOCKS, TextKey};
use mbj_blocks::xor_blocks;
use mbj_types::{AES_LANES, BLOCK_BYTES};

// The bytes of an IV that begins a counter block as it is.
const COUNTER_IV_BYTES: usize = 12;

// The bytes of the number that follows it, the highest first.
const NUMBER_BYTES: usize = 4;

// The number of the counter block before the first one of the text.
const PRE_COUNTER_NUMBER: u8 = 1;

/// The places of the hash subkey and of the tag's mask in the first batch; the key stream of the text stands behind them.
pub const SUBKEY: usize = 0;

/// See `SUBKEY`.
pub const TAG_MASK: usize = 1;

const LEAD: usize = 2;

/// The blocks of a text whose key stream is made in the first batch.
const FIRST_BLOCKS: usize = BATCH_BLOCKS - LEAD;

/// A counter block whose number, its last 4 bytes, rises by `by` modulo 2^32; the bytes before it stay (SP 800-38D, 6.2).
pub fn incremented(block: &[u8; 16], by: u32) -> [u8; 16]
    ensures { result ≡ incremented block.now by }
{
    let mut number = [0; NUMBER_BYTES];
    number.copy_from_slice(&block[COUNTER_IV_BYTES..]);
    let next = u32::from_be_bytes(number).wrapping_add(by);
    let mut incremented = *block;
    incremented[COUNTER_IV_BYTES..].copy_from_slice(&next.to_be_bytes());
    incremented
}

/// Writes the counter blocks after `counter`, of which there are no more than lanes.
pub fn put_counters_after(blocks: &mut [[u8; 16]], counter: &[u8; 16])
    requires { length blocks.old ≤ AES_LANES }
    ensures { (j : ℕ) → j < length blocks.old → slice_index_or blocks.new j [] ≡ incremented counter.now (j + 1) }
{
    'each: for j in 0..blocks.len() {
        blocks[j] = incremented(counter, j as u32 + 1);
    }
}

// An IV of 12 bytes, and the number 1 in 4 bytes.
fn numbered_iv(iv: &[u8]) -> [u8; 16]
    requires { length iv.now ≡ 12 }
    ensures { result ≡ iv.now ++ 0 ∷ 0 ∷ 0 ∷ 1 ∷ [] }
{
    let mut block = [0; BLOCK_BYTES];
    block[BLOCK_BYTES - 1] = PRE_COUNTER_NUMBER;
    block[..COUNTER_IV_BYTES].copy_from_slice(iv);
    block
}

// GHASH of an IV, filled with zero bytes to whole blocks, and of a block of 8 zero bytes and its bit length: what it would be
// of a ciphertext without additional data.
#[tactic(auto, unfolding(mbj_types::specs::Blocks::blocks))]
fn hashed_iv(subkey: &[u8; 16], iv: &[u8]) -> [u8; 16]
    ensures { result ≡ ghash subkey.now (filled_blocks iv.now ++ (replicate 8 0 ++ bit_length (length iv.now)) ∷ []) }
{
    hash_of_parts(subkey, &[], iv)
}

// The hash subkey, H (SP 800-38D, 7.1, step 1): the enciphered zero block.
fn hash_subkey(key: &TextKey) -> [u8; 16]
    ensures { result ≡ encipher key.now zero_block }
{
    let mut blocks = [[0; BLOCK_BYTES]];
    key.encrypt(&mut blocks);
    blocks[SUBKEY]
}

/// The counter block before the first one of the text, J0 (SP 800-38D, 7.1, step 2), which masks the tag. An IV of another
/// length than 12 bytes takes a block more, for the hash subkey.
#[tactic(auto, unfolding(mbj_types::specs::Gcm::pre_counter_block))]
pub fn pre_counter_block(key: &TextKey, iv: &[u8]) -> [u8; 16]
    ensures { result ≡ pre_counter_block (encipher key.now zero_block) iv.now }
{
    if iv.len() == COUNTER_IV_BYTES {
        numbered_iv(iv)
    } else {
        hashed_iv(&hash_subkey(key), iv)
    }
}

/// The first batch for a text of `len` bytes: the hash subkey, the mask of the tag, and the key stream of the first blocks, as far as
/// there are any.
pub fn first_batch(key: &TextKey, pre_counter: &[u8; 16], len: usize) -> [[u8; 16]; BATCH_BLOCKS]
    ensures { AreFirst (encipher key.now) pre_counter.now len result }
{
    let many = len.div_ceil(BLOCK_BYTES).min(FIRST_BLOCKS);
    let mut outputs = [[0; BLOCK_BYTES]; BATCH_BLOCKS];
    outputs[TAG_MASK] = *pre_counter;
    put_counters_after(&mut outputs[LEAD..many + LEAD], pre_counter);
    key.encrypt(&mut outputs[..many + LEAD]);
    outputs
}

/// The key stream of the counter blocks after `counter`, of `many` blocks, which are at most `BATCH_BLOCKS`.
#[inline(always)]
pub fn outputs_after(key: &TextKey, counter: &[u8; 16], many: usize) -> [[u8; 16]; BATCH_BLOCKS]
    requires { many ≤ BATCH_BLOCKS }
    ensures length { length result ≡ BATCH_BLOCKS }
    ensures outputs { (j : ℕ) → j < many → slice_index_or result j [] ≡ encipher key.now (incremented counter.now (j + 1)) }
{
    let mut outputs = [[0; BLOCK_BYTES]; BATCH_BLOCKS];
    let first = &mut outputs[..many];
    put_counters_after(first, counter);
    key.encrypt(first);
    outputs
}

// The blocks of a text from block `first` on. `before` is the counter block before that of block `first`.
fn xor_from(key: &TextKey, before: &[u8; 16], text: &mut [u8], first: usize)
    requires { first ≤ (length text.old + 15) / 16 }
    ensures { (whole : List ℕ) → Walked (gctr (encipher key.now) (inc32 before.now)) text.old first whole → text.new ≡ whole }
{
    let left = text.len().div_ceil(BLOCK_BYTES) - first;
    let mut counter = *before;
    'batches: for b in 0..left.div_ceil(BATCH_BLOCKS) {
        let here = (left - BATCH_BLOCKS * b).min(BATCH_BLOCKS);
        let outputs = outputs_after(key, &counter, here);
        xor_blocks(text, first + BATCH_BLOCKS * b, &outputs[..here]);
        counter = incremented(&counter, BATCH_BLOCKS as u32);
    }
}

/// Encrypts or decrypts a text in place, which is the same map (SP 800-38D, 7.1, step 3): each block of 16 bytes is
/// xored with its enciphered counter block, and the last one, which may be shorter, with as many bytes of it. The first
/// counter block is the one after `pre_counter`, and `outputs` are those of the text's first batch.
pub fn xor_key_stream(
    key: &TextKey,
    pre_counter: &[u8; 16],
    outputs: &[[u8; 16]; BATCH_BLOCKS],
    text: &mut [u8],
)
    requires { AreFirst (encipher key.now) pre_counter.now (length text.old) outputs.now }
    ensures { text.new ≡ concat (gctr (encipher key.now) (inc32 pre_counter.now) (blocks text.old)) }
{
    let many = text.len().div_ceil(BLOCK_BYTES).min(FIRST_BLOCKS);
    xor_blocks(text, 0, &outputs[LEAD..many + LEAD]);
    xor_from(
        key,
        &incremented(pre_counter, FIRST_BLOCKS as u32),
        text,
        many,
    );
}
