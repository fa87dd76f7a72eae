//! Texts xored with the key stream of counters, in place, four blocks at a time. No call takes memory.
ghost use Rattle.std.specs.Prelude.{◌≡◌, ℕ, ◌+◌, ◌-◌, ◌*◌, ◌/◌, ◌%◌, ◌^◌, ◌<◌, ◌≤◌, List, [], length, take, slice_index_or};
ghost use Rattle.std.specs.List.{concat};
ghost use Rattle.std.specs.Int.{w128, to_be_bytes};
ghost use Rattle.mbj_types.specs.Aes.{encipher};
ghost use Rattle.mbj_types.specs.Blocks.{blocks};
ghost use Rattle.mbj_types.specs.Modes.{ctr_blocks};
ghost use Rattle.mbj_blocks.specs.Walked.{Walked};
ghost use Rattle.mbj_aes_lanes.specs.Inside.KeyStream.{IsKeyStream};

use crate::narrow::by_fours::BATCH_BLOCKS;
use crate::narrow::text_key::TextKey;
use mbj_aes::Schedule;
use mbj_blocks::xor_blocks;
use mbj_types::BLOCK_BYTES;
use std::simd::u64x2;

// The bytes of a counter in two halves, the highest first, by way of a vector: byte by byte they take a dozen times as
// long.
#[inline(always)]
fn halves_block(high: u64, low: u64) -> [u8; 16]
    ensures { result ≡ to_be_bytes w128 (low + 2 ^ 64 * high) }
{
    u64x2::from_array([low, high])
        .to_le_bytes()
        .reverse()
        .to_array()
}

// The bytes of a counter, the highest first.
#[inline(always)]
fn counter_block(counter: u128) -> [u8; 16]
    ensures { result ≡ to_be_bytes w128 counter }
{
    let low = (counter % (1 << 64)) as u64;
    let high = (counter >> 64) as u64;
    halves_block(high, low)
}

// Writes the counter blocks from these halves on, where the low one does not wrap.
#[inline(always)]
fn put_near_counters(blocks: &mut [[u8; 16]], high: u64, low: u64)
    requires { low + length blocks.old ≤ 2 ^ 64 }
    ensures { (j : ℕ) → j < length blocks.old → slice_index_or blocks.new j [] ≡ to_be_bytes w128 (low + j + 2 ^ 64 * high) }
{
    'each: for j in 0..blocks.len() {
        blocks[j] = halves_block(high, low + j as u64);
    }
}

// Writes the counter blocks from `counter` on, wherever the counters wrap.
#[inline(never)]
fn put_any_counters(blocks: &mut [[u8; 16]], counter: u128)
    ensures { (j : ℕ) → j < length blocks.old → slice_index_or blocks.new j [] ≡ to_be_bytes w128 ((counter + j) % 2 ^ 128) }
{
    'each: for j in 0..blocks.len() {
        blocks[j] = counter_block(counter.wrapping_add(j as u128));
    }
}

// Writes the counter blocks from `counter` on, which is no secret. There are at most four.
#[inline(always)]
fn put_counters(blocks: &mut [[u8; 16]], counter: u128)
    requires { length blocks.old ≤ BATCH_BLOCKS }
    ensures { (j : ℕ) → j < length blocks.old → slice_index_or blocks.new j [] ≡ to_be_bytes w128 ((counter + j) % 2 ^ 128) }
{
    let low = (counter % (1 << 64)) as u64;
    let high = (counter >> 64) as u64;
    if low < u64::MAX - BATCH_BLOCKS as u64 {
        put_near_counters(blocks, high, low);
    } else {
        put_any_counters(blocks, counter);
    }
}

// The enciphered counters from `counter` on, `many` of them, which are at most four.
#[inline(always)]
fn outputs_of(key: &TextKey, counter: u128, many: usize) -> [[u8; 16]; BATCH_BLOCKS]
    requires { many ≤ BATCH_BLOCKS }
    ensures length { length result ≡ BATCH_BLOCKS }
    ensures outputs { IsKeyStream (encipher key.now) counter (take many result) }
{
    let mut outputs = [[0; BLOCK_BYTES]; BATCH_BLOCKS];
    let first = &mut outputs[..many];
    put_counters(first, counter);
    key.encrypt(first);
    outputs
}

// The blocks of a text from block `first` on.
fn xor_from(key: &TextKey, first_counter: u128, text: &mut [u8], first: usize)
    requires { first ≤ (length text.old + 15) / 16 }
    ensures { (whole : List ℕ) → Walked (ctr_blocks (encipher key.now) first_counter) text.old first whole → text.new ≡ whole }
{
    let left = text.len().div_ceil(BLOCK_BYTES) - first;
    let mut counter = first_counter;
    'batches: for b in 0..left.div_ceil(BATCH_BLOCKS) {
        let here = (left - BATCH_BLOCKS * b).min(BATCH_BLOCKS);
        let outputs = outputs_of(key, counter, here);
        xor_blocks(text, first + BATCH_BLOCKS * b, &outputs[..here]);
        counter = counter.wrapping_add(BATCH_BLOCKS as u128);
    }
}

/// Xors each block of a text, in place, with its enciphered counter (SP 800-38A, 6.5), and the last block, which may be
/// shorter, with as many bytes of it. `counter` is that of the first block. A counter is a number, its first byte being
/// the highest, and the next one is 1 more modulo 2^128. It takes no memory.
pub fn xor_counters(key: &Schedule, counter: u128, text: &mut [u8])
    ensures { text.new ≡ concat (ctr_blocks (encipher key.now) counter (blocks text.old)) }
{
    xor_from(&TextKey::new(key), counter, text, 0);
}

/// Enciphers `counter`, and xors a text from the counter after it on, as `xor_counters` does. The enciphered counter is returned. It goes
/// with the first blocks of the text. It takes no memory.
pub fn xor_counters_after(key: &Schedule, counter: u128, text: &mut [u8]) -> [u8; 16]
    ensures mask { result ≡ encipher key.now (to_be_bytes w128 counter) }
    ensures text { text.new ≡ concat (ctr_blocks (encipher key.now) ((counter + 1) % 2 ^ 128) (blocks text.old)) }
{
    let key = TextKey::new(key);
    let here = text.len().div_ceil(BLOCK_BYTES).min(BATCH_BLOCKS - 1);
    let outputs = outputs_of(&key, counter, here + 1);
    xor_blocks(text, 0, &outputs[1..here + 1]);
    xor_from(&key, counter.wrapping_add(BATCH_BLOCKS as u128), text, here);
    outputs[0]
}
