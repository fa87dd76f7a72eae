//! Blocks and hash values with words of 64 bits as vectors: lane i has the words of block or hash value i. Blocks are loaded
//! 16 bytes at a time, and transposed in registers.
ghost use Rattle.std.specs.Prelude.{◌≡◌, ℕ, ◌+◌, ◌^◌, ◌<◌, ◌≤◌, [], ◌++◌, length, slice_index, slice_index_or};
ghost use Rattle.std.specs.Simd.Lanes.{Each1};
ghost use Rattle.mbj_types.specs.Lanes.{lane_at, lane_of};
ghost use Rattle.mbj_sha_lanes.specs.Words.{words64};
ghost use Rattle.mbj_sha_lanes.specs.Inside.Columns64.{couple, transposed};

use crate::blocks::Blocks;
use mbj_types::Lane64;
use std::simd::{u8x16, u64x4, u64x8};

/// Lane words of 64 bits that are loaded from blocks.
pub trait Load64: Lane64 {
    /// The 16 words of each block (FIPS 180-4, 5.2): vector k has word k of block i in lane i.
    fn block_words<B: Blocks>(blocks: &B) -> [Self; 16]
        requires size { B.block_bytes ≡ 128 }
        requires lent { (i : ℕ) → i < Self.LANES → B.lends blocks.now i }
        ensures vectors { length result ≡ 16 }
        ensures lanes { (i : ℕ) → i < Self.LANES → words64 (B.block blocks.now i) ≡ lane_of Self.lane result i };

    /// The word in lane `i`.
    fn word(self, i: usize) -> u64
        requires { i < Self.LANES }
        ensures { result ≡ Self.lane self i };
}

/// Two words of each of two blocks, from byte `at` on, the highest byte of a word first.
#[inline(always)]
fn pair(low: &[u8], high: &[u8], at: usize) -> u64x4
    requires low { at + 16 ≤ length low.now }
    requires high { at + 16 ≤ length high.now }
    ensures words { result ≡ couple low.now at ++ couple high.now at }
    ensures low { (k : ℕ) → slice_index low.now k < 2 ^ 8 }
    ensures high { (k : ℕ) → slice_index high.now k < 2 ^ 8 }
{
    let low = u8x16::from_slice(&low[at..]);
    let high = u8x16::from_slice(&high[at..]);
    u64x4::from_le_bytes(low.shuffle(
        high,
        [
            7, 6, 5, 4, 3, 2, 1, 0, 15, 14, 13, 12, 11, 10, 9, 8, 23, 22, 21, 20, 19, 18, 17, 16,
            31, 30, 29, 28, 27, 26, 25, 24,
        ],
    ))
}

/// The words of two pairs of blocks, by word.
#[inline(always)]
fn transposed(a: u64x4, b: u64x4) -> [u64x4; 2]
    ensures { result ≡ transposed a b }
{
    [a.shuffle(b, [0, 4, 2, 6]), a.shuffle(b, [1, 5, 3, 7])]
}

/// The 16 words of each block of a group: the four from lane `first` on.
#[inline(always)]
fn group_words<B: Blocks>(blocks: &B, first: usize) -> [u64x4; 16]
    requires size { B.block_bytes ≡ 128 }
    requires small { first < 2 ^ 32 }
    requires lent { (i : ℕ) → i < 4 → B.lends blocks.now (first + i) }
    ensures vectors { length result ≡ 16 }
    ensures width { Each1 (λ v. length v ≡ 4) result }
    ensures lanes { (i : ℕ) → i < 4 → words64 (B.block blocks.now (first + i)) ≡ lane_of (lane_at 64) result i }
{
    let (b0, b2) = (blocks.block(first), blocks.block(first + 2));
    let (b1, b3) = (blocks.block(first + 1), blocks.block(first + 3));
    let [w0, w1] = transposed(pair(b0, b2, 0), pair(b1, b3, 0));
    let [w2, w3] = transposed(pair(b0, b2, 16), pair(b1, b3, 16));
    let [w4, w5] = transposed(pair(b0, b2, 32), pair(b1, b3, 32));
    let [w6, w7] = transposed(pair(b0, b2, 48), pair(b1, b3, 48));
    let [w8, w9] = transposed(pair(b0, b2, 64), pair(b1, b3, 64));
    let [w10, w11] = transposed(pair(b0, b2, 80), pair(b1, b3, 80));
    let [w12, w13] = transposed(pair(b0, b2, 96), pair(b1, b3, 96));
    let [w14, w15] = transposed(pair(b0, b2, 112), pair(b1, b3, 112));
    [
        w0, w1, w2, w3, w4, w5, w6, w7, w8, w9, w10, w11, w12, w13, w14, w15,
    ]
}

/// Two vectors side by side.
#[inline(always)]
fn both(low: u64x4, high: u64x4) -> u64x8
    ensures { result ≡ low ++ high }
{
    low.shuffle(high, [0, 1, 2, 3, 4, 5, 6, 7])
}

/// The words of two groups of blocks, side by side.
#[inline(always)]
fn joined(low: &[u64x4; 16], high: &[u64x4; 16]) -> [u64x8; 16]
    ensures vectors { length result ≡ 16 }
    ensures words { (k : ℕ) → k < 16 → slice_index_or result k [] ≡ slice_index_or low.now k [] ++ slice_index_or high.now k [] }
{
    let mut words = [u64x8::splat(0); 16];
    'words: for k in 0..16 {
        words[k] = both(low[k], high[k]);
    }
    words
}

impl Load64 for u64x4 {
    #[inline(always)]
    fn block_words<B: Blocks>(blocks: &B) -> [u64x4; 16] {
        group_words(blocks, 0)
    }

    #[inline(always)]
    fn word(self, i: usize) -> u64 {
        self.to_array()[i]
    }
}

impl Load64 for u64x8 {
    #[inline(always)]
    fn block_words<B: Blocks>(blocks: &B) -> [u64x8; 16] {
        let low = group_words(blocks, 0);
        let high = group_words(blocks, 4);
        joined(&low, &high)
    }

    #[inline(always)]
    fn word(self, i: usize) -> u64 {
        self.to_array()[i]
    }
}

#[inline(always)]
fn variable_of<const N: usize>(state: &[u64; N], j: usize) -> u64
    requires { j < N }
    ensures value { result ≡ slice_index state.now j }
    ensures length { length state.now ≡ N }
{
    state[j]
}

// Word j of each hash value of N words.
#[inline(always)]
fn state_words<const N: usize>(states: &[[u64; N]; 8], j: usize) -> u64x8
    requires { j < N }
    ensures words { (i : ℕ) → i < 8 → lane_at 64 result i ≡ slice_index (slice_index_or states.now i []) j }
    ensures lengths { (i : ℕ) → i < 8 → length (slice_index_or states.now i []) ≡ N }
{
    let mut words = [0; 8];
    'states: for i in 0..8 {
        words[i] = variable_of(&states[i], j);
    }
    u64x8::from_array(words)
}

/// Hash values of N words, of which there is one at least, as vectors: hash value i is in lane i.
#[inline(always)]
pub fn gathered<const N: usize>(states: &[[u64; N]; 8]) -> [u64x8; N]
    requires { 0 < N }
    ensures lanes { (i : ℕ) → i < 8 → lane_of (lane_at 64) result i ≡ slice_index_or states.now i [] }
    ensures length { length result ≡ N }
{
    let mut lanes = [u64x8::splat(0); N];
    'words: for j in 0..N {
        lanes[j] = state_words(states, j);
    }
    lanes
}

/// The hash value of N words in lane `i`.
#[inline(always)]
pub fn scattered<const N: usize>(states: &[u64x8; N], i: usize) -> [u64; N]
    requires { i < 8 }
    ensures { result ≡ lane_of (lane_at 64) states.now i }
{
    let mut words = [0; N];
    'words: for j in 0..N {
        words[j] = states[j].to_array()[i];
    }
    words
}

/// The hash values of N words in all lanes.
#[inline(always)]
pub fn scattered_all<const N: usize>(lanes: &[u64x8; N]) -> [[u64; N]; 8]
    ensures { (i : ℕ) → i < 8 → slice_index_or result i [] ≡ lane_of (lane_at 64) lanes.now i }
{
    let mut states = [[0; N]; 8];
    'states: for i in 0..8 {
        states[i] = scattered(lanes, i);
    }
    states
}
