//! Blocks and hash values with words of 32 bits as vectors: lane i has the words of block or hash value i. Blocks are loaded
//! 16 bytes at a time, and transposed in registers.
ghost use Rattle.std.specs.Prelude.{◌≡◌, ℕ, ◌+◌, ◌^◌, ◌<◌, ◌≤◌, [], ◌∷◌, ◌++◌, length, slice_index, slice_index_or};
ghost use Rattle.std.specs.Simd.Lanes.{Each1, pick_l};
ghost use Rattle.mbj_types.specs.Lanes.{lane_at, lane_of};
ghost use Rattle.mbj_sha_lanes.specs.Words.{words32};
ghost use Rattle.mbj_sha_lanes.specs.Inside.Columns32.{quad, transposed};

use crate::blocks::Blocks;
use mbj_types::Lane32;
use std::simd::{u8x16, u32x8, u32x16};

/// Lane words of 32 bits that are loaded from blocks.
pub trait Load32: Lane32 {
    /// The 16 words of each block (FIPS 180-4, 5.2): vector k has word k of block i in lane i.
    fn block_words<B: Blocks>(blocks: &B) -> [Self; 16]
        requires size { B.block_bytes ≡ 64 }
        requires lent { (i : ℕ) → i < Self.LANES → B.lends blocks.now i }
        ensures vectors { length result ≡ 16 }
        ensures lanes { (i : ℕ) → i < Self.LANES → words32 (B.block blocks.now i) ≡ lane_of Self.lane result i };

    /// The word in lane `i`.
    fn word(self, i: usize) -> u32
        requires { i < Self.LANES }
        ensures { result ≡ Self.lane self i };
}

/// Four words of each of two blocks, from byte `at` on, the highest byte of a word first.
#[inline(always)]
fn pair(low: &[u8], high: &[u8], at: usize) -> u32x8
    requires low { at + 16 ≤ length low.now }
    requires high { at + 16 ≤ length high.now }
    ensures words { result ≡ quad low.now at ++ quad high.now at }
    ensures low { (k : ℕ) → slice_index low.now k < 2 ^ 8 }
    ensures high { (k : ℕ) → slice_index high.now k < 2 ^ 8 }
{
    let low = u8x16::from_slice(&low[at..]);
    let high = u8x16::from_slice(&high[at..]);
    u32x8::from_le_bytes(low.shuffle(
        high,
        [
            3, 2, 1, 0, 7, 6, 5, 4, 11, 10, 9, 8, 15, 14, 13, 12, 19, 18, 17, 16, 23, 22, 21, 20,
            27, 26, 25, 24, 31, 30, 29, 28,
        ],
    ))
}

/// The first two words of each block of two pairs, side by side.
#[inline(always)]
fn low_words(a: u32x8, b: u32x8) -> u32x8
    ensures { result ≡ pick_l 0 (a ++ b) (0 ∷ 8 ∷ 1 ∷ 9 ∷ 4 ∷ 12 ∷ 5 ∷ 13 ∷ []) }
{
    a.shuffle(b, [0, 8, 1, 9, 4, 12, 5, 13])
}

/// The last two words of each block of two pairs, side by side.
#[inline(always)]
fn high_words(a: u32x8, b: u32x8) -> u32x8
    ensures { result ≡ pick_l 0 (a ++ b) (2 ∷ 10 ∷ 3 ∷ 11 ∷ 6 ∷ 14 ∷ 7 ∷ 15 ∷ []) }
{
    a.shuffle(b, [2, 10, 3, 11, 6, 14, 7, 15])
}

/// The first words of four pairs of blocks.
#[inline(always)]
fn low_halves(a: u32x8, b: u32x8) -> u32x8
    ensures { result ≡ pick_l 0 (a ++ b) (0 ∷ 1 ∷ 8 ∷ 9 ∷ 4 ∷ 5 ∷ 12 ∷ 13 ∷ []) }
{
    a.shuffle(b, [0, 1, 8, 9, 4, 5, 12, 13])
}

/// The second words of four pairs of blocks.
#[inline(always)]
fn high_halves(a: u32x8, b: u32x8) -> u32x8
    ensures { result ≡ pick_l 0 (a ++ b) (2 ∷ 3 ∷ 10 ∷ 11 ∷ 6 ∷ 7 ∷ 14 ∷ 15 ∷ []) }
{
    a.shuffle(b, [2, 3, 10, 11, 6, 7, 14, 15])
}

/// The words of four pairs of blocks, by word.
#[inline(always)]
fn transposed(a: u32x8, b: u32x8, c: u32x8, d: u32x8) -> [u32x8; 4]
    ensures { result ≡ transposed a b c d }
{
    let low = low_words(a, b);
    let low_on = low_words(c, d);
    let high = high_words(a, b);
    let high_on = high_words(c, d);
    [
        low_halves(low, low_on),
        high_halves(low, low_on),
        low_halves(high, high_on),
        high_halves(high, high_on),
    ]
}

/// The 16 words of each block of a group: the eight from lane `first` on.
#[inline(always)]
pub(crate) fn group_words<B: Blocks>(blocks: &B, first: usize) -> [u32x8; 16]
    requires size { B.block_bytes ≡ 64 }
    requires small { first < 2 ^ 32 }
    requires lent { (i : ℕ) → i < 8 → B.lends blocks.now (first + i) }
    ensures vectors { length result ≡ 16 }
    ensures width { Each1 (λ v. length v ≡ 8) result }
    ensures lanes { (i : ℕ) → i < 8 → words32 (B.block blocks.now (first + i)) ≡ lane_of (lane_at 32) result i }
{
    let (b0, b4) = (blocks.block(first), blocks.block(first + 4));
    let (b1, b5) = (blocks.block(first + 1), blocks.block(first + 5));
    let (b2, b6) = (blocks.block(first + 2), blocks.block(first + 6));
    let (b3, b7) = (blocks.block(first + 3), blocks.block(first + 7));
    let [w0, w1, w2, w3] = transposed(
        pair(b0, b4, 0),
        pair(b1, b5, 0),
        pair(b2, b6, 0),
        pair(b3, b7, 0),
    );
    let [w4, w5, w6, w7] = transposed(
        pair(b0, b4, 16),
        pair(b1, b5, 16),
        pair(b2, b6, 16),
        pair(b3, b7, 16),
    );
    let [w8, w9, w10, w11] = transposed(
        pair(b0, b4, 32),
        pair(b1, b5, 32),
        pair(b2, b6, 32),
        pair(b3, b7, 32),
    );
    let [w12, w13, w14, w15] = transposed(
        pair(b0, b4, 48),
        pair(b1, b5, 48),
        pair(b2, b6, 48),
        pair(b3, b7, 48),
    );
    [
        w0, w1, w2, w3, w4, w5, w6, w7, w8, w9, w10, w11, w12, w13, w14, w15,
    ]
}

/// Two vectors side by side.
#[inline(always)]
pub(crate) fn both(low: u32x8, high: u32x8) -> u32x16
    ensures { result ≡ low ++ high }
{
    low.shuffle(high, [0, 1, 2, 3, 4, 5, 6, 7, 8, 9, 10, 11, 12, 13, 14, 15])
}

/// The words of two groups of blocks, side by side.
#[inline(always)]
fn joined(low: &[u32x8; 16], high: &[u32x8; 16]) -> [u32x16; 16]
    ensures vectors { length result ≡ 16 }
    ensures words { (k : ℕ) → k < 16 → slice_index_or result k [] ≡ slice_index_or low.now k [] ++ slice_index_or high.now k [] }
{
    let mut words = [u32x16::splat(0); 16];
    'words: for k in 0..16 {
        words[k] = both(low[k], high[k]);
    }
    words
}

impl Load32 for u32x8 {
    #[inline(always)]
    fn block_words<B: Blocks>(blocks: &B) -> [u32x8; 16] {
        group_words(blocks, 0)
    }

    #[inline(always)]
    fn word(self, i: usize) -> u32 {
        self.to_array()[i]
    }
}

impl Load32 for u32x16 {
    #[inline(always)]
    fn block_words<B: Blocks>(blocks: &B) -> [u32x16; 16] {
        let low = group_words(blocks, 0);
        let high = group_words(blocks, 8);
        joined(&low, &high)
    }

    #[inline(always)]
    fn word(self, i: usize) -> u32 {
        self.to_array()[i]
    }
}

#[inline(always)]
fn variable_of<const N: usize>(state: &[u32; N], j: usize) -> u32
    requires { j < N }
    ensures value { result ≡ slice_index state.now j }
    ensures length { length state.now ≡ N }
{
    state[j]
}

// Word j of each hash value of N words.
#[inline(always)]
fn state_words<const N: usize>(states: &[[u32; N]; 16], j: usize) -> u32x16
    requires { j < N }
    ensures words { (i : ℕ) → i < 16 → lane_at 32 result i ≡ slice_index (slice_index_or states.now i []) j }
    ensures lengths { (i : ℕ) → i < 16 → length (slice_index_or states.now i []) ≡ N }
{
    let mut words = [0; 16];
    'states: for i in 0..16 {
        words[i] = variable_of(&states[i], j);
    }
    u32x16::from_array(words)
}

/// Hash values of N words, of which there is one at least, as vectors: hash value i is in lane i.
#[inline(always)]
pub fn gathered<const N: usize>(states: &[[u32; N]; 16]) -> [u32x16; N]
    requires { 0 < N }
    ensures lanes { (i : ℕ) → i < 16 → lane_of (lane_at 32) result i ≡ slice_index_or states.now i [] }
    ensures length { length result ≡ N }
{
    let mut lanes = [u32x16::splat(0); N];
    'words: for j in 0..N {
        lanes[j] = state_words(states, j);
    }
    lanes
}

/// The hash value of N words in lane `i`.
#[inline(always)]
pub fn scattered<const N: usize>(states: &[u32x16; N], i: usize) -> [u32; N]
    requires { i < 16 }
    ensures { result ≡ lane_of (lane_at 32) states.now i }
{
    let mut words = [0; N];
    'words: for j in 0..N {
        words[j] = states[j].to_array()[i];
    }
    words
}

/// The hash values of N words in all lanes.
#[inline(always)]
pub fn scattered_all<const N: usize>(lanes: &[u32x16; N]) -> [[u32; N]; 16]
    ensures { (i : ℕ) → i < 16 → slice_index_or result i [] ≡ lane_of (lane_at 32) lanes.now i }
{
    let mut states = [[0; N]; 16];
    'states: for i in 0..16 {
        states[i] = scattered(lanes, i);
    }
    states
}
