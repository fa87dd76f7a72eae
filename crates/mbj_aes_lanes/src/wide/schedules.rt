//! Keys in lanes, whose schedules are made in lane words and become round keys where they stand.
ghost use Rattle.std.specs.Prelude.{◌≡◌, ℕ, ◌+◌, ◌*◌, ◌%◌, ◌<◌, ◌≤◌, [], length, take, drop, ◌++◌, slice_index_or};
ghost use Rattle.mbj_types.specs.Aes.{key_schedule};
ghost use Rattle.mbj_types.specs.Lanes.{lane_at};
ghost use Rattle.mbj_types.specs.declared.kind.TheConstants.{AES_LANES};
ghost use Rattle.mbj_aes.specs.Bytes.{IsRoundCount};
ghost use Rattle.mbj_aes_lanes.specs.KeyBytes.{IsKeyArray, key_of_array};
ghost use Rattle.mbj_aes_lanes.specs.Inside.Wide.{tower_lane};
ghost use Rattle.mbj_aes_lanes.specs.Inside.WideKeys.{schedule_in};

use crate::blocks::words_of;
use crate::lane_blocks::LaneBlocks;
use crate::wide::expansion::expand_words;
use crate::wide::key_states::{key_of_tower, to_tower};
use crate::wide::words::{MAX_SCHEDULE_WORDS, put_state, state_at};
use mbj_aes::EXTRA_KEYS;
use mbj_types::{AES_LANES, AesWord, BLOCK_BYTES, Lane8};

/// Lays schedules, which are in the tower's basis, out for the rounds: each round key takes the place of its 16 lane words.
#[inline(always)]
pub fn lay_out<V: Lane8>(words: &mut [V])
    requires whole { length words.old % 16 ≡ 0 }
    requires least { 48 ≤ length words.old }
    ensures { (i : ℕ) → i < V.LANES → schedule_in V.lane words.new i ≡ tower_lane V.lane words.old i }
{
    let rounds = words.len() / BLOCK_BYTES - 1;
    'keys: for r in 0..rounds + 1 {
        let key = key_of_tower(state_at(words, r), r, rounds);
        let at = BLOCK_BYTES * r;
        put_state(&mut words[at..at + BLOCK_BYTES], &key);
    }
}

// Half of the bytes of each key, from `start` on.
#[derive(Drop)]
struct KeyHalves<'a> {
    keys: &'a [[u8; 32]; AES_LANES],
    start: usize,
    ghost within: { start + 16 ≤ 32 },
}

impl LaneBlocks for KeyHalves<'_> {
    ghost lanes_of = { λ h. AES_LANES };

    ghost block_in = { λ h i. take 16 (drop h.start (slice_index_or h.keys.now i [])) };

    #[inline(always)]
    fn block(&self, lane: usize) -> [u8; 16] {
        let mut block = [0; BLOCK_BYTES];
        block.copy_from_slice(&self.keys[lane][self.start..self.start + BLOCK_BYTES]);
        block
    }
}

// The block of each lane, in the tower's basis.
#[inline(always)]
fn put_in_tower<B: LaneBlocks>(words: &mut [AesWord], blocks: &B)
    requires room { length words.old ≡ 16 }
    requires lanes { AES_LANES ≤ B.lanes_of blocks.now }
    ensures { (i : ℕ) → i < AES_LANES → tower_lane (lane_at 8) words.new i ≡ B.block_in blocks.now i }
{
    words_of(words, blocks);
    let state = to_tower(state_at(words, 0));
    put_state(words, &state);
}

// The half of each key that begins at `start` goes into the words from there on, in the tower's basis.
#[inline(always)]
fn load_half(words: &mut [AesWord], bytes: &[[u8; 32]; AES_LANES], start: usize)
    requires within { start + 16 ≤ 32 }
    requires room { start + 16 ≤ length words.old }
    ensures { (i : ℕ) → i < AES_LANES → tower_lane (lane_at 8) words.new i
        ≡ take start (tower_lane (lane_at 8) words.old i) ++ take 16 (drop start (slice_index_or bytes.now i []))
        ++ drop (start + 16) (tower_lane (lane_at 8) words.old i) }
{
    let half = KeyHalves { keys: bytes, start };
    put_in_tower(&mut words[start..start + BLOCK_BYTES], &half);
}

// The keys go into the first words, in the tower's basis.
#[inline(always)]
fn load_keys(words: &mut [AesWord], bytes: &[[u8; 32]; AES_LANES])
    requires { length words.old ≡ MAX_SCHEDULE_WORDS }
    ensures { (i : ℕ) → i < AES_LANES → length (slice_index_or bytes.now i []) ≡ 32
        → tower_lane (lane_at 8) words.new i ≡ slice_index_or bytes.now i [] ++ drop 32 (tower_lane (lane_at 8) words.old i) }
{
    load_half(words, bytes, 0);
    load_half(words, bytes, BLOCK_BYTES);
}

/// The round keys of the key in each lane, of `rounds` rounds, laid out for the rounds in the first lane words. What stands there isn't
/// looked at.
#[inline(always)]
pub fn expand_keys(words: &mut [AesWord], bytes: &[[u8; 32]; AES_LANES], rounds: usize)
    requires rounds { IsRoundCount rounds }
    requires room { length words.old ≡ MAX_SCHEDULE_WORDS }
    ensures { (i : ℕ) → i < AES_LANES → IsKeyArray rounds (slice_index_or bytes.now i [])
        → schedule_in (lane_at 8) (take (16 * (rounds + 1)) words.new) i
        ≡ key_schedule (key_of_array rounds (slice_index_or bytes.now i [])) }
{
    load_keys(words, bytes);
    expand_words(words, rounds + 1 - EXTRA_KEYS);
    lay_out(&mut words[..BLOCK_BYTES * (rounds + 1)]);
}
