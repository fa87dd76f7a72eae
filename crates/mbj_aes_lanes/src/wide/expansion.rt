//! KEYEXPANSION (FIPS 197, 5.2) of a key in each lane, all at once, word by word. All words are in the tower's basis.
ghost use Rattle.std.specs.Prelude.{◌≡◌, ℕ, ◌+◌, ◌-◌, ◌*◌, ◌<◌, ◌≤◌, List, length, take};
ghost use Rattle.mbj_types.specs.Aes.{word, sub_byte, sub_bytes, rot_word, rcon, schedule_term, key_schedule};
ghost use Rattle.mbj_types.specs.Blocks.{xor_lists};
ghost use Rattle.mbj_aes.specs.Bytes.{IsKeyWords};
ghost use Rattle.mbj_aes.specs.Tower.{from_tower};
ghost use Rattle.mbj_aes_lanes.specs.Inside.Wide.{tower_word, tower_lane};
ghost use Rattle.mbj_aes_lanes.specs.Inside.WideKeys.{IsLaneKey};

use crate::wide::key_states::{SBOX_CONSTANT_IN_TOWER, to_tower_byte};
use crate::wide::state::{Word, xor_words};
use crate::wide::words::{MAX_SCHEDULE_WORDS, put_word, word_at};
use mbj_aes::substitution::substituted_in_tower;
use mbj_aes::{EXTRA_KEYS, MAX_KEY_WORDS, ROUND_WORDS, round_constant};
use mbj_types::Lane8;

// Where a key of the most words has one substitution more, between two round constants.
const MIDDLE_WORD: usize = MAX_KEY_WORDS / 2;

// SBOX of each byte.
#[inline(always)]
fn sub_byte<V: Lane8>(x: V) -> V
    ensures { (i : ℕ) → i < V.LANES → from_tower (V.lane result i) ≡ sub_byte (from_tower (V.lane x i)) }
{
    substituted_in_tower(x)
        .once
        .xored(V::splat(SBOX_CONSTANT_IN_TOWER))
}

// SUBWORD.
#[inline(always)]
fn sub_word<V: Lane8>(w: Word<V>) -> Word<V>
    ensures { (i : ℕ) → i < V.LANES → tower_word V.lane result i ≡ sub_bytes (tower_word V.lane w i) }
{
    Word(sub_byte(w.0), sub_byte(w.1), sub_byte(w.2), sub_byte(w.3))
}

// ROTWORD.
#[inline(always)]
fn rot_word<V: Lane8>(word: Word<V>) -> Word<V>
    ensures { (i : ℕ) → tower_word V.lane result i ≡ rot_word (tower_word V.lane word i) }
{
    Word(word.1, word.2, word.3, word.0)
}

// Rcon[j], in every lane.
#[inline(always)]
fn constant_word<V: Lane8>(j: usize) -> Word<V>
    requires least { 1 ≤ j }
    requires most { j ≤ 10 }
    ensures { (i : ℕ) → i < V.LANES → tower_word V.lane result i ≡ rcon j }
{
    let [first, ..] = round_constant(j);
    let zero = V::splat(0);
    Word(to_tower_byte(V::splat(first)), zero, zero, zero)
}

// What is added to word `i - key_words` to make word `i` of the schedules of keys of `key_words` words.
#[inline(always)]
fn schedule_term<V: Lane8>(words: &[V], key_words: usize, i: usize) -> Word<V>
    requires key { IsKeyWords key_words }
    requires first { key_words ≤ i }
    requires last { i < 4 * (key_words + 7) }
    requires written { 4 * i ≤ length words.now }
    ensures { (k : ℕ) → k < V.LANES → tower_word V.lane result k ≡ schedule_term key_words (tower_lane V.lane words.now k) i }
{
    let last = word_at(words, i - 1);
    if i % key_words == 0 {
        xor_words(sub_word(rot_word(last)), constant_word(i / key_words))
    } else if key_words == MAX_KEY_WORDS && i % MAX_KEY_WORDS == MIDDLE_WORD {
        sub_word(last)
    } else {
        last
    }
}

// Word `i` of the schedules of keys of `key_words` words, from the words before it.
#[inline(always)]
fn next_word<V: Lane8>(words: &[V], key_words: usize, i: usize) -> Word<V>
    requires key { IsKeyWords key_words }
    requires first { key_words ≤ i }
    requires last { i < 4 * (key_words + 7) }
    requires written { 4 * i ≤ length words.now }
    ensures { (k : ℕ) → k < V.LANES → tower_word V.lane result k
        ≡ xor_lists (word (tower_lane V.lane words.now k) (i - key_words)) (schedule_term key_words (tower_lane V.lane words.now k) i) }
{
    let before = word_at(words, i - key_words);
    xor_words(before, schedule_term(words, key_words, i))
}

/// Expands keys of `key_words` words, which are the first lane words. The schedules take their place, and that of as many words behind
/// them as they have.
#[inline(always)]
pub fn expand_words<V: Lane8>(words: &mut [V], key_words: usize)
    requires key { IsKeyWords key_words }
    requires room { length words.old ≡ MAX_SCHEDULE_WORDS }
    ensures { (k : ℕ) (key : List ℕ) → k < V.LANES → IsLaneKey key_words key (tower_lane V.lane words.old k)
        → take (16 * (key_words + 7)) (tower_lane V.lane words.new k) ≡ key_schedule key }
{
    'words: for i in key_words..ROUND_WORDS * (key_words + EXTRA_KEYS) {
        let word = next_word(words, key_words, i);
        put_word(words, i, word);
    }
}
