ghost use Rattle.std.specs.Prelude.{◌≡◌, ◌+◌, ◌*◌, ◌-◌, ◌%◌, ◌<◌, ◌≤◌, ◌++◌, length, take, drop, replicate, ◌/◌};
ghost use Rattle.mbj_types.specs.Blocks.{xor_lists};
ghost use Rattle.mbj_types.specs.Aes.{word, sub_bytes, rot_word, rcon, schedule_term, round_count, key_schedule};
ghost use Rattle.mbj_aes.specs.Bytes.{IsKeySize, IsKeyWords};
ghost use Rattle.mbj_aes.specs.Inside.Turns.{IsTurn};
ghost use Rattle.mbj_aes.specs.declared.sizes.TheConstants.{MAX_SCHEDULE_BYTES};

use crate::sizes::{MAX_SCHEDULE_BYTES, ROUND_WORDS, WORD_BYTES, round_count};
use crate::substitution::sub_word;
use mbj_types::xor_in_place;

// The first byte of each round constant, from Rcon[1] on (FIPS 197, 5.2).
const ROUND_CONSTANTS: [u8; 10] = [0x01, 0x02, 0x04, 0x08, 0x10, 0x20, 0x40, 0x80, 0x1b, 0x36];

// ROTWORD (FIPS 197, 5.2).
fn rot_word(word: &[u8; 4]) -> [u8; 4]
    ensures { result ≡ rot_word word.now }
{
    [word[1], word[2], word[3], word[0]]
}

/// Rcon[j] (FIPS 197, 5.2), from j = 1 to 10.
pub fn round_constant(j: usize) -> [u8; 4]
    requires least { 1 ≤ j }
    requires most { j ≤ 10 }
    ensures { result ≡ rcon j }
{
    [ROUND_CONSTANTS[j - 1], 0, 0, 0]
}

// Word `i` of `words`.
fn word_at(words: &[u8], i: usize) -> [u8; 4]
    requires { 4 * i + 4 ≤ length words.now }
    ensures { result ≡ word words.now i }
{
    let mut word = [0; WORD_BYTES];
    word.copy_from_slice(&words[WORD_BYTES * i..WORD_BYTES * (i + 1)]);
    word
}

// Writes word `i` of `words`.
fn put_word(words: &mut [u8], i: usize, word: &[u8; 4])
    requires { 4 * i + 4 ≤ length words.old }
    ensures { words.new ≡ take (4 * i) words.old ++ word.now ++ drop (4 * i + 4) words.old }
{
    words[WORD_BYTES * i..WORD_BYTES * (i + 1)].copy_from_slice(word);
}

// Where word `i` of a schedule stands, counted from the key on: its place in a turn of as many words as the key has, and the number
// of the turn. It is counted on from word to word, since a division takes longer than the word.
#[derive(Clone, Copy)]
struct Turn {
    place: usize,
    number: usize,
}

// The turn of the next word.
fn next_turn(turn: Turn, key_words: usize) -> Turn
    requires key { IsKeyWords key_words }
    requires inside { turn.place < key_words }
    requires few { turn.number < MAX_SCHEDULE_BYTES }
    ensures place { result.place ≡ (turn.place + 1) % key_words }
    ensures number { result.number ≡ turn.number + (turn.place + 1) / key_words }
{
    if turn.place + 1 == key_words {
        Turn {
            place: 0,
            number: turn.number + 1,
        }
    } else {
        Turn {
            place: turn.place + 1,
            ..turn
        }
    }
}

// What is added to word `i - key_words` to make word `i` of the schedule of a key of `key_words` words.
fn schedule_term(words: &[u8], key_words: usize, i: usize, turn: Turn) -> [u8; 4]
    requires key { IsKeyWords key_words }
    requires turn { IsTurn key_words i turn }
    requires first { key_words ≤ i }
    requires last { i < 4 * (key_words + 7) }
    requires written { 4 * i ≤ length words.now }
    ensures { result ≡ schedule_term key_words words.now i }
{
    let last = word_at(words, i - 1);
    if turn.place == 0 {
        let mut term = sub_word(&rot_word(&last));
        xor_in_place(&mut term, &round_constant(turn.number));
        term
    } else if key_words == 8 && turn.place == 4 {
        // Keys of 32 bytes have one substitution more, between two round constants.
        sub_word(&last)
    } else {
        last
    }
}

// Word `i` of the schedule of a key of `key_words` words, from the words before it.
fn next_word(words: &[u8], key_words: usize, i: usize, turn: Turn) -> [u8; 4]
    requires key { IsKeyWords key_words }
    requires turn { IsTurn key_words i turn }
    requires first { key_words ≤ i }
    requires last { i < 4 * (key_words + 7) }
    requires written { 4 * i ≤ length words.now }
    ensures { result ≡ xor_lists (word words.now (i - key_words)) (schedule_term key_words words.now i) }
{
    let mut word = word_at(words, i - key_words);
    xor_in_place(&mut word, &schedule_term(words, key_words, i, turn));
    word
}

// The key, and zeros.
fn key_and_zeros(key: &[u8]) -> [u8; MAX_SCHEDULE_BYTES]
    requires { length key.now ≤ MAX_SCHEDULE_BYTES }
    ensures { result ≡ key.now ++ replicate (MAX_SCHEDULE_BYTES - length key.now) 0 }
{
    let mut bytes = [0; MAX_SCHEDULE_BYTES];
    bytes[..key.len()].copy_from_slice(key);
    bytes
}

/// KEYEXPANSION (FIPS 197, 5.2): the schedule of the key, and zeros.
pub fn expanded_key(key: &[u8]) -> [u8; MAX_SCHEDULE_BYTES]
    requires { IsKeySize (length key.now) }
    ensures { let zeros = MAX_SCHEDULE_BYTES - 16 * (round_count key.now + 1) in
        result ≡ key_schedule key.now ++ replicate zeros 0 }
{
    let key_words = key.len() / WORD_BYTES;
    let mut bytes = key_and_zeros(key);
    let mut turn = Turn {
        place: 0,
        number: 1,
    };
    'words: for i in key_words..ROUND_WORDS * (round_count(key.len()) + 1) {
        let word = next_word(&bytes, key_words, i, turn);
        put_word(&mut bytes, i, &word);
        turn = next_turn(turn, key_words);
    }
    bytes
}
