//! Words and states in slices of lane words, byte j of each list of bytes in lane word j.
ghost use Rattle.std.specs.Prelude.{◌≡◌, ℕ, ◌+◌, ◌*◌, ◌≤◌, ◌++◌, length, take, drop};
ghost use Rattle.mbj_types.specs.Aes.{word, round_key};
ghost use Rattle.mbj_types.specs.Lanes.{lane_of};
ghost use Rattle.mbj_aes_lanes.specs.Inside.Wide.{word_lane, state_lane, tower_word, tower_block, tower_lane};

use crate::wide::state::{State, Word};
use mbj_aes::{MAX_SCHEDULE_BYTES, ROUND_WORDS, WORD_BYTES};
use mbj_types::Lane8;

/// The lane words of the longest schedules: one for each byte.
pub const MAX_SCHEDULE_WORDS: usize = MAX_SCHEDULE_BYTES;

/// Word `i` of the lists in the lanes, whether they are plain or in the tower's basis.
#[inline(always)]
pub fn word_at<V: Lane8>(words: &[V], i: usize) -> Word<V>
    requires { 4 * i + 4 ≤ length words.now }
    ensures plain { (k : ℕ) → word_lane V.lane result k ≡ word (lane_of V.lane words.now k) i }
    ensures tower { (k : ℕ) → tower_word V.lane result k ≡ word (tower_lane V.lane words.now k) i }
{
    let at = WORD_BYTES * i;
    Word(words[at], words[at + 1], words[at + 2], words[at + 3])
}

/// Writes word `i` of the lists in the lanes.
#[inline(always)]
pub fn put_word<V: Lane8>(words: &mut [V], i: usize, word: Word<V>)
    requires { 4 * i + 4 ≤ length words.old }
    ensures { (k : ℕ) → lane_of V.lane words.new k
        ≡ take (4 * i) (lane_of V.lane words.old k) ++ word_lane V.lane word k ++ drop (4 * i + 4) (lane_of V.lane words.old k) }
{
    let at = WORD_BYTES * i;
    let here = &mut words[at..at + WORD_BYTES];
    here[0] = word.0;
    here[1] = word.1;
    here[2] = word.2;
    here[3] = word.3;
}

/// The four words of the lists in the lanes that round key `r` has in a schedule, as a state.
#[inline(always)]
pub fn state_at<V: Lane8>(words: &[V], r: usize) -> State<V>
    requires { 16 * r + 16 ≤ length words.now }
    ensures plain { (i : ℕ) → state_lane V.lane result i ≡ round_key (lane_of V.lane words.now i) r }
    ensures tower { (i : ℕ) → tower_block V.lane result i ≡ round_key (tower_lane V.lane words.now i) r }
{
    let first = ROUND_WORDS * r;
    State(
        word_at(words, first),
        word_at(words, first + 1),
        word_at(words, first + 2),
        word_at(words, first + 3),
    )
}

/// Writes the block of which this is the state into 16 lane words.
#[inline(always)]
pub fn put_state<V: Lane8>(words: &mut [V], s: &State<V>)
    requires { length words.old ≡ 16 }
    ensures { (i : ℕ) → lane_of V.lane words.new i ≡ state_lane V.lane s.now i }
{
    put_word(words, 0, s.0);
    put_word(words, 1, s.1);
    put_word(words, 2, s.2);
    put_word(words, 3, s.3);
}
