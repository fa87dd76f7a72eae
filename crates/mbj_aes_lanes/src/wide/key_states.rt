//! Round keys as the rounds take them: in the tower's basis but for the last, and but for the first with the constant of the S-box added,
//! since the S-box leaves it out.
ghost use Rattle.std.specs.Prelude.{◌≡◌, ℕ, ◌+◌, ◌*◌, ◌<◌, ◌≤◌, length};
ghost use Rattle.mbj_types.specs.Aes.{round_key};
ghost use Rattle.mbj_types.specs.Lanes.{lane_of};
ghost use Rattle.mbj_aes.specs.Tower.{from_tower};
ghost use Rattle.mbj_aes_lanes.specs.Inside.Wide.{word_lane, state_lane, tower_word, tower_block};
ghost use Rattle.mbj_aes_lanes.specs.Inside.WideKeys.{with_constant, key_in};

use crate::wide::state::{State, Word, add_round_key, splat_state};
use crate::wide::words::state_at;
use mbj_aes::SBOX_CONSTANT;
use mbj_aes::lookups::by_halves;
use mbj_aes::tables::{FROM_TOWER_HIGH, FROM_TOWER_LOW, TO_TOWER_HIGH, TO_TOWER_LOW};
use mbj_types::Lane8;

/// `SBOX_CONSTANT` in the tower's basis.
pub const SBOX_CONSTANT_IN_TOWER: u8 = 0xf8;

/// Each byte in the tower's basis.
#[inline(always)]
pub fn to_tower_byte<V: Lane8>(x: V) -> V
    ensures { (i : ℕ) → i < V.LANES → from_tower (V.lane result i) ≡ V.lane x i }
{
    by_halves(&TO_TOWER_LOW, &TO_TOWER_HIGH, x)
}

#[inline(always)]
fn word_to_tower<V: Lane8>(word: Word<V>) -> Word<V>
    ensures { (i : ℕ) → i < V.LANES → tower_word V.lane result i ≡ word_lane V.lane word i }
{
    Word(
        to_tower_byte(word.0),
        to_tower_byte(word.1),
        to_tower_byte(word.2),
        to_tower_byte(word.3),
    )
}

/// The state in the tower's basis.
#[inline(always)]
#[tactic(auto, unfolding(crate::specs::Inside::Wide::state_lane))]
pub fn to_tower<V: Lane8>(s: State<V>) -> State<V>
    ensures { (i : ℕ) → i < V.LANES → tower_block V.lane result i ≡ state_lane V.lane s i }
{
    State(
        word_to_tower(s.0),
        word_to_tower(s.1),
        word_to_tower(s.2),
        word_to_tower(s.3),
    )
}

// The constant of the S-box added to each byte.
#[inline(always)]
fn with_constant<V: Lane8>(s: State<V>) -> State<V>
    ensures { (i : ℕ) → i < V.LANES → state_lane V.lane result i ≡ with_constant (state_lane V.lane s i) }
{
    add_round_key(s, splat_state(SBOX_CONSTANT))
}

/// Round key `r` of `rounds` rounds, whose bytes are those of a state in the tower's basis.
#[inline(always)]
pub fn key_of_tower<V: Lane8>(key: State<V>, r: usize, rounds: usize) -> State<V>
    ensures { (i : ℕ) → i < V.LANES → key_in V.lane rounds r result i ≡ tower_block V.lane key i }
{
    if r == 0 {
        key
    } else if r == rounds {
        let plain = from_tower(key);
        with_constant(plain)
    } else {
        add_round_key(key, splat_state(SBOX_CONSTANT_IN_TOWER))
    }
}

/// Round key `r` of `rounds` rounds in each lane, whose schedules are the lane words.
#[inline(always)]
pub fn key_at<V: Lane8>(words: &[V], r: usize, rounds: usize) -> State<V>
    requires { 16 * r + 16 ≤ length words.now }
    ensures { (i : ℕ) → i < V.LANES → key_in V.lane rounds r result i ≡ round_key (lane_of V.lane words.now i) r }
{
    key_of_tower(to_tower(state_at(words, r)), r, rounds)
}

#[inline(always)]
#[tactic(auto, unfolding(mbj_aes::specs::Tower::from_tower))]
fn word_from_tower<V: Lane8>(word: Word<V>) -> Word<V>
    ensures { (i : ℕ) → i < V.LANES → word_lane V.lane result i ≡ tower_word V.lane word i }
{
    Word(
        by_halves(&FROM_TOWER_LOW, &FROM_TOWER_HIGH, word.0),
        by_halves(&FROM_TOWER_LOW, &FROM_TOWER_HIGH, word.1),
        by_halves(&FROM_TOWER_LOW, &FROM_TOWER_HIGH, word.2),
        by_halves(&FROM_TOWER_LOW, &FROM_TOWER_HIGH, word.3),
    )
}

// The state that stands in the tower's basis.
#[inline(always)]
#[tactic(auto, unfolding(crate::specs::Inside::Wide::state_lane))]
fn from_tower<V: Lane8>(s: State<V>) -> State<V>
    ensures { (i : ℕ) → i < V.LANES → state_lane V.lane result i ≡ tower_block V.lane s i }
{
    State(
        word_from_tower(s.0),
        word_from_tower(s.1),
        word_from_tower(s.2),
        word_from_tower(s.3),
    )
}

/// Round key `r` of `rounds` rounds in plain bytes, as it stands in the schedule.
#[inline(always)]
pub fn plain_key<V: Lane8>(key: State<V>, r: usize, rounds: usize) -> State<V>
    ensures { (i : ℕ) → i < V.LANES → state_lane V.lane result i ≡ key_in V.lane rounds r key i }
{
    if r == 0 {
        from_tower(key)
    } else if r == rounds {
        with_constant(key)
    } else {
        with_constant(from_tower(key))
    }
}
