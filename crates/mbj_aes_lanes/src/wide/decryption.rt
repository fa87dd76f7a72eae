//! INVCIPHER (FIPS 197, 5.3) in all lanes, in plain bytes. No product calls it: tests compare it with encryption and with the standard's
//! examples.
ghost use Rattle.std.specs.Prelude.{◌≡◌, ℕ, ◌<◌};
ghost use Rattle.mbj_types.specs.Blocks.{xor_lists};
ghost use Rattle.mbj_types.specs.Aes.{round_key, inv_shift_rows, inv_sub_bytes, undone_round, decipher};
ghost use Rattle.mbj_aes_lanes.specs.Inside.Wide.{word_lane, state_lane};

use crate::wide::key_states::plain_key;
use crate::wide::lane_schedules::LaneSchedules;
use crate::wide::state::{State, Word, add_round_key};
use crate::wide::unmixing::unmixed_columns;
use mbj_aes::inverse_substitution::inverse_substituted;
use mbj_types::Lane8;

// INVSHIFTROWS: which byte is read.
#[inline(always)]
#[tactic(auto, unfolding(crate::specs::Inside::Wide::state_lane))]
fn unshifted_rows<V: Lane8>(s: &State<V>) -> State<V>
    ensures { (i : ℕ) → state_lane V.lane result i ≡ inv_shift_rows (state_lane V.lane s.now i) }
{
    State(
        Word(s.0.0, s.3.1, s.2.2, s.1.3),
        Word(s.1.0, s.0.1, s.3.2, s.2.3),
        Word(s.2.0, s.1.1, s.0.2, s.3.3),
        Word(s.3.0, s.2.1, s.1.2, s.0.3),
    )
}

#[inline(always)]
fn inverse_word<V: Lane8>(word: Word<V>) -> Word<V>
    ensures { (i : ℕ) → i < V.LANES → word_lane V.lane result i ≡ inv_sub_bytes (word_lane V.lane word i) }
{
    Word(
        inverse_substituted(word.0),
        inverse_substituted(word.1),
        inverse_substituted(word.2),
        inverse_substituted(word.3),
    )
}

// INVSUBBYTES.
#[inline(always)]
#[tactic(auto, unfolding(crate::specs::Inside::Wide::state_lane))]
fn inverse_bytes<V: Lane8>(s: State<V>) -> State<V>
    ensures { (i : ℕ) → i < V.LANES → state_lane V.lane result i ≡ inv_sub_bytes (state_lane V.lane s i) }
{
    State(
        inverse_word(s.0),
        inverse_word(s.1),
        inverse_word(s.2),
        inverse_word(s.3),
    )
}

// ADDROUNDKEY, of round `r`.
#[inline(always)]
fn add_key<V: Lane8, K: LaneSchedules<V>>(s: State<V>, keys: &K, r: usize) -> State<V>
    requires { r < K.count_of keys.now }
    ensures { (i : ℕ) → i < V.LANES → state_lane V.lane result i
        ≡ xor_lists (state_lane V.lane s i) (round_key (K.schedule_of keys.now i) r) }
{
    add_round_key(s, plain_key(keys.round_key(r), r, keys.rounds()))
}

// Round `r` undone, which isn't the last one.
#[inline(always)]
fn undone_round<V: Lane8, K: LaneSchedules<V>>(s: State<V>, keys: &K, r: usize) -> State<V>
    requires { r < K.count_of keys.now }
    ensures { (i : ℕ) → i < V.LANES → state_lane V.lane result i
        ≡ undone_round (state_lane V.lane s i) (round_key (K.schedule_of keys.now i) r) }
{
    inverse_bytes(unshifted_rows(&unmixed_columns(add_key(s, keys, r))))
}

/// Decrypts the block in each lane by the schedule in that lane.
pub fn decrypt<V: Lane8, K: LaneSchedules<V>>(keys: &K, s: &mut State<V>)
    ensures { (i : ℕ) → i < V.LANES → state_lane V.lane s.new i ≡ decipher (K.schedule_of keys.now i) (state_lane V.lane s.old i) }
{
    let rounds = keys.rounds();
    let mut state = inverse_bytes(unshifted_rows(&add_key(*s, keys, rounds)));
    'rounds: for r in (1..rounds).rev() {
        state = undone_round(state, keys, r);
    }
    *s = add_key(state, keys, 0);
}
