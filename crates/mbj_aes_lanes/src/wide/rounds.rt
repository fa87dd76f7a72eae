//! The rounds of CIPHER (FIPS 197, 5.1) in all lanes. Between the first and the last one the state is in the tower's basis.
ghost use Rattle.std.specs.Prelude.{◌≡◌, ℕ, ◌<◌, bit_xor};
ghost use Rattle.mbj_types.specs.Blocks.{xor_lists};
ghost use Rattle.mbj_types.specs.Aes.{mixed_column, shift_rows, sub_bytes, full_round, encipher};
ghost use Rattle.mbj_aes_lanes.specs.Inside.Wide.{word_lane, state_lane, tower_word, tower_block};
ghost use Rattle.mbj_aes_lanes.specs.Inside.WideKeys.{with_constant};

use crate::wide::key_states::to_tower;
use crate::wide::lane_schedules::LaneSchedules;
use crate::wide::state::{State, Word, add_round_key, xor_words};
use mbj_aes::substitution::{WithDouble, substituted_from_tower, substituted_in_tower};
use mbj_types::Lane8;

// A byte of a column that is mixed, and its key added: of all bytes of the column the sum, and of this one and the next one below it what
// the S-box makes of them.
#[inline(always)]
fn mixed_byte<V: Lane8>(all: V, here: WithDouble<V>, next: WithDouble<V>, key: V) -> V
    ensures { (i : ℕ) → i < V.LANES → V.lane result i
        ≡ bit_xor (bit_xor (bit_xor (V.lane all i) (V.lane here.once i)) (bit_xor (V.lane here.twice i) (V.lane next.twice i))) (V.lane key i) }
{
    all.xored(here.once)
        .xored(here.twice.xored(next.twice))
        .xored(key)
}

// SUBBYTES, MIXCOLUMNS and ADDROUNDKEY of a column whose rows are shifted.
#[inline(always)]
fn full_column<V: Lane8>(column: Word<V>, key: Word<V>) -> Word<V>
    ensures { (i : ℕ) → i < V.LANES → tower_word V.lane result i
        ≡ xor_lists (mixed_column (sub_bytes (tower_word V.lane column i)) 0) (with_constant (tower_word V.lane key i)) }
{
    let s0 = substituted_in_tower(column.0);
    let s1 = substituted_in_tower(column.1);
    let s2 = substituted_in_tower(column.2);
    let s3 = substituted_in_tower(column.3);
    let all = s0.once.xored(s1.once).xored(s2.once.xored(s3.once));
    Word(
        mixed_byte(all, s0, s1, key.0),
        mixed_byte(all, s1, s2, key.1),
        mixed_byte(all, s2, s3, key.2),
        mixed_byte(all, s3, s0, key.3),
    )
}

// SHIFTROWS: which byte is read.
#[inline(always)]
#[tactic(auto, unfolding(crate::specs::Inside::Wide::state_lane))]
fn shifted_rows<V: Lane8>(s: &State<V>) -> State<V>
    ensures { (i : ℕ) → state_lane V.lane result i ≡ shift_rows (state_lane V.lane s.now i) }
{
    State(
        Word(s.0.0, s.1.1, s.2.2, s.3.3),
        Word(s.1.0, s.2.1, s.3.2, s.0.3),
        Word(s.2.0, s.3.1, s.0.2, s.1.3),
        Word(s.3.0, s.0.1, s.1.2, s.2.3),
    )
}

// A round but the last one.
#[inline(always)]
fn full_round<V: Lane8>(s: &State<V>, key: &State<V>) -> State<V>
    ensures { (i : ℕ) → i < V.LANES → tower_block V.lane result i
        ≡ full_round (tower_block V.lane s.now i) (with_constant (tower_block V.lane key.now i)) }
{
    let shifted = shifted_rows(s);
    State(
        full_column(shifted.0, key.0),
        full_column(shifted.1, key.1),
        full_column(shifted.2, key.2),
        full_column(shifted.3, key.3),
    )
}

// SUBBYTES and ADDROUNDKEY of a column in the last round, which makes plain bytes.
#[inline(always)]
fn last_column<V: Lane8>(column: Word<V>, key: Word<V>) -> Word<V>
    ensures { (i : ℕ) → i < V.LANES → word_lane V.lane result i
        ≡ xor_lists (sub_bytes (tower_word V.lane column i)) (with_constant (word_lane V.lane key i)) }
{
    let substituted = Word(
        substituted_from_tower(column.0),
        substituted_from_tower(column.1),
        substituted_from_tower(column.2),
        substituted_from_tower(column.3),
    );
    xor_words(substituted, key)
}

// The last round.
#[inline(always)]
fn last_round<V: Lane8>(s: &State<V>, key: &State<V>) -> State<V>
    ensures { (i : ℕ) → i < V.LANES → state_lane V.lane result i
        ≡ xor_lists (shift_rows (sub_bytes (tower_block V.lane s.now i))) (with_constant (state_lane V.lane key.now i)) }
{
    let shifted = shifted_rows(s);
    State(
        last_column(shifted.0, key.0),
        last_column(shifted.1, key.1),
        last_column(shifted.2, key.2),
        last_column(shifted.3, key.3),
    )
}

/// Encrypts the block in each lane under the schedule in that lane.
pub fn encrypt<V: Lane8, K: LaneSchedules<V>>(keys: &K, s: &mut State<V>)
    ensures { (i : ℕ) → i < V.LANES → state_lane V.lane s.new i ≡ encipher (K.schedule_of keys.now i) (state_lane V.lane s.old i) }
{
    let rounds = keys.rounds();
    let mut state = add_round_key(to_tower(*s), keys.round_key(0));
    'rounds: for r in 1..rounds {
        state = full_round(&state, &keys.round_key(r));
    }
    *s = last_round(&state, &keys.round_key(rounds));
}
