//! AES on lane words, with the schedules as lane words too: a block and a schedule in each lane. No product calls it: tests
//! compare it, at lane words of every width, with the other calls and with the standard's examples.
ghost use Rattle.std.specs.Prelude.{◌≡◌, ℕ, ◌/◌, ◌%◌, ◌<◌, ◌≤◌, length};
ghost use Rattle.mbj_types.specs.Aes.{encipher, decipher};
ghost use Rattle.mbj_types.specs.Lanes.{lane_of};
ghost use Rattle.mbj_aes_lanes.specs.Lanes.{IsScheduleSize};

use crate::wide::decryption::decrypt;
use crate::wide::key_states::key_at;
use crate::wide::lane_schedules::LaneSchedules;
use crate::wide::rounds::encrypt;
use crate::wide::state::State;
use crate::wide::words::{put_state, state_at};
use mbj_types::{BLOCK_BYTES, Lane8};

// The bytes of the schedules, 16 lane words for each round key.
#[derive(Drop)]
struct ScheduleWords<'a, V> {
    words: &'a [V],
    ghost whole: { length words.now % 16 ≡ 0 },
    ghost least: { 48 ≤ length words.now },
}

impl<V: Lane8> LaneSchedules<V> for ScheduleWords<'_, V> {
    ghost count_of = { λ s. length s.words.now / 16 };

    ghost schedule_of = { λ s i. lane_of V.lane s.words.now i };

    #[inline(always)]
    fn rounds(&self) -> usize {
        self.words.len() / BLOCK_BYTES - 1
    }

    #[inline(always)]
    fn round_key(&self, r: usize) -> State<V> {
        key_at(self.words, r, self.words.len() / BLOCK_BYTES - 1)
    }
}

/// Encrypts the block in each lane under the schedule in that lane: CIPHER (FIPS 197, 5.1). `state` has 16 lane words,
/// of which word j is byte j of every block, and `keys` has the bytes of the schedules likewise, 16 lane words for each
/// of 10, 12 or 14 rounds and 16 more. It takes no memory.
pub fn encrypt_lanes<V: Lane8>(keys: &[V], state: &mut [V])
    requires keys { IsScheduleSize (length keys.now) }
    requires state { length state.old ≡ 16 }
    ensures { (i : ℕ) → i < V.LANES
        → lane_of V.lane state.new i ≡ encipher (lane_of V.lane keys.now i) (lane_of V.lane state.old i) }
{
    let mut s = state_at(state, 0);
    encrypt(&ScheduleWords { words: keys }, &mut s);
    put_state(state, &s);
}

/// Decrypts the block in each lane by the schedule in that lane: INVCIPHER (FIPS 197, 5.3). The lane words are as for
/// `encrypt_lanes`. It takes no memory.
pub fn decrypt_lanes<V: Lane8>(keys: &[V], state: &mut [V])
    requires keys { IsScheduleSize (length keys.now) }
    requires state { length state.old ≡ 16 }
    ensures { (i : ℕ) → i < V.LANES
        → lane_of V.lane state.new i ≡ decipher (lane_of V.lane keys.now i) (lane_of V.lane state.old i) }
{
    let mut s = state_at(state, 0);
    decrypt(&ScheduleWords { words: keys }, &mut s);
    put_state(state, &s);
}
