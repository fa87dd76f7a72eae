ghost use Rattle.std.specs.Prelude.{◌≡◌, ℕ, ◌+◌, ◌*◌, ◌%◌, ◌<◌, ◌≤◌, [], length, slice_index_or, None, IsSome};
ghost use Rattle.mbj_types.specs.Lanes.{lane_at};
ghost use Rattle.mbj_types.specs.declared.kind.TheConstants.{AES_LANES};
ghost use Rattle.mbj_aes.specs.Bytes.{IsRoundCount};
ghost use Rattle.mbj_aes_lanes.specs.KeyBytes.{IsKeyArray};
ghost use Rattle.mbj_aes_lanes.specs.KeyLanes.{no_keys, same_keys, with_key, schedule_at};
ghost use Rattle.mbj_aes_lanes.specs.Inside.WideKeys.{schedule_in, AreExpanded};

use crate::key_bytes::bytes_of_schedule;
use crate::wide::schedules::expand_keys;
use crate::wide::words::MAX_SCHEDULE_WORDS;
use mbj_aes::{MAX_KEY_BYTES, Schedule};
use mbj_types::{AES_LANES, AesWord, BLOCK_BYTES, Lane8};
use std::marker::Model;

// A value in a struct of its own: a struct literal with a field that is an array of vectors isn't covered by the borrow checker, and one
// with a field of any type is.
#[derive(Drop)]
struct Held<T: Drop> {
    value: T,
}

#[inline(always)]
fn keep<T: Drop>(value: T) -> Held<T>
    ensures { result.value ≡ value }
{
    Held { value }
}

// The round keys of the keys of the lanes, of `rounds` rounds each.
fn round_keys_of(keys: &[[u8; 32]; AES_LANES], rounds: u32) -> [AesWord; MAX_SCHEDULE_WORDS]
    requires rounds { IsRoundCount rounds }
    requires arrays { (i : ℕ) → i < AES_LANES → IsKeyArray rounds (slice_index_or keys.now i []) }
    ensures { AreExpanded rounds keys.now result }
{
    let mut round_keys = [<AesWord as Lane8>::splat(0); MAX_SCHEDULE_WORDS];
    expand_keys(&mut round_keys, keys, rounds as usize);
    round_keys
}

/// The schedules of keys side by side, one for each lane, of 10, 12 or 14 rounds each, which contracts see as the number of rounds and, for
/// each lane, the schedule that was put there, or none. It keeps the keys, and the round keys as encryption takes them, a vector for each
/// of their bytes. It is a plain value of 8,740 bytes, and owns no memory. Only tests and the bench use it.
#[derive(Drop)]
pub struct LaneKeys {
    keys: [[u8; 32]; AES_LANES],
    round_keys: Held<[AesWord; MAX_SCHEDULE_WORDS]>,
    rounds: u32,
    put: [bool; AES_LANES],
}

// The size that stands in the documentation.
const _: () = prove!(size_of::<LaneKeys>() == 8740);

impl Model for LaneKeys {
    ghost use Rattle.mbj_aes.specs.Bytes.{IsRoundCount};
    ghost use Rattle.mbj_aes_lanes.specs.KeyLanes.{KeyLanes};
    ghost use Rattle.mbj_aes_lanes.specs.Inside.WideKeys.{held_lanes, AreExpanded};

    ghost Value = { KeyLanes };

    ghost view = { λ k. record { rounds = k.rounds; lanes = held_lanes k.rounds k.keys k.put } };

    ghost invariant = { λ k. IsRoundCount k.rounds × AreExpanded k.rounds k.keys k.round_keys.value };
}

impl LaneKeys {
    /// Lanes for keys of 10, 12 or 14 rounds, none of which is put. It takes no memory.
    pub fn new(rounds: u32) -> LaneKeys
        requires { IsRoundCount rounds }
        ensures { result ≡ no_keys rounds }
    {
        let keys = [[0; MAX_KEY_BYTES]; AES_LANES];
        LaneKeys {
            keys,
            round_keys: keep(round_keys_of(&keys, rounds)),
            rounds,
            put: [false; AES_LANES],
        }
    }

    /// The same schedule in every lane, at the cost of one `put`. It takes no memory.
    pub fn all(key: &Schedule) -> LaneKeys
        ensures { result ≡ same_keys key.now }
    {
        let rounds = key.rounds();
        let keys = [bytes_of_schedule(key); AES_LANES];
        LaneKeys {
            keys,
            round_keys: keep(round_keys_of(&keys, rounds)),
            rounds,
            put: [true; AES_LANES],
        }
    }

    /// Puts a schedule in every lane, in place of those that were there, at the cost of one `put`. It has
    /// as many rounds as they have. It takes no memory.
    #[inline(never)]
    pub fn put_all(&mut self, key: &Schedule)
        requires { length key.now ≡ 16 * (self.old.rounds + 1) }
        ensures { self.new ≡ same_keys key.now }
    {
        *self = LaneKeys::all(key);
    }

    /// Puts a schedule in a lane below `AES_LANES`, in place of the one that was there. It has as many rounds as the others. The keys
    /// of all lanes are expanded anew. It takes no memory.
    pub fn put(&mut self, lane: u32, key: &Schedule)
        requires lane { lane < AES_LANES }
        requires rounds { length key.now ≡ 16 * (self.old.rounds + 1) }
        ensures { self.new ≡ with_key self.old lane key.now }
    {
        self.keys[lane as usize] = bytes_of_schedule(key);
        self.put[lane as usize] = true;
        self.round_keys.value = round_keys_of(&self.keys, self.rounds);
    }

    /// The round keys, of each lane those of its schedule.
    #[inline(always)]
    pub(crate) fn round_keys(&self) -> &[AesWord]
        ensures whole { length result.now % 16 ≡ 0 }
        ensures least { 48 ≤ length result.now }
        ensures schedules { (i : ℕ) → i < AES_LANES → IsSome (slice_index_or self.now.lanes i None)
            → schedule_in (lane_at 8) result.now i ≡ schedule_at self.now i }
    {
        &self.round_keys.value[..BLOCK_BYTES * (self.rounds as usize + 1)]
    }
}
