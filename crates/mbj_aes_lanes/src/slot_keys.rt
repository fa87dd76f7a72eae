//! The round keys of entries, made anew in each run.
ghost use Rattle.std.specs.Prelude.{◌≡◌, ℕ, ◌+◌, ◌*◌, ◌<◌, ◌≤◌, [], length, take, slice_index_or};
ghost use Rattle.mbj_types.specs.Aes.{key_schedule};
ghost use Rattle.mbj_types.specs.Lanes.{lane_at};
ghost use Rattle.mbj_types.specs.declared.kind.TheConstants.{AES_LANES};
ghost use Rattle.mbj_aes.specs.Bytes.{IsRoundCount};
ghost use Rattle.mbj_aes_lanes.specs.declared.few_keys.TheConstants.{FEW_LANES};
ghost use Rattle.mbj_aes_lanes.specs.declared.wide.words.TheConstants.{MAX_SCHEDULE_WORDS};
ghost use Rattle.mbj_aes_lanes.specs.KeyBytes.{IsKeyArray, key_of_array};
ghost use Rattle.mbj_aes_lanes.specs.Inside.BusyKeys.{few_schedule};
ghost use Rattle.mbj_aes_lanes.specs.Inside.WideKeys.{schedule_in};
ghost use Rattle.mbj_aes_lanes.specs.Inside.Slots.{IsKeyOf, AreKeyed};

use crate::chained_entry::ChainedEntry;
use crate::few_keys::FEW_LANES;
use crate::key_bytes::schedule_of_bytes;
use crate::narrow::directions::Encryption;
use crate::narrow::laid_keys::laid_keys;
use crate::slot::Slot;
use crate::wide::schedules::expand_keys;
use mbj_aes::{MAX_KEY_BYTES, MAX_ROUND_KEYS};
use mbj_types::{AES_LANES, AesWord, BLOCK_BYTES};

// The bytes of the key of a lane's entry. An idle lane has a key of zeros.
#[inline(always)]
fn key_in<E: ChainedEntry, S: Slot<E>>(slots: &[S], lane: usize) -> [u8; 32]
    requires lane { lane < AES_LANES }
    requires lanes { S.least ≤ length slots.now }
    requires most { length slots.now ≤ AES_LANES }
    requires rounds { IsRoundCount E.key_rounds }
    ensures array { IsKeyArray E.key_rounds result }
    ensures key { IsKeyOf E.key_of (key_schedule (key_of_array E.key_rounds result)) (S.in_lane slots.now lane) }
{
    match S::entry(slots, lane) {
        Some(entry) => *entry.key_bytes(),
        None => [0; MAX_KEY_BYTES],
    }
}

/// The round keys of the entries in the first `many` lanes, of `rounds` rounds each, laid out.
#[inline(always)]
pub fn laid_keys_in<E: ChainedEntry, S: Slot<E>>(
    slots: &[S],
    many: usize,
    rounds: usize,
) -> [[[u8; 16]; MAX_ROUND_KEYS]; FEW_LANES]
    requires few { many ≤ FEW_LANES }
    requires lanes { S.least ≤ length slots.now }
    requires most { length slots.now ≤ AES_LANES }
    requires rounds { rounds ≡ E.key_rounds }
    requires count { IsRoundCount rounds }
    ensures { AreKeyed E.key_of (S.in_lane slots.now) many (few_schedule rounds result) }
{
    let mut keys = [[[0; BLOCK_BYTES]; MAX_ROUND_KEYS]; FEW_LANES];
    'lanes: for i in 0..many {
        let bytes = key_in::<E, S>(slots, i);
        keys[i] = laid_keys::<Encryption>(&schedule_of_bytes(&bytes, rounds));
    }
    keys
}

/// The bytes of the key in each lane.
#[inline(always)]
pub fn keys_in<E: ChainedEntry, S: Slot<E>>(slots: &[S]) -> [[u8; 32]; AES_LANES]
    requires lanes { S.least ≤ length slots.now }
    requires most { length slots.now ≤ AES_LANES }
    requires rounds { IsRoundCount E.key_rounds }
    ensures arrays { (i : ℕ) → i < AES_LANES → IsKeyArray E.key_rounds (slice_index_or result i []) }
    ensures keys { (i : ℕ) → i < AES_LANES
        → IsKeyOf E.key_of (key_schedule (key_of_array E.key_rounds (slice_index_or result i []))) (S.in_lane slots.now i) }
{
    let mut keys = [[0; MAX_KEY_BYTES]; AES_LANES];
    'lanes: for i in 0..AES_LANES {
        keys[i] = key_in::<E, S>(slots, i);
    }
    keys
}

/// The round keys of these keys, of `rounds` rounds each, laid out for the rounds in the first of the lane words.
#[inline(never)]
pub fn expand_first(words: &mut [AesWord], rounds: usize, bytes: &[[u8; 32]; AES_LANES])
    requires rounds { IsRoundCount rounds }
    requires words { length words.old ≡ MAX_SCHEDULE_WORDS }
    requires arrays { (i : ℕ) → i < AES_LANES → IsKeyArray rounds (slice_index_or bytes.now i []) }
    ensures { (i : ℕ) → i < AES_LANES → schedule_in (lane_at 8) (take (16 * (rounds + 1)) words.new) i
        ≡ key_schedule (key_of_array rounds (slice_index_or bytes.now i [])) }
{
    expand_keys(words, bytes, rounds);
}
