//! What stands in the lanes: slots, of which each has an entry or is idle, or the entries of a list, which stand in the first lanes.
ghost use Rattle.std.specs.Prelude.{◌≡◌, ℕ, ◌<◌, ◌≤◌, List, Option, Some, None, MatchOption, length, slice_get};
ghost use Rattle.std.specs.Option.{option_map};
ghost use Rattle.mbj_types.specs.declared.kind.TheConstants.{AES_LANES};
ghost use Rattle.mbj_aes.specs.Bytes.{IsRoundCount};
ghost use Rattle.mbj_lane.specs.Slots.{IsWritten};
ghost use Rattle.mbj_aes_lanes.specs.Slots.{slot_at};
ghost use Rattle.mbj_aes_lanes.specs.Inside.Slots.{of_slot, HasRounds, IsCmacL};

use crate::chained_entry::ChainedEntry;
use mbj_types::{AES_LANES, BLOCK_BYTES};

/// What may stand in a lane.
pub trait Slot<E: ChainedEntry> {
    /// How many there are at the least, and at the most one for each lane.
    ghost least: { ℕ };

    /// The entry in a lane, if there is one.
    ghost in_lane: { List Self → ℕ → Option E };

    /// The entry in a lane, if there is one.
    fn entry(slots: &[Self], lane: usize) -> Option<&E>
        requires lane { lane < AES_LANES }
        requires lanes { least ≤ length slots.now }
        requires most { length slots.now ≤ AES_LANES }
        ensures { MatchOption result (in_lane slots.now lane ≡ None) (λ e. in_lane slots.now lane ≡ Some e.now) };

    /// The entry in a lane advances by a chaining value.
    fn advance(slots: &mut [Self], lane: usize, chain: &[u8; 16])
        requires lane { lane < AES_LANES }
        requires lanes { least ≤ length slots.old }
        requires most { length slots.old ≤ AES_LANES }
        requires rest { HasRounds E.rest_of 1 (in_lane slots.old lane) }
        ensures { IsWritten AES_LANES lane (option_map (λ e. E.advanced e chain.now) (in_lane slots.old lane)) (in_lane slots.old) (in_lane slots.new) };

    /// The entry in a lane keeps a chaining value.
    fn keep(slots: &mut [Self], lane: usize, chain: &[u8; 16])
        requires lane { lane < AES_LANES }
        requires lanes { least ≤ length slots.old }
        requires most { length slots.old ≤ AES_LANES }
        ensures { IsWritten AES_LANES lane (option_map (λ e. E.kept e chain.now) (in_lane slots.old lane)) (in_lane slots.old) (in_lane slots.new) };

    /// The entry in a lane takes L of CMAC: the zero block enciphered under its key.
    fn set_cmac_l(slots: &mut [Self], lane: usize, zero: &[u8; 16])
        requires lane { lane < AES_LANES }
        requires lanes { least ≤ length slots.old }
        requires most { length slots.old ≤ AES_LANES }
        requires zero { IsCmacL E.key_of zero.now (in_lane slots.old lane) }
        ensures { slots.new ≡ slots.old };
}

impl<E: ChainedEntry> Slot<E> for Option<E> {
    ghost least = { AES_LANES };

    ghost in_lane = { slot_at };

    #[inline(always)]
    fn entry(slots: &[Option<E>], lane: usize) -> Option<&E> {
        slots[lane].as_ref()
    }

    #[inline(always)]
    fn advance(slots: &mut [Option<E>], lane: usize, chain: &[u8; 16]) {
        if let Some(entry) = &mut slots[lane] {
            entry.advance(chain);
        }
    }

    #[inline(always)]
    fn keep(slots: &mut [Option<E>], lane: usize, chain: &[u8; 16]) {
        if let Some(entry) = &mut slots[lane] {
            entry.keep(chain);
        }
    }

    #[inline(always)]
    fn set_cmac_l(slots: &mut [Option<E>], lane: usize, zero: &[u8; 16]) {
        if let Some(entry) = &mut slots[lane] {
            entry.set_cmac_l(zero);
        }
    }
}

impl<E: ChainedEntry> Slot<E> for E {
    ghost least = { 0 };

    ghost in_lane = { slice_get };

    #[inline(always)]
    fn entry(entries: &[E], lane: usize) -> Option<&E> {
        entries.get(lane)
    }

    #[inline(always)]
    fn advance(entries: &mut [E], lane: usize, chain: &[u8; 16]) {
        if lane < entries.len() {
            ChainedEntry::advance(&mut entries[lane], chain);
        }
    }

    #[inline(always)]
    fn keep(entries: &mut [E], lane: usize, chain: &[u8; 16]) {
        if lane < entries.len() {
            ChainedEntry::keep(&mut entries[lane], chain);
        }
    }

    #[inline(always)]
    fn set_cmac_l(entries: &mut [E], lane: usize, zero: &[u8; 16]) {
        if lane < entries.len() {
            ChainedEntry::set_cmac_l(&mut entries[lane], zero);
        }
    }
}

/// The next block of a lane's entry, and zeros in an idle lane.
#[inline(always)]
pub fn block_in<E: ChainedEntry, S: Slot<E>>(slots: &[S], lane: usize) -> [u8; 16]
    requires lane { lane < AES_LANES }
    requires lanes { S.least ≤ length slots.now }
    requires most { length slots.now ≤ AES_LANES }
    requires rest { HasRounds E.rest_of 1 (S.in_lane slots.now lane) }
    ensures { result ≡ of_slot E.block_of (S.in_lane slots.now lane) }
{
    match S::entry(slots, lane) {
        Some(entry) => entry.block(),
        None => [0; BLOCK_BYTES],
    }
}

/// The chaining value of a lane's entry, and zeros in an idle lane.
#[inline(always)]
pub fn chain_in<E: ChainedEntry, S: Slot<E>>(slots: &[S], lane: usize) -> [u8; 16]
    requires lane { lane < AES_LANES }
    requires lanes { S.least ≤ length slots.now }
    requires most { length slots.now ≤ AES_LANES }
    ensures { result ≡ of_slot E.chain_of (S.in_lane slots.now lane) }
{
    match S::entry(slots, lane) {
        Some(entry) => *entry.chain(),
        None => [0; BLOCK_BYTES],
    }
}

/// Whether an entry in the first `lanes` needs L of CMAC, before it goes on by `m` blocks.
#[inline(always)]
pub fn is_cmac_l_needed<E: ChainedEntry, S: Slot<E>>(slots: &[S], lanes: usize, m: u32) -> bool
    requires few { lanes ≤ AES_LANES }
    requires lanes { S.least ≤ length slots.now }
    requires most { length slots.now ≤ AES_LANES }
{
    let mut is_wanted = false;
    'lanes: for i in 0..lanes {
        if let Some(entry) = S::entry(slots, i) {
            is_wanted |= entry.needs_cmac_l(m);
        }
    }
    is_wanted
}

/// The rounds of the keys, of which each has as many, if there is an entry.
pub fn rounds_in<E: ChainedEntry, S: Slot<E>>(slots: &[S]) -> Option<usize>
    requires lanes { S.least ≤ length slots.now }
    requires most { length slots.now ≤ AES_LANES }
    ensures { MatchOption result ((i : ℕ) → i < AES_LANES → S.in_lane slots.now i ≡ None) (λ n. (n ≡ E.key_rounds) × IsRoundCount n) }
{
    'lanes: for i in 0..AES_LANES {
        if let Some(entry) = S::entry(slots, i) {
            return Some(entry.rounds());
        }
    }
    None
}
