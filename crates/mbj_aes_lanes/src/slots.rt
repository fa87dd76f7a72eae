//! The kernel of blocks that are chained, and its slots, one for each lane. A run makes the round keys of its lanes anew, and nothing is kept
//! for the next one.
ghost use Rattle.std.specs.Prelude.{◌≡◌, ℕ, ◌^◌, ◌<◌, ◌≤◌, Some, None, IfOk, MatchOption, ◌⊎◌, ◌≢◌, [], length, slice_index, slice_index_or};
ghost use Rattle.std.specs.Option.{option_map};
ghost use Rattle.mbj_types.specs.declared.kind.TheConstants.{AES_LANES};
ghost use Rattle.mbj_aes_lanes.specs.declared.wide.words.TheConstants.{MAX_SCHEDULE_WORDS};
ghost use Rattle.mbj_lane.specs.Rounds.{after};
ghost use Rattle.mbj_aes_lanes.specs.ChainedEntry.{chained_once};
ghost use Rattle.mbj_aes_lanes.specs.Inside.Slots.{HaveRounds};
ghost use Rattle.mbj_aes_lanes.specs.Slots.{slot_at};

use crate::advancing::{advance_all, advance_slots};
use crate::chained_entry::ChainedEntry;
use crate::wide::words::MAX_SCHEDULE_WORDS;
use mbj_lane::{Kernel, SlotKernel};
use mbj_types::{AES_LANES, AesWord, Lane8};
use std::alloc::{AllocError, Global};
use std::marker::{Model, PhantomData};
use std::mem;

/// Slots of entries, which contracts see as the list of what stands in each.
#[derive(Drop)]
pub struct ChainedSlots<E: ChainedEntry> {
    // What a run over many lanes takes: the round keys of all lanes. They have memory of their own, which may be aligned to vectors.
    round_keys: Vec<AesWord>,
    entries: Vec<Option<E>>,
}

impl<E: ChainedEntry> Model for ChainedSlots<E> {
    ghost use Rattle.std.specs.Prelude.{◌≡◌, List, Option, length};
    ghost use Rattle.mbj_types.specs.declared.kind.TheConstants.{AES_LANES};
    ghost use Rattle.mbj_aes_lanes.specs.declared.wide.words.TheConstants.{MAX_SCHEDULE_WORDS};

    ghost Value = { List (Option E) };

    ghost view = { λ s. s.entries.items };

    ghost invariant = { λ s. (length s.round_keys.items ≡ MAX_SCHEDULE_WORDS) × (length s.entries.items ≡ AES_LANES) };
}

// This many copies of a value.
fn copies<T: Copy>(alloc: Global, many: usize, value: T) -> Result<Vec<T>, AllocError>
    ensures { IfOk result (λ v. length v.items ≡ many) }
{
    let mut copies = Vec::with_capacity(alloc, many)?;
    'copies: for _i in 0..many {
        copies.push_reserved(value);
    }
    Ok(copies)
}

// The lesser of a number and the rest of an entry, if there is one.
fn lesser<E: ChainedEntry>(slot: &Option<E>, least: u32) -> u32
    ensures most { result ≤ least }
    ensures below { (e : E) → slot.now ≡ Some e → result ≤ E.rest_of e }
    ensures fits { (e : E) → slot.now ≡ Some e → E.rest_of e < 2 ^ 32 }
    ensures met { (result ≡ least) ⊎ ((e : E) × (slot.now ≡ Some e) × (result ≡ E.rest_of e)) }
{
    match slot {
        Some(entry) => least.min(entry.rest()),
        None => least,
    }
}

/// Chained blocks in `AES_LANES` lanes.
pub struct Chained<E: ChainedEntry> {
    of: PhantomData<E>,
}

impl<E: ChainedEntry> Kernel for Chained<E> {
    type Entry = E;

    const LANES: u32 = AES_LANES as u32;

    ghost LANES = { AES_LANES };

    ghost rest_of = { E.rest_of };

    ghost round = { chained_once E.key_of E.block_of E.chain_of E.advanced E.kept };

    fn rest(entry: &E) -> u32 {
        entry.rest()
    }

    fn run(entries: &mut [E], m: u32) {
        advance_all(entries, m);
    }

    ghost use Rattle.std.proofs.Common.{◌∙◌, rules};
    ghost use Rattle.mbj_aes_lanes.specs.ChainedEntry.{next_chain};

    ghost some = { Prim.search rules };

    ghost few = { Prim.search rules };

    ghost falls = { λ e. E.keeps_rest (E.advanced e (next_chain E.key_of E.block_of E.chain_of e)) (next_chain E.key_of E.block_of E.chain_of e)
        ∙ E.falls e (next_chain E.key_of E.block_of E.chain_of e) };
}

impl<E: ChainedEntry> SlotKernel for Chained<E> {
    type Slots = ChainedSlots<E>;

    ghost slot = { slot_at };

    fn new_slots(alloc: Global) -> Result<ChainedSlots<E>, AllocError> {
        let round_keys = copies(alloc, MAX_SCHEDULE_WORDS, <AesWord as Lane8>::splat(0))?;
        let mut entries = Vec::with_capacity(alloc, AES_LANES)?;
        'lanes: for _i in 0..AES_LANES {
            entries.push_reserved(None);
        }
        Ok(ChainedSlots {
            round_keys,
            entries,
        })
    }

    fn put(slots: &mut ChainedSlots<E>, i: usize, entry: E) {
        slots.entries[i] = Some(entry);
    }

    fn rest_at(slots: &ChainedSlots<E>, i: usize) -> u32 {
        match &slots.entries[i] {
            Some(entry) => entry.rest(),
            None => unreachable!(),
        }
    }

    fn least(slots: &ChainedSlots<E>) -> u32 {
        let mut least = u32::MAX;
        'lanes: for i in 0..AES_LANES {
            least = lesser(&slots.entries[i], least);
        }
        least
    }

    fn run_all(slots: &mut ChainedSlots<E>, m: u32) {
        advance_slots(
            slots.entries.as_mut_slice(),
            m,
            slots.round_keys.as_mut_slice(),
        );
    }

    fn take(slots: &mut ChainedSlots<E>, i: usize) -> E {
        match mem::replace(&mut slots.entries[i], None) {
            Some(entry) => entry,
            None => unreachable!(),
        }
    }
}
