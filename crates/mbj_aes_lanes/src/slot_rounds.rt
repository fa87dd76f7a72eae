//! Rounds of entries in many lanes at once, each under its own key. A lane without an entry takes zeros, and nothing is taken from it.
ghost use Rattle.std.specs.Prelude.{◌≡◌, ℕ, ◌<◌, ◌≤◌, [], length, slice_index_or};
ghost use Rattle.std.specs.Option.{option_map};
ghost use Rattle.mbj_types.specs.Aes.{encipher};
ghost use Rattle.mbj_types.specs.Blocks.{zero_block};
ghost use Rattle.mbj_types.specs.declared.kind.TheConstants.{AES_LANES};
ghost use Rattle.mbj_lane.specs.Rounds.{after};
ghost use Rattle.mbj_aes_lanes.specs.ChainedEntry.{chained_once};
ghost use Rattle.mbj_aes_lanes.specs.Inside.Busy.{AreGiven, AreIdleFrom};
ghost use Rattle.mbj_aes_lanes.specs.Inside.Slots.{of_slot, HaveRounds, AreKeyed};

use crate::blocks_cipher::BlocksCipher;
use crate::chained_entry::ChainedEntry;
use crate::lane_blocks::{Blocks, LaneBlocks};
use crate::slot::{Slot, block_in, chain_in, is_cmac_l_needed};
use mbj_types::{AES_LANES, BLOCK_BYTES};
use std::marker::PhantomData;

// The next block of each entry.
#[derive(Drop)]
struct NextBlocks<'a, E: ChainedEntry, S: Slot<E>> {
    slots: &'a [S],
    of: PhantomData<E>,
    ghost least: { S.least ≤ length slots.now },
    ghost most: { length slots.now ≤ AES_LANES },
    ghost rests: { HaveRounds E.rest_of 1 (S.in_lane slots.now) },
}

impl<E: ChainedEntry, S: Slot<E>> LaneBlocks for NextBlocks<'_, E, S> {
    ghost lanes_of = { λ b. AES_LANES };

    ghost block_in = { λ b i. of_slot E.block_of (S.in_lane b.slots.now i) };

    #[inline(always)]
    fn block(&self, lane: usize) -> [u8; 16] {
        block_in::<E, S>(self.slots, lane)
    }
}

// The chaining value of each entry.
#[derive(Drop)]
struct Chains<'a, E: ChainedEntry, S: Slot<E>> {
    slots: &'a [S],
    of: PhantomData<E>,
    ghost least: { S.least ≤ length slots.now },
    ghost most: { length slots.now ≤ AES_LANES },
}

impl<E: ChainedEntry, S: Slot<E>> LaneBlocks for Chains<'_, E, S> {
    ghost lanes_of = { λ b. AES_LANES };

    ghost block_in = { λ b i. of_slot E.chain_of (S.in_lane b.slots.now i) };

    #[inline(always)]
    fn block(&self, lane: usize) -> [u8; 16] {
        chain_in::<E, S>(self.slots, lane)
    }
}

// Each entry in the first lanes advances by the chaining value of its lane.
#[inline(always)]
fn advance_each<E: ChainedEntry, S: Slot<E>, const L: usize>(
    slots: &mut [S],
    lanes: usize,
    chains: &[[u8; 16]; L],
)
    requires few { lanes ≤ L }
    requires lanes { L ≤ AES_LANES }
    requires least { S.least ≤ length slots.old }
    requires most { length slots.old ≤ AES_LANES }
    requires rests { HaveRounds E.rest_of 1 (S.in_lane slots.old) }
    ensures { AreGiven (λ i. option_map (λ e. E.advanced e (slice_index_or chains.now i []))) lanes (S.in_lane slots.old) (S.in_lane slots.new) }
{
    'lanes: for i in 0..lanes {
        S::advance(slots, i, &chains[i]);
    }
}

// Each entry in the first lanes keeps the chaining value of its lane.
#[inline(always)]
fn keep_each<E: ChainedEntry, S: Slot<E>, const L: usize>(
    slots: &mut [S],
    lanes: usize,
    chains: &[[u8; 16]; L],
)
    requires few { lanes ≤ L }
    requires lanes { L ≤ AES_LANES }
    requires least { S.least ≤ length slots.old }
    requires most { length slots.old ≤ AES_LANES }
    ensures { AreGiven (λ i. option_map (λ e. E.kept e (slice_index_or chains.now i []))) lanes (S.in_lane slots.old) (S.in_lane slots.new) }
{
    'lanes: for i in 0..lanes {
        S::keep(slots, i, &chains[i]);
    }
}

// L of CMAC under the key of each lane: the zero block enciphered (SP 800-38B, 6.1).
#[inline(never)]
fn cmac_l_of<C: BlocksCipher<L>, const L: usize>(cipher: &C) -> [[u8; 16]; L]
    requires { L ≤ AES_LANES }
    ensures { (i : ℕ) → i < C.lanes_of cipher.now → i < L → slice_index_or result i [] ≡ encipher (C.schedule_of cipher.now i) zero_block }
{
    let zeros = [[0; BLOCK_BYTES]; AES_LANES];
    let blocks = Blocks { blocks: &zeros };
    let mut chains = cipher.load(&blocks);
    cipher.chain(&blocks, &mut chains);
    cipher.store(&chains)
}

// Gives each entry L of CMAC, if one needs it before it goes on by `m` blocks.
#[inline(always)]
fn give_cmac_l<C: BlocksCipher<L>, E: ChainedEntry, S: Slot<E>, const L: usize>(
    slots: &mut [S],
    m: u32,
    cipher: &C,
)
    requires lanes { L ≤ AES_LANES }
    requires least { S.least ≤ length slots.old }
    requires most { length slots.old ≤ AES_LANES }
    requires keys { AreKeyed E.key_of (S.in_lane slots.old) (C.lanes_of cipher.now) (C.schedule_of cipher.now) }
    ensures { slots.new ≡ slots.old }
{
    let lanes = cipher.lane_count();
    if !is_cmac_l_needed::<E, S>(slots, lanes, m) {
        return;
    }
    let values = cmac_l_of(cipher);
    'lanes: for i in 0..lanes {
        S::set_cmac_l(slots, i, &values[i]);
    }
}

/// Advances each entry by `m` blocks, under the schedule in its lane. In each pass the next block of every entry is chained, all at once; the
/// chaining values stand beside the entries, which keep theirs at the end.
#[inline(never)]
pub fn advance_by<C: BlocksCipher<L>, E: ChainedEntry, S: Slot<E>, const L: usize>(
    slots: &mut [S],
    m: u32,
    cipher: &C,
)
    requires lanes { L ≤ AES_LANES }
    requires least { S.least ≤ length slots.old }
    requires most { length slots.old ≤ AES_LANES }
    requires rests { HaveRounds E.rest_of m (S.in_lane slots.old) }
    requires idle { AreIdleFrom (C.lanes_of cipher.now) (S.in_lane slots.old) }
    requires keys { AreKeyed E.key_of (S.in_lane slots.old) (C.lanes_of cipher.now) (C.schedule_of cipher.now) }
    ensures { (i : ℕ) → i < AES_LANES → S.in_lane slots.new i
        ≡ option_map (after (chained_once E.key_of E.block_of E.chain_of E.advanced E.kept) m) (S.in_lane slots.old i) }
{
    give_cmac_l::<C, E, S, L>(slots, m, cipher);
    let lanes = cipher.lane_count();
    let mut chains = cipher.load(&Chains::<E, S> {
        slots,
        of: PhantomData,
    });
    'passes: for done in 0..m {
        let blocks = NextBlocks::<E, S> {
            slots,
            of: PhantomData,
        };
        cipher.chain(&blocks, &mut chains);
        advance_each::<E, S, L>(slots, lanes, &cipher.store(&chains));
    }
    keep_each::<E, S, L>(slots, lanes, &cipher.store(&chains));
}
