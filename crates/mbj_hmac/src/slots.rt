// Slots of digests and HMACs, of which each is a lane.
ghost use Rattle.std.specs.Prelude.{◌≡◌, ◌+◌, ◌*◌, ◌<◌, ◌≤◌, Some, None, IfSome, IsTrue, length};
ghost use Rattle.mbj_types.specs.Auths.{class_of, states_hash_of};
ghost use Rattle.mbj_lane.specs.Slots.{IsBusy, IsWritten};
ghost use Rattle.mbj_hmac.specs.Rounds.{HmacState};
ghost use Rattle.mbj_hmac.specs.Names.{serves_lanes};
ghost use Rattle.mbj_hmac.specs.Begun.{Begins, begun};
ghost use Rattle.mbj_hmac.specs.Slots.{slot_in};

use crate::entry::HmacEntry;
use crate::kernel::HmacKernel;
use crate::lane_hash::LaneHash;
use crate::lanes::HmacLanes;
use crate::rests::{least_lane, word_of};
use mbj_lane::SlotKernel;
use mbj_types::{Auth, Tag};
use std::alloc::{AllocError, Global};
use std::marker::Model;

/// The slots of a hash. Slot i is lane i for good: the hash values of its entry stay in the vectors of all lanes between runs.
#[derive(Drop)]
pub struct HmacSlots<H: LaneHash> {
    lanes: HmacLanes<H>,
    /// The entries, but for their hash values. One without a round left stands in an idle slot.
    entries: Vec<HmacEntry<H>>,
}

impl<H: LaneHash> Model for HmacSlots<H> {
    ghost use Rattle.std.specs.Prelude.{◌≡◌, List, Option, length};
    ghost use Rattle.mbj_hmac.specs.Rounds.{HmacState};
    ghost use Rattle.mbj_hmac.specs.Inside.InLanes.{AreReady, AreTied, slot_at};
    ghost use Rattle.mbj_hmac.specs.Slots.{slots_of};

    ghost Value = { List (Option HmacState) };

    ghost view = { λ s. slots_of H.LANES (slot_at (H.lane s.lanes.states) (H.lane s.lanes.inner) s.lanes.rests.left s.entries.items) };

    ghost invariant = { λ s. AreTied s.lanes.rests.left s.lanes.rests.turns s.entries.items × (length s.entries.items ≡ H.LANES)
        × AreReady H.hashing (H.lane s.lanes.starts) s.lanes.rests.bits s.lanes.rests.left s.entries.items };
}

impl<H: LaneHash> HmacSlots<H> {
    /// A job of which nothing is done takes an idle slot: a digest, an HMAC or an HMAC from states over `len` bytes of the packet from
    /// `off` on. The authentication is one that the kernel serves. The key is that of an HMAC, or the two states of one from states; a
    /// digest looks at none. The packet moves into the slot.
    ///
    /// At its end the entry has the packet as it was given, and the digest of its hash value is the digest or the whole HMAC.
    #[inline(always)]
    pub fn put_job(&mut self, i: usize, auth: Auth, key: &[u8], packet: Vec<u8>, off: u32, len: u32)
        requires lane { i < H.LANES }
        requires serves { IsTrue (serves_lanes H.hashing auth) }
        requires states { IfSome (states_hash_of auth) (λ c. length key.now ≡ 2 * c.state_bytes) }
        requires range { off + len ≤ length packet.items }
        ensures put { IsWritten H.LANES i (Some (begun H.hashing (class_of auth) key.now packet.items off len)) (slot_in self.old) (slot_in self.new) }
        ensures begins { Begins H.hashing (class_of auth) key.now packet.items off len (begun H.hashing (class_of auth) key.now packet.items off len) }
    {
        let entry = &mut self.entries[i];
        entry.refill(auth, key, packet, off, len);
        self.lanes.enter(i, entry);
    }

    /// Takes the packet out of the slot of an entry that has no round left, with the digest or HMAC in full. The slot is idle then.
    #[inline(always)]
    pub fn take_parts(&mut self, i: usize) -> (Vec<u8>, Tag)
        requires lane { i < H.LANES }
        requires busy { IsBusy (slot_in self.old) i }
        requires done { (e : HmacState) → slot_in self.old i ≡ Some e → e.rest ≡ 0 }
        ensures packet { (e : HmacState) → slot_in self.old i ≡ Some e → result.0.items ≡ e.packet }
        ensures tag { (e : HmacState) → slot_in self.old i ≡ Some e → result.1 ≡ H.hashing.digest e.hash e.chain }
        ensures idle { IsWritten H.LANES i None (slot_in self.old) (slot_in self.new) }
    {
        self.lanes.leave(i);
        let chain = H::scattered(&self.lanes.states, i);
        let entry = &mut self.entries[i];
        entry.end_parts(&chain)
    }
}

impl<H: LaneHash> SlotKernel for HmacKernel<H> {
    type Slots = HmacSlots<H>;

    ghost slot = { slot_in };

    fn new_slots(alloc: Global) -> Result<HmacSlots<H>, AllocError> {
        let mut entries = Vec::with_capacity(alloc, H::LANES as usize)?;
        'slots: for _i in 0..H::LANES {
            entries.push_reserved(HmacEntry::blank(alloc));
        }
        Ok(HmacSlots {
            lanes: HmacLanes::new(),
            entries,
        })
    }

    #[inline(always)]
    fn put(slots: &mut HmacSlots<H>, i: usize, entry: HmacEntry<H>) {
        slots.lanes.enter(i, &entry);
        slots.entries[i] = entry;
    }

    #[inline(always)]
    fn rest_at(slots: &HmacSlots<H>, i: usize) -> u32 {
        word_of(&slots.lanes.rests.left, i)
    }

    #[inline(always)]
    fn least(slots: &HmacSlots<H>) -> u32 {
        least_lane(slots.lanes.rests.left)
    }

    fn run_all(slots: &mut HmacSlots<H>, m: u32) {
        slots.lanes.run(&mut slots.entries, m);
    }

    #[inline(always)]
    fn take(slots: &mut HmacSlots<H>, i: usize) -> HmacEntry<H> {
        slots.lanes.leave(i);
        let chain = H::scattered(&slots.lanes.states, i);
        let inner = H::scattered(&slots.lanes.inner, i);
        let entry = &mut slots.entries[i];
        entry.end(chain, inner)
    }
}
