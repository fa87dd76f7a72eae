ghost use Rattle.std.specs.Prelude.{◌≡◌, ℕ, ◌+◌, ◌-◌, ◌<◌, ◌≤◌, [], ◌∷◌, ◌++◌, ◌↔◌, length, map, All, IfOk, MatchOption, None, slice_index_or};
ghost use Rattle.std.specs.List.{remove};
ghost use Rattle.std.specs.Option.{option_map};
ghost use Rattle.mbj_lane.specs.Rounds.{IsFirst, after, end_of, least, taken};
ghost use Rattle.mbj_lane.specs.Slots.{no_entries};

use crate::host::Host;
use crate::slot_kernel::SlotKernel;
use std::alloc::{AllocError, Global};
use std::marker::Model;

/// The entries of one kind that wait for lanes, in the order in which they came, each with its job's place in the caller's ring. There
/// are at most as many as the kind has lanes. An entry keeps its slot until it leaves; an order of slots says who came
/// first.
///
/// ```
/// lanes.enter(Waiter { name: 1, turns: 5 });
/// lanes.enter(Waiter { name: 2, turns: 3 });
/// lanes.enter(Waiter { name: 3, turns: 3 });
/// expect(rt, "none finished", name_of(lanes.take_finished()), None);
/// expect(rt, "rounds", lanes.run_shortest(), 3);
/// let names = [
///     name_of(lanes.take_finished()),
///     name_of(lanes.take_finished()),
///     name_of(lanes.take_finished()),
/// ];
/// ```
#[derive(Drop)]
pub struct Lanes<K: SlotKernel> {
    slots: K::Slots,
    /// The slots that have an entry, in the order in which the entries came, each with the place of the entry's job.
    order: Vec<(usize, u32)>,
    /// The slots that have none.
    idle: Vec<usize>,
}

impl<K: SlotKernel> Model for Lanes<K> {
    ghost use Rattle.std.specs.Prelude.{◌≤◌, vec_capacity};
    ghost use Rattle.mbj_lane.specs.Slots.{AreListed, Placed, placed, slots_of};

    ghost Value = { Placed K.Entry };

    ghost view = { λ l. placed (K.slot l.slots) l.order.items };

    ghost invariant = { λ l. AreListed K.LANES (K.slot l.slots) (slots_of l.order.items) l.idle.items
        × (K.LANES ≤ vec_capacity l.order) × (K.LANES ≤ vec_capacity l.idle) };
}

impl<K: SlotKernel> Lanes<K> {
    /// A list with no entry. It takes the memory for as many entries as the kind has lanes; no other call takes any.
    ///
    /// Returns `AllocError` for want of memory.
    pub fn new(alloc: Global) -> Result<Lanes<K>, AllocError>
        ensures { IfOk result (λ l. l ≡ no_entries) }
    {
        let lanes = K::LANES as usize;
        let slots = K::new_slots(alloc)?;
        let order = Vec::with_capacity(alloc, lanes)?;
        let mut idle = Vec::with_capacity(alloc, lanes)?;
        'lanes: for i in 0..lanes {
            idle.push_reserved(i);
        }
        Ok(Lanes { slots, order, idle })
    }

    /// How many entries there are.
    pub fn len(&self) -> u32
        ensures entries { result ≡ length self.now.entries }
        ensures places { result ≡ length self.now.places }
    {
        self.order.len() as u32
    }

    /// The entry joins the end of the list with a place. A lane is free, and the entry has a round left.
    pub fn enter_as(&mut self, place: u32, entry: K::Entry)
        requires free { length self.old.entries < K.LANES }
        requires rest { 1 ≤ K.rest_of entry }
        ensures entries { self.new.entries ≡ self.old.entries ++ entry ∷ [] }
        ensures places { self.new.places ≡ self.old.places ++ place ∷ [] }
    {
        match self.idle.pop() {
            Some(i) => {
                K::put(&mut self.slots, i, entry);
                self.order.push_reserved((i, place));
            }
            None => unreachable!(),
        }
    }

    /// An entry of a host joins the end of the list with a place. A lane is free.
    #[inline(always)]
    pub fn enter_from<G: Host<K>>(&mut self, place: u32, host: &mut G)
        requires free { length self.old.entries < K.LANES }
        requires may { G.may_give host.old }
        ensures entry { (e : K.Entry) × (self.new.entries ≡ self.old.entries ++ e ∷ []) × (1 ≤ K.rest_of e) × G.gives host.old e host.new }
        ensures places { self.new.places ≡ self.old.places ++ place ∷ [] }
    {
        match self.idle.pop() {
            Some(slot) => {
                host.give(&mut self.slots, slot);
                self.order.push_reserved((slot, place));
            }
            None => unreachable!(),
        }
    }

    /// The entry joins the end of the list with the place 0. A lane is free, and the entry has a round left.
    pub fn enter(&mut self, entry: K::Entry)
        requires free { length self.old.entries < K.LANES }
        requires rest { 1 ≤ K.rest_of entry }
        ensures entries { self.new.entries ≡ self.old.entries ++ entry ∷ [] }
        ensures places { self.new.places ≡ self.old.places ++ 0 ∷ [] }
    {
        self.enter_as(0, entry);
    }

    /// Advances all entries by the least rest among them, in one run of the kernel, and returns that number. The list
    /// isn't empty, and each entry has a round left. The entries keep their order, their places and their ends.
    pub fn run_shortest(&mut self) -> u32
        requires some { 0 < length self.old.entries }
        requires rests { All (λ e. 1 ≤ K.rest_of e) self.old.entries }
        ensures least { result ≡ least K.rest_of self.old.entries }
        ensures advanced { self.new.entries ≡ map (after K.round result) self.old.entries }
        ensures rests { map K.rest_of self.new.entries ≡ map (λ e. K.rest_of e - result) self.old.entries }
        ensures ends { map (end_of K.round K.rest_of) self.new.entries ≡ map (end_of K.round K.rest_of) self.old.entries }
        ensures places { self.new.places ≡ self.old.places }
    {
        let m = K::least(&self.slots);
        K::run_all(&mut self.slots, m);
        m
    }

    /// The position of the first entry that has no round left, from 0 in the order of the list.
    ///
    /// Returns `None` exactly where each entry has one.
    pub fn first_finished(&self) -> Option<usize>
        ensures { MatchOption result (All (λ e. 1 ≤ K.rest_of e) self.now.entries) (λ i. IsFirst K.rest_of i self.now.entries) }
    {
        'positions: for k in 0..self.order.len() {
            if K::rest_at(&self.slots, self.order[k].0) == 0 {
                return Some(k);
            }
        }
        None
    }

    /// Takes out the entry at position `k`, which has no round left, and its place. The others keep their order.
    pub fn remove(&mut self, k: usize) -> (u32, K::Entry)
        requires position { k < length self.old.entries }
        requires done { (d : K.Entry) → K.rest_of (slice_index_or self.old.entries k d) ≡ 0 }
        ensures place { result.0 ≡ slice_index_or self.old.places k result.0 }
        ensures entry { result.1 ≡ slice_index_or self.old.entries k result.1 }
        ensures places { self.new.places ≡ remove self.old.places k }
        ensures others { self.new.entries ≡ remove self.old.entries k }
    {
        let (i, place) = self.order.remove(k);
        self.idle.push_reserved(i);
        (place, K::take(&mut self.slots, i))
    }

    /// The place of the entry at position `k`.
    #[inline(always)]
    pub fn place_at(&self, k: usize) -> u32
        requires { k < length self.now.entries }
        ensures { result ≡ slice_index_or self.now.places k result }
    {
        self.order[k].1
    }

    /// The entry at position `k`, which has no round left, goes back to its host. The others keep their order.
    #[inline(always)]
    pub fn leave_to<G: Host<K>>(&mut self, k: usize, host: &mut G)
        requires position { k < length self.old.entries }
        requires done { (d : K.Entry) → K.rest_of (slice_index_or self.old.entries k d) ≡ 0 }
        requires may { (d : K.Entry) → G.may_take (slice_index_or self.old.entries k d) host.old }
        ensures back { (d : K.Entry) → G.takes host.old (slice_index_or self.old.entries k d) host.new }
        ensures places { self.new.places ≡ remove self.old.places k }
        ensures others { self.new.entries ≡ remove self.old.entries k }
    {
        let (slot, _) = self.order.remove(k);
        self.idle.push_reserved(slot);
        host.take(&mut self.slots, slot);
    }

    /// Takes out the first entry that has no round left, and returns None exactly where each has one. The others keep
    /// their order.
    pub fn take_finished(&mut self) -> Option<K::Entry>
        ensures takes { option_map (λ e. (e, self.new.entries)) result ≡ taken K.rest_of self.old.entries }
        ensures none { (result ≡ None) ↔ All (λ e. 1 ≤ K.rest_of e) self.old.entries }
        ensures kept { result ≡ None → self.new ≡ self.old }
    {
        match self.first_finished() {
            Some(k) => Some(self.remove(k).1),
            None => None,
        }
    }
}
