ghost use Rattle.std.specs.Prelude.{◌≡◌, ℕ, ◌<◌, ◌≤◌, length, slice_index_or, Option, Some, None, IfOk};
ghost use Rattle.std.specs.Option.{option_map};
ghost use Rattle.mbj_lane.specs.Rounds.{after, least};
ghost use Rattle.mbj_lane.specs.Slots.{IsBusy, IsIn, IsLeast, IsWritten};
ghost use Rattle.mbj_job_tests.specs.Gathered.{at_slot};

use mbj_lane::Kernel;
use std::alloc::{AllocError, Global};
use std::marker::Model;

/// The slots of a kernel that keeps nothing in its lanes between runs. The entries stand side by side, so that each run
/// is one of the kernel over all of them.
#[derive(Drop)]
pub struct GatheredSlots<K: Kernel> {
    entries: Vec<K::Entry>,
    /// The slot of each entry.
    places: Vec<usize>,
}

impl<K: Kernel> Model for GatheredSlots<K> {
    ghost use Rattle.std.specs.Prelude.{List, ℕ, ◌≤◌, vec_capacity};
    ghost use Rattle.mbj_job_tests.specs.Gathered.{AreGathered};

    ghost Value = { List ℕ × List K.Entry };

    ghost view = { λ s. (s.places.items, s.entries.items) };

    ghost invariant = { λ s. AreGathered K.LANES s.places.items s.entries.items
        × (K.LANES ≤ vec_capacity s.places) × (K.LANES ≤ vec_capacity s.entries) };
}

impl<K: Kernel> GatheredSlots<K> {
    /// As many slots as lanes, all of them idle. No other call takes memory.
    ///
    /// Returns `AllocError` for want of memory.
    pub fn new(alloc: Global) -> Result<GatheredSlots<K>, AllocError>
        ensures { IfOk result (λ s. (i : ℕ) → i < K.LANES → at_slot s.0 s.1 i ≡ None) }
    {
        let lanes = K::LANES as usize;
        Ok(GatheredSlots {
            entries: Vec::with_capacity(alloc, lanes)?,
            places: Vec::with_capacity(alloc, lanes)?,
        })
    }

    /// An entry with a round left takes an idle slot.
    pub fn put(&mut self, i: usize, entry: K::Entry)
        requires lane { i < K.LANES }
        requires idle { at_slot self.old.0 self.old.1 i ≡ None }
        ensures { IsWritten K.LANES i (Some entry) (at_slot self.old.0 self.old.1) (at_slot self.new.0 self.new.1) }
    {
        self.places.push_reserved(i);
        self.entries.push_reserved(entry);
    }

    /// How many rounds the entry of a slot has left.
    pub fn rest_at(&self, i: usize) -> u32
        requires { IsBusy (at_slot self.now.0 self.now.1) i }
        ensures { (e : K.Entry) → at_slot self.now.0 self.now.1 i ≡ Some e → result ≡ K.rest_of e }
    {
        K::rest(&self.entries[place_of(&self.places, i)])
    }

    /// The least rest of all slots, of which one has an entry.
    pub fn least(&self) -> u32
        requires { (i : ℕ) × (i < K.LANES) × IsBusy (at_slot self.now.0 self.now.1) i }
        ensures { IsLeast K.rest_of K.LANES (at_slot self.now.0 self.now.1) result }
    {
        shortest::<K>(&self.entries)
    }

    /// Advances the entry of each slot by `m` rounds; each has at least `m` left.
    pub fn run_all(&mut self, m: u32)
        requires { (i : ℕ) (e : K.Entry) → i < K.LANES → at_slot self.old.0 self.old.1 i ≡ Some e → m ≤ K.rest_of e }
        ensures { (i : ℕ) → i < K.LANES
            → at_slot self.new.0 self.new.1 i ≡ option_map (after K.round m) (at_slot self.old.0 self.old.1 i) }
    {
        K::run(&mut self.entries, m);
    }

    /// Takes an entry out of its slot, which is idle then.
    pub fn take(&mut self, i: usize) -> K::Entry
        requires lane { i < K.LANES }
        requires busy { IsBusy (at_slot self.old.0 self.old.1) i }
        ensures taken { at_slot self.old.0 self.old.1 i ≡ Some result }
        ensures idle { IsWritten K.LANES i None (at_slot self.old.0 self.old.1) (at_slot self.new.0 self.new.1) }
    {
        let k = place_of(&self.places, i);
        self.places.remove(k);
        self.entries.remove(k)
    }
}

/// Where a number stands that is in a list.
fn place_of(places: &[usize], i: usize) -> usize
    requires { IsIn i places.now }
    ensures within { result < length places.now }
    ensures is { i ≡ slice_index_or places.now result i }
{
    'places: for k in 0..places.len() {
        if places[k] == i {
            return k;
        }
    }
    unreachable!()
}

/// The least rest among entries.
fn shortest<K: Kernel>(entries: &[K::Entry]) -> u32
    requires { 0 < length entries.now }
    ensures { result ≡ least K.rest_of entries.now }
{
    let mut least = K::rest(&entries[0]);
    'rests: for entry in entries {
        let rest = K::rest(entry);
        if rest < least {
            least = rest;
        }
    }
    least
}
