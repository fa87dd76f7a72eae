ghost use Rattle.std.specs.Prelude.{◌≡◌, ℕ, ◌-◌, ◌<◌, ◌≤◌, ◌^◌, Option, Some, None, IfOk};
ghost use Rattle.std.specs.Option.{option_map};
ghost use Rattle.mbj_lane.specs.Rounds.{after};
ghost use Rattle.mbj_lane.specs.Slots.{IsBusy, IsWritten, IsLeast};

use crate::kernel::Kernel;
use std::alloc::{AllocError, Global};

/// A kernel whose entries stand in slots, one a lane. An entry keeps its slot until it is done, so that a kernel may
/// keep in its lanes, between runs, what it computed of the entries.
pub trait SlotKernel: Kernel {
    /// The slots of all lanes.
    type Slots: Drop;

    /// The entry that stands in a slot.
    ghost slot: { Self.Slots → ℕ → Option Self.Entry };

    /// As many slots as lanes, all of them idle. No other call takes memory.
    ///
    /// Returns `AllocError` for want of memory.
    fn new_slots(alloc: Global) -> Result<Self::Slots, AllocError>
        ensures { IfOk result (λ s. (i : ℕ) → i < Self.LANES → slot s i ≡ None) };

    /// An entry with a round left takes an idle slot.
    fn put(slots: &mut Self::Slots, i: usize, entry: Self::Entry)
        requires lane { i < Self.LANES }
        requires idle { slot slots.old i ≡ None }
        requires rest { 1 ≤ Self.rest_of entry }
        ensures { IsWritten Self.LANES i (Some entry) (slot slots.old) (slot slots.new) };

    /// How many rounds the entry of a slot has left.
    fn rest_at(slots: &Self::Slots, i: usize) -> u32
        requires lane { i < Self.LANES }
        requires busy { IsBusy (slot slots.now) i }
        ensures { (e : Self.Entry) → slot slots.now i ≡ Some e → result ≡ Self.rest_of e };

    /// The least rest of all slots, of which one has an entry.
    fn least(slots: &Self::Slots) -> u32
        requires { (i : ℕ) × (i < Self.LANES) × IsBusy (slot slots.now) i }
        ensures { IsLeast Self.rest_of Self.LANES (slot slots.now) result };

    /// Advances every entry by `m` rounds; each has at least `m` left.
    fn run_all(slots: &mut Self::Slots, m: u32)
        requires { (i : ℕ) (e : Self.Entry) → i < Self.LANES → slot slots.old i ≡ Some e → m ≤ Self.rest_of e }
        ensures { (i : ℕ) → i < Self.LANES → slot slots.new i ≡ option_map (after Self.round m) (slot slots.old i) };

    /// Takes an entry that has no round left out of its slot, which is idle then.
    fn take(slots: &mut Self::Slots, i: usize) -> Self::Entry
        requires lane { i < Self.LANES }
        requires busy { IsBusy (slot slots.old) i }
        requires done { (e : Self.Entry) → slot slots.old i ≡ Some e → Self.rest_of e ≡ 0 }
        ensures taken { slot slots.old i ≡ Some result }
        ensures idle { IsWritten Self.LANES i None (slot slots.old) (slot slots.new) };
}
