ghost use Rattle.std.specs.Prelude.{◌≡◌, ◌<◌, ◌≤◌, Some, None};
ghost use Rattle.mbj_lane.specs.Slots.{IsBusy, IsWritten};

use crate::slot_kernel::SlotKernel;

/// What the entries of a kernel come from and go back to. It hands an entry out right into its slot, and takes it back out of there, so
/// that no entry is moved.
pub trait Host<K: SlotKernel> {
    /// An entry may be handed out.
    ghost may_give: { Self → Type 0 };

    /// Before and after an entry is handed out.
    ghost gives: { Self → K.Entry → Self → Type 0 };

    /// This entry may come back.
    ghost may_take: { K.Entry → Self → Type 0 };

    /// Before and after an entry comes back.
    ghost takes: { Self → K.Entry → Self → Type 0 };

    /// Hands an entry with a round left out into an idle slot.
    fn give(&mut self, slots: &mut K::Slots, i: usize)
        requires lane { i < K.LANES }
        requires idle { K.slot slots.old i ≡ None }
        requires may { may_give self.old }
        ensures { (e : K.Entry) × IsWritten K.LANES i (Some e) (K.slot slots.old) (K.slot slots.new) × (1 ≤ K.rest_of e)
            × gives self.old e self.new };

    /// Takes an entry that has no round left back out of its slot, which is idle then.
    fn take(&mut self, slots: &mut K::Slots, i: usize)
        requires lane { i < K.LANES }
        requires busy { IsBusy (K.slot slots.old) i }
        requires done { (e : K.Entry) → K.slot slots.old i ≡ Some e → K.rest_of e ≡ 0 }
        requires may { (e : K.Entry) → K.slot slots.old i ≡ Some e → may_take e self.old }
        ensures idle { IsWritten K.LANES i None (K.slot slots.old) (K.slot slots.new) }
        ensures back { (e : K.Entry) → K.slot slots.old i ≡ Some e → takes self.old e self.new };
}
