// How a party settles many cells at once.
ghost use Rattle.std.specs.Prelude.{◌≡◌, ◌++◌, List, [], length, min, vec_capacity};
ghost use Rattle.circular_buffer.specs.Buffer.{buffer};
ghost use Rattle.mbj_types.specs.declared.done.Done.{Done};
ghost use Rattle.mbj_core.specs.declared.party.Phase.TheVariants.{Rest};
ghost use Rattle.mbj_front.specs.Seats.{view_of, IsOf};
ghost use Rattle.mbj_work.specs.declared.party.TheConstants.{HAND_ROOM};
ghost use Rattle.mbj_work.specs.Calls.{worked, Makes};
ghost use Rattle.mbj_work.specs.Parties.{part_of, manager_of, IsPartyOf};
ghost use Rattle.mbj_work.specs.Claims.{FinishesEach, SettlesInTurn};
ghost use Rattle.mbj_work.specs.Inside.Holding.{cells_in, results_in};

use crate::claiming::finish_first;
use crate::gate::OpenGate;
use crate::party::Party;
use circular_buffer::HeapCircularBuffer;
use mbj_front::{Front, Returned, Seat};
use mbj_types::Done;
use std::alloc::Global;

/// Finishes the first cells in the hand with these results, in their order, which leave the list.
fn finish_each(
    front: &Front,
    seat: &mut Seat,
    cells: &mut HeapCircularBuffer<u32>,
    settled: &mut Vec<Done>,
)
    requires front { IsOf front.now seat.old }
    requires rest { (view_of seat.old).phase ≡ Rest }
    requires first { (left : List Done) × (settled.old.items ++ left ≡ results_in (view_of seat.old).hand) }
    requires cells { cells.old ≡ buffer (cells_in (view_of seat.old).hand) HAND_ROOM }
    ensures front { IsOf front.now seat.new }
    ensures part { FinishesEach front.now settled.old.items (view_of seat.old) (view_of seat.new) }
    ensures cells { cells.new ≡ buffer (cells_in (view_of seat.new).hand) HAND_ROOM }
    ensures none { settled.new.items ≡ [] }
    ensures room { vec_capacity settled.new ≡ vec_capacity settled.old }
{
    settled.reverse();
    'finishing: loop {
        match settled.pop() {
            Some(done) => { finish_first(front, seat, cells, Returned::new(done, None), &OpenGate) }
            None => return,
        }
    }
}

impl<'k> Party<'k> {
    /// Settles as `settle` does until it returns false, `n` times at most. Returns how often it returned true.
    pub fn settle_burst(&mut self, front: &Front, n: u32) -> u32
        requires { IsPartyOf front.now self.old }
        ensures front { IsPartyOf front.now self.new }
        ensures count { result ≡ min n (length (part_of self.old).hand) }
        ensures part { SettlesInTurn front.now result (part_of self.old) (manager_of self.old) (part_of self.new) (manager_of self.new) }
        ensures due { Makes worked (part_of self.old) (part_of self.new) }
        ensures looks { (part_of self.new).looks ≡ (part_of self.old).looks }
    {
        let wanted = n.min(self.hand());
        let count = self.manager.flush_burst(wanted, &mut self.settled);
        finish_each(front, &mut self.seat, &mut self.cells, &mut self.settled);
        count
    }
}
