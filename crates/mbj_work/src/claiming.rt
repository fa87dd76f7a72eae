// What every party does with the jobs of others: it claims them, and its manager works them.
ghost use Rattle.std.specs.Prelude.{◌≡◌, ◌≢◌, ℕ, ◌<◌, [], None, Some, length, MatchBool};
ghost use Rattle.circular_buffer.specs.Buffer.{buffer};
ghost use Rattle.mbj_types.specs.declared.done.Done.{Done};
ghost use Rattle.mbj_core.specs.declared.party.Phase.TheVariants.{Rest};
ghost use Rattle.mbj_front.specs.declared.words.TheConstants.{READY};
ghost use Rattle.mbj_front.specs.Seats.{view_of, cells_of, IsFirst, IsOf};
ghost use Rattle.mbj_front.specs.Views.{after_finish, after_look};
ghost use Rattle.mbj_manager.specs.State.{after_get_completed};
ghost use Rattle.mbj_work.specs.declared.party.TheConstants.{HAND_ROOM};
ghost use Rattle.mbj_work.specs.Calls.{worked, Makes};
ghost use Rattle.mbj_work.specs.Parties.{part_of, manager_of, notes_of, IsPartyOf};
ghost use Rattle.mbj_work.specs.Claims.{MatchClaimed, IfNot, FinishesFirst, ClaimsJob, Settles};
ghost use Rattle.mbj_work.specs.Turns.{GivesBack};
ghost use Rattle.mbj_work.specs.Inside.Holding.{cells_in};

use crate::claimed::Claimed;
use crate::gate::{Gate, Moment, OpenGate};
use crate::giving::{ReturnedJob, completed, flushed};
use crate::known::submit_known;
use crate::party::Party;
use circular_buffer::HeapCircularBuffer;
use mbj_front::{Front, Seat};

/// Finishes the first cell in the hand with its result, after the gate is passed. Its job goes home with it.
pub(crate) fn finish_first<G: Gate>(
    front: &Front,
    seat: &mut Seat,
    cells: &mut HeapCircularBuffer<u32>,
    returned: ReturnedJob,
    gate: &G,
)
    requires front { IsOf front.now seat.old }
    requires rest { (view_of seat.old).phase ≡ Rest }
    requires first { (cell : ℕ) × IsFirst cell returned (view_of seat.old).hand }
    requires cells { cells.old ≡ buffer (cells_in (view_of seat.old).hand) HAND_ROOM }
    ensures front { IsOf front.now seat.new }
    ensures part { FinishesFirst front.now returned (view_of seat.old) (view_of seat.new) }
    ensures cells { cells.new ≡ buffer (cells_in (view_of seat.new).hand) HAND_ROOM }
{
    gate.pass(seat.party(), Moment::Finishing);
    let Some(cell) = cells.pop_front() else {
        unreachable!()
    };
    front.finish_returned(seat, cell, returned);
}

impl<'k> Party<'k> {
    /// Claims the job of a cell, if the hand has room: the cell goes to the end of the hand, and the job is submitted to the manager,
    /// with the entry of its session if the party has learnt the session and the entry has the job's key. A result that this gives back
    /// is that of the first cell in the hand, which is finished with it. Returns `Not` with the cell's word exactly where that isn't
    /// `READY`; then nothing changes but that the look is recorded.
    pub fn claim(&mut self, front: &Front, cell: u32) -> Claimed
        requires front { IsPartyOf front.now self.old }
        requires room { length (part_of self.old).hand < HAND_ROOM }
        requires cell { cell < cells_of front.now }
        ensures front { IsPartyOf front.now self.new }
        ensures found { IfNot result (λ word. word ≢ READY) }
        ensures part { MatchClaimed result
            (ClaimsJob front.now cell (notes_of self.old) (part_of self.old) (manager_of self.old) (part_of self.new) (manager_of self.new))
            (λ word. (part_of self.new ≡ after_look (part_of self.old) cell word) × (manager_of self.new ≡ manager_of self.old)) }
        ensures due { Makes worked (part_of self.old) (part_of self.new) }
        ensures notes { notes_of self.new ≡ notes_of self.old }
    {
        self.claim_at(front, cell, &OpenGate)
    }

    /// `claim`, which passes the gate after the cell is claimed and before its job is submitted, and before a cell is
    /// finished.
    pub fn claim_at<G: Gate>(&mut self, front: &Front, cell: u32, gate: &G) -> Claimed
        requires front { IsPartyOf front.now self.old }
        requires room { length (part_of self.old).hand < HAND_ROOM }
        requires cell { cell < cells_of front.now }
        ensures front { IsPartyOf front.now self.new }
        ensures found { IfNot result (λ word. word ≢ READY) }
        ensures part { MatchClaimed result
            (ClaimsJob front.now cell (notes_of self.old) (part_of self.old) (manager_of self.old) (part_of self.new) (manager_of self.new))
            (λ word. (part_of self.new ≡ after_look (part_of self.old) cell word) × (manager_of self.new ≡ manager_of self.old)) }
        ensures due { Makes worked (part_of self.old) (part_of self.new) }
        ensures notes { notes_of self.new ≡ notes_of self.old }
    {
        match front.try_claim(&mut self.seat, cell) {
            Err(word) => Claimed::Not(word),
            Ok(job) => {
                self.cells.push_back(cell);
                gate.pass(self.seat.party(), Moment::Claimed);
                if let Some(done) = submit_known(
                    self.alloc,
                    &mut self.manager,
                    &mut self.known,
                    job,
                    &mut self.given,
                ) {
                    finish_first(front, &mut self.seat, &mut self.cells, done, gate);
                }
                Claimed::Yes
            }
        }
    }

    /// Flushes one result out of the manager, and finishes the first cell in the hand with it. Returns false exactly where
    /// the hand is empty; nothing changes then.
    pub fn settle(&mut self, front: &Front) -> bool
        requires { IsPartyOf front.now self.old }
        ensures front { IsPartyOf front.now self.new }
        ensures part { MatchBool result
            (Settles front.now (part_of self.old) (manager_of self.old) (part_of self.new) (manager_of self.new))
            (((part_of self.old).hand ≡ []) × (self.new ≡ self.old)) }
        ensures due { Makes worked (part_of self.old) (part_of self.new) }
        ensures looks { (part_of self.new).looks ≡ (part_of self.old).looks }
        ensures hand { GivesBack (part_of self.old).hand (part_of self.new).hand }
    {
        self.settle_at(front, &OpenGate)
    }

    /// `settle`, which passes the gate before the cell is finished.
    pub fn settle_at<G: Gate>(&mut self, front: &Front, gate: &G) -> bool
        requires { IsPartyOf front.now self.old }
        ensures front { IsPartyOf front.now self.new }
        ensures part { MatchBool result
            (Settles front.now (part_of self.old) (manager_of self.old) (part_of self.new) (manager_of self.new))
            (((part_of self.old).hand ≡ []) × (self.new ≡ self.old)) }
        ensures due { Makes worked (part_of self.old) (part_of self.new) }
        ensures looks { (part_of self.new).looks ≡ (part_of self.old).looks }
        ensures hand { GivesBack (part_of self.old).hand (part_of self.new).hand }
    {
        if self.cells.is_empty() {
            return false;
        }
        let Some(done) = flushed(self.alloc, &mut self.manager, &mut self.given) else {
            unreachable!()
        };
        finish_first(front, &mut self.seat, &mut self.cells, done, gate);
        true
    }

    /// Finishes the first cell in the hand if its job is finished already. Returns whether it was. No lanes run for this.
    fn give_back<G: Gate>(&mut self, front: &Front, gate: &G) -> bool
        requires { IsPartyOf front.now self.old }
        ensures front { IsPartyOf front.now self.new }
        ensures part { MatchBool result
            ((done : Done) × ((after_get_completed (manager_of self.old)).0 ≡ Some done)
            × FinishesFirst front.now done (part_of self.old) (part_of self.new))
            (((after_get_completed (manager_of self.old)).0 ≡ None) × (part_of self.new ≡ part_of self.old)) }
        ensures manager { manager_of self.new ≡ (after_get_completed (manager_of self.old)).1 }
    {
        let Some(done) = completed(self.alloc, &mut self.manager, &mut self.given) else {
            return false;
        };
        finish_first(front, &mut self.seat, &mut self.cells, done, gate);
        true
    }

    /// Finishes cells in the hand, from the first on, as long as their jobs are finished already. No lanes run for this. A run
    /// of full lanes finishes many jobs at once; without this call their results would wait until this party claims more.
    pub(crate) fn give_all_back<G: Gate>(&mut self, front: &Front, gate: &G)
        requires { IsPartyOf front.now self.old }
        ensures front { IsPartyOf front.now self.new }
        ensures part { part_of self.new ≡ after_finish (part_of self.old) (part_of self.new).hand }
        ensures hand { GivesBack (part_of self.old).hand (part_of self.new).hand }
        ensures none { (after_get_completed (manager_of self.new)).0 ≡ None }
    {
        while self.give_back(front, gate) {}
    }
}
