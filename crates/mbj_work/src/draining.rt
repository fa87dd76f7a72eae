// How a submitter waits for its results, and helps with its own jobs meanwhile.
ghost use Rattle.std.specs.Prelude.{◌≡◌, ◌+◌, ◌-◌, ◌<◌, ◌≤◌, List, [], ◌++◌, drop, length, vec_capacity, vec_len};
ghost use Rattle.mbj_front.specs.Seats.{cells_of};
ghost use Rattle.mbj_front.specs.Views.{after_finish};
ghost use Rattle.mbj_work.specs.Parties.{part_of, IsPartyOf, Submits, KeepsDue};
ghost use Rattle.mbj_work.specs.Calls.{drained, worked, Makes};
ghost use Rattle.std.specs.Int.{from_bool};
ghost use Rattle.mbj_work.specs.Turns.{ClaimsInTurn};
ghost use Rattle.mbj_work.specs.Inside.Runs.{with_due};
ghost use Rattle.mbj_types.specs.declared.done.Done.{Done};

use crate::claimed::Claimed;
use crate::gate::{Gate, OpenGate};
use crate::party::{CLAIMS, HAND_ROOM, Party};
use crossbeam_utils::Backoff;
use mbj_core::cell_at;
use mbj_front::{Front, READY};
use mbj_types::Done;
use std::sync::Wait;

impl<'k> Party<'k> {
    /// Collects until nothing of this submitter is out, and appends the results, for which there is room, in the order of
    /// the posts. While the earliest job that is out has no result it waits for others, and where the gate lets it help it
    /// claims those of its own jobs that are ready, and settles them. At return its hand is empty.
    pub fn drain<R: Wait, G: Gate>(
        &mut self,
        rt: &R,
        front: &Front,
        gate: &G,
        results: &mut Vec<Done>,
    )
        requires front { IsPartyOf front.now self.old }
        requires room { vec_len results.old + (length (part_of self.old).due - (part_of self.old).handed) ≤ vec_capacity results.old }
        ensures front { IsPartyOf front.now self.new }
        ensures number { (part_of self.new).number ≡ (part_of self.old).number }
        ensures due { (part_of self.new).due ≡ (part_of self.old).due }
        ensures handed { (part_of self.new).handed ≡ length (part_of self.old).due }
        ensures hand { (part_of self.new).hand ≡ [] }
        ensures results { results.new.items ≡ results.old.items ++ drop (part_of self.old).handed (part_of self.old).due }
        ensures call { (ds : List Done) × ((results.new.items ≡ results.old.items ++ ds) × Makes (drained ds) (part_of self.old) (part_of self.new)) }
        ensures room { vec_capacity results.new ≡ vec_capacity results.old }
    {
        self.collect_down_to(rt, front, gate, results, 0);
        self.settle_all_at(front, gate);
    }

    /// Collects until at most `left` jobs of this submitter are out, and appends the results, for which there is room.
    /// While the earliest job that is out has no result it waits for others, and helps if the gate lets it.
    pub(crate) fn collect_down_to<R: Wait, G: Gate>(
        &mut self,
        rt: &R,
        front: &Front,
        gate: &G,
        results: &mut Vec<Done>,
        left: u32,
    )
        requires front { IsPartyOf front.now self.old }
        requires room { vec_len results.old + (length (part_of self.old).due - (part_of self.old).handed) ≤ vec_capacity results.old }
        ensures front { IsPartyOf front.now self.new }
        ensures number { (part_of self.new).number ≡ (part_of self.old).number }
        ensures due { (part_of self.new).due ≡ (part_of self.old).due }
        ensures left { length (part_of self.new).due ≤ (part_of self.new).handed + left }
        ensures results { with_due results.new.items (part_of self.new) ≡ with_due results.old.items (part_of self.old) }
        ensures room { vec_capacity results.new ≡ vec_capacity results.old }
    {
        let backoff = Backoff::new();
        for _ in rt.forever() {
            if self.out() <= left {
                break;
            }
            match self.collect_at(front, gate) {
                Some(done) => results.push_reserved(done),
                None => self.wait(front, gate, &backoff),
            }
        }
    }

    /// What a submitter does while its earliest job that is out has no result.
    fn wait<G: Gate>(&mut self, front: &Front, gate: &G, backoff: &Backoff)
        requires front { IsPartyOf front.now self.old }
        requires submitter { Submits front.now self.old }
        ensures front { IsPartyOf front.now self.new }
        ensures due { KeepsDue (part_of self.old) (part_of self.new) }
    {
        if gate.may_help(self.seat.party()) && self.help(front, gate) {
            backoff.reset();
        } else {
            backoff.snooze();
        }
    }

    /// Claims some of its own jobs, or settles a cell in the hand if none of them is ready. Returns whether there was one.
    /// All results that are finished then are handed back.
    ///
    /// If another party has the earliest job, that party goes on with those that come next, and this one takes the last.
    fn help<G: Gate>(&mut self, front: &Front, gate: &G) -> bool
        requires front { IsPartyOf front.now self.old }
        requires submitter { Submits front.now self.old }
        ensures front { IsPartyOf front.now self.new }
        ensures due { KeepsDue (part_of self.old) (part_of self.new) }
    {
        let from_first = self.has_first(front);
        let helped = self.claim_own(front, gate, from_first) || self.settle_at(front, gate);
        self.give_all_back(front, gate);
        helped
    }

    /// Whether no other party works on the earliest job that is out: it is ready, or first in this hand.
    fn has_first(&mut self, front: &Front) -> bool
        requires front { IsPartyOf front.now self.old }
        requires submitter { Submits front.now self.old }
        ensures front { IsPartyOf front.now self.new }
        ensures due { KeepsDue (part_of self.old) (part_of self.new) }
    {
        let first = self.seat.first_cell();
        self.cells.front().copied() == Some(first) || front.scan(&mut self.seat, first) == READY
    }

    /// Claims some of its own jobs that are ready, `CLAIMS` at most, from the first one that is out on or from the last one
    /// back. Returns whether it claimed any.
    fn claim_own<G: Gate>(&mut self, front: &Front, gate: &G, from_first: bool) -> bool
        requires front { IsPartyOf front.now self.old }
        requires submitter { Submits front.now self.old }
        ensures front { IsPartyOf front.now self.new }
        ensures due { KeepsDue (part_of self.old) (part_of self.new) }
    {
        let party = self.seat.party();
        let first = self.seat.first_cell();
        let out = self.seat.out();
        let mut claimed = 0;
        for nth in 0..out {
            if claimed >= CLAIMS {
                break;
            }
            let k = if from_first { nth } else { out - 1 - nth };
            if self.claim_ready(front, cell_at(party, first + k), gate) {
                claimed += 1;
            }
        }
        claimed > 0
    }

    /// Claims a cell that is ready, if the hand has room. Returns whether it did.
    pub(crate) fn claim_ready<G: Gate>(&mut self, front: &Front, cell: u32, gate: &G) -> bool
        requires front { IsPartyOf front.now self.old }
        requires cell { cell < cells_of front.now }
        ensures front { IsPartyOf front.now self.new }
        ensures hand { ClaimsInTurn (from_bool result) (part_of self.old).hand (part_of self.new).hand }
        ensures due { KeepsDue (part_of self.old) (part_of self.new) }
    {
        if self.hand() == HAND_ROOM {
            return false;
        }
        if front.scan(&mut self.seat, cell) != READY {
            return false;
        }
        match self.claim_at(front, cell, gate) {
            Claimed::Yes => true,
            Claimed::Not(_) => false,
        }
    }

    /// Settles as `settle` does until it returns false.
    pub fn settle_all(&mut self, front: &Front)
        requires { IsPartyOf front.now self.old }
        ensures front { IsPartyOf front.now self.new }
        ensures part { part_of self.new ≡ after_finish (part_of self.old) [] }
        ensures due { Makes worked (part_of self.old) (part_of self.new) }
    {
        self.settle_all_at(front, &OpenGate);
    }

    /// Settles until the hand is empty.
    pub(crate) fn settle_all_at<G: Gate>(&mut self, front: &Front, gate: &G)
        requires { IsPartyOf front.now self.old }
        ensures front { IsPartyOf front.now self.new }
        ensures part { part_of self.new ≡ after_finish (part_of self.old) [] }
    {
        while self.settle_at(front, gate) {}
    }
}
