// A submitter's steps on its own cells: a post is an open and a publish, a collect is a take and a free.
ghost use Rattle.std.specs.Prelude.{◌≡◌, ◌≢◌, ◌+◌, ◌-◌, ◌<◌, length, slice_get, Some, IfOk, IfErr, MatchResult};
ghost use Rattle.mbj_core.specs.declared.cells.TheConstants.{SUBMITTER_CELLS};
ghost use Rattle.mbj_core.specs.declared.party.Phase.TheVariants.{Rest, Opening, Emptying};
ghost use Rattle.mbj_core.specs.Cells.{cell_of};
ghost use Rattle.mbj_front.specs.Views.{after_look, at_phase, after_publish, after_take};
ghost use Rattle.mbj_front.specs.Moves.{opening, publishing, taking, freeing, looking};
ghost use Rattle.mbj_front.specs.Seats.{view_of, submitters_of, IsOf, Did};

use crate::front::SharedFront;
use crate::plays::{Free, Open, Publish, Take};
use crate::results::Results;
use crate::returned::Returned;
use crate::seat::PartySeat;
use crate::slot::Slot;
use crate::words::{DONE, FREE, READY, open_word, take_word};
use mbj_core::{SUBMITTER_CELLS, cell_at};

impl<J, D, R: Results<J, D>> SharedFront<J, D, R> {
    /// A submitter at rest, with fewer than `SUBMITTER_CELLS` out, begins to fill the cell of its next job.
    pub fn open_cell(&self, seat: &mut PartySeat<J, D>)
        requires front { IsOf self.now seat.old }
        requires submitter { (view_of seat.old).number < submitters_of self.now }
        requires rest { (view_of seat.old).phase ≡ Rest }
        requires room { length (view_of seat.old).due < (view_of seat.old).handed + SUBMITTER_CELLS }
        ensures front { IsOf self.now seat.new }
        ensures view { view_of seat.new ≡ at_phase (view_of seat.old) Opening }
        ensures step { Did R.owed seat.old opening seat.new }
    {
        let at = cell_at(seat.party, seat.first + seat.out) as usize;
        let open = open_word(seat.party);
        let table = &self.table.shared;
        table.compare_exchange::<Open<R>>(&mut seat.inner, at, FREE, open);
    }

    /// The cell that the submitter fills gets the job, which is then out.
    pub fn publish(&self, seat: &mut PartySeat<J, D>, job: J)
        requires front { IsOf self.now seat.old }
        requires opening { (view_of seat.old).phase ≡ Opening }
        ensures front { IsOf self.now seat.new }
        ensures view { view_of seat.new ≡ after_publish (view_of seat.old) (R.owed job) }
        ensures step { Did R.owed seat.old (publishing job) seat.new }
    {
        let at = cell_at(seat.party, seat.first + seat.out) as usize;
        let open = open_word(seat.party);
        let table = &self.table.shared;
        let old = table.exchange(&mut seat.inner, at, Slot::Task(job));
        table.compare_exchange::<Publish<R>>(&mut seat.inner, at, open, READY);
        seat.out += 1;
        match old {
            Slot::Blank => {}
            _ => unreachable!(),
        }
    }

    /// `try_take`, which gives the result with its job, if that came back too.
    pub fn try_take_returned(&self, seat: &mut PartySeat<J, D>) -> Result<Returned<J, D>, u64>
        requires front { IsOf self.now seat.old }
        requires rest { (view_of seat.old).phase ≡ Rest }
        requires out { (view_of seat.old).handed < length (view_of seat.old).due }
        ensures front { IsOf self.now seat.new }
        ensures result { IfOk result (λ d. slice_get (view_of seat.old).due (view_of seat.old).handed ≡ Some d) }
        ensures found { IfErr result (λ word. word ≢ DONE) }
        ensures view { let v = view_of seat.old in let cell = cell_of v.number v.handed in
            MatchResult result (λ _. view_of seat.new ≡ after_take v cell) (λ word. view_of seat.new ≡ after_look v cell word) }
        ensures step { let v = view_of seat.old in let cell = cell_of v.number v.handed in
            MatchResult result (λ d. Did R.owed seat.old (taking d) seat.new) (λ word. Did R.owed seat.old (looking cell word) seat.new) }
    {
        let at = cell_at(seat.party, seat.first) as usize;
        let take = take_word(seat.party);
        let table = &self.table.shared;
        let word = table.compare_exchange::<Take<R>>(&mut seat.inner, at, DONE, take);
        if word != DONE {
            return Err(word);
        }
        let slot = table.exchange(&mut seat.inner, at, Slot::Blank);
        seat.first = (seat.first + 1) % SUBMITTER_CELLS;
        seat.out -= 1;
        match slot {
            Slot::Made(returned) => Ok(returned),
            _ => unreachable!(),
        }
    }

    /// The cell that the submitter empties is free again.
    pub fn free(&self, seat: &mut PartySeat<J, D>)
        requires front { IsOf self.now seat.old }
        requires emptying { (view_of seat.old).phase ≡ Emptying }
        ensures front { IsOf self.now seat.new }
        ensures view { view_of seat.new ≡ at_phase (view_of seat.old) Rest }
        ensures step { Did R.owed seat.old freeing seat.new }
    {
        let at = cell_at(seat.party, seat.first + (SUBMITTER_CELLS - 1)) as usize;
        let take = take_word(seat.party);
        let table = &self.table.shared;
        table.compare_exchange::<Free<R>>(&mut seat.inner, at, take, FREE);
    }
}

impl<J: Drop, D, R: Results<J, D>> SharedFront<J, D, R> {
    /// Takes the result of the submitter's earliest job that is out; it then empties that cell. Returns the cell's word
    /// exactly where that isn't `DONE`; then nothing changes but that the look is recorded.
    pub fn try_take(&self, seat: &mut PartySeat<J, D>) -> Result<D, u64>
        requires front { IsOf self.now seat.old }
        requires rest { (view_of seat.old).phase ≡ Rest }
        requires out { (view_of seat.old).handed < length (view_of seat.old).due }
        ensures front { IsOf self.now seat.new }
        ensures result { IfOk result (λ d. slice_get (view_of seat.old).due (view_of seat.old).handed ≡ Some d) }
        ensures found { IfErr result (λ word. word ≢ DONE) }
        ensures view { let v = view_of seat.old in let cell = cell_of v.number v.handed in
            MatchResult result (λ _. view_of seat.new ≡ after_take v cell) (λ word. view_of seat.new ≡ after_look v cell word) }
        ensures step { let v = view_of seat.old in let cell = cell_of v.number v.handed in
            MatchResult result (λ d. Did R.owed seat.old (taking d) seat.new) (λ word. Did R.owed seat.old (looking cell word) seat.new) }
    {
        match self.try_take_returned(seat) {
            Ok(returned) => Ok(returned.into_result()),
            Err(word) => Err(word),
        }
    }
}
