// What every party may do with every cell: look at it, claim its job, and finish it.
ghost use Rattle.std.specs.Prelude.{◌≡◌, ◌≢◌, ◌*◌, ◌<◌, ◌≤◌, ◌∷◌, IfErr, MatchResult};
ghost use Rattle.mbj_core.specs.declared.cells.TheConstants.{MAX_SUBMITTERS, SUBMITTER_CELLS};
ghost use Rattle.mbj_core.specs.declared.party.Phase.TheVariants.{Rest};
ghost use Rattle.mbj_front.specs.Views.{after_look, after_claim, after_finish};
ghost use Rattle.mbj_front.specs.Moves.{claiming, finishing, looking};
ghost use Rattle.mbj_front.specs.Seats.{view_of, submitters_of, workers_of, cells_of, IsOf, IsFirst, Did};
ghost use Rattle.mbj_front.specs.Inside.Plays.{ClaimIsAllowed, ClaimTold};

use crate::front::SharedFront;
use crate::place::Place;
use crate::plays::{Claim, Finish, Scan};
use crate::results::Results;
use crate::returned::Returned;
use crate::seat::PartySeat;
use crate::slot::Slot;
use crate::words::{DONE, READY, hand_word};
use mbj_core::SUBMITTER_CELLS;

impl<J, D, R: Results<J, D>> SharedFront<J, D, R> {
    /// How many cells there are: `SUBMITTER_CELLS` for each submitter.
    pub fn cells(&self) -> u32
        ensures cells { result ≡ cells_of self.now }
        ensures within { result ≤ SUBMITTER_CELLS * MAX_SUBMITTERS }
    {
        SUBMITTER_CELLS * self.submitters
    }

    /// Looks at a cell, and returns its word.
    pub fn scan(&self, seat: &mut PartySeat<J, D>, cell: u32) -> u64
        requires front { IsOf self.now seat.old }
        requires cell { cell < cells_of self.now }
        ensures front { IsOf self.now seat.new }
        ensures view { view_of seat.new ≡ after_look (view_of seat.old) cell result }
        ensures step { Did R.owed seat.old (looking cell result) seat.new }
    {
        let table = &self.table.shared;
        table.load::<Scan<R>>(&mut seat.inner, cell as usize)
    }

    /// Claims the job of a cell for a party at rest: it goes to the end of the party's hand. Returns the cell's word
    /// exactly where that isn't `READY`; then nothing changes but that the look is recorded.
    pub fn try_claim(&self, seat: &mut PartySeat<J, D>, cell: u32) -> Result<J, u64>
        requires front { IsOf self.now seat.old }
        requires rest { (view_of seat.old).phase ≡ Rest }
        requires cell { cell < cells_of self.now }
        ensures front { IsOf self.now seat.new }
        ensures found { IfErr result (λ word. word ≢ READY) }
        ensures view { MatchResult result
            (λ job. view_of seat.new ≡ after_claim (view_of seat.old) cell (R.owed job))
            (λ word. view_of seat.new ≡ after_look (view_of seat.old) cell word) }
        ensures step { MatchResult result
            (λ job. Did R.owed seat.old (claiming cell job) seat.new)
            (λ word. Did R.owed seat.old (looking cell word) seat.new) }
    {
        let at = cell as usize;
        let hand = hand_word(seat.party);
        let word = self.claim_word(&mut seat.inner, at, hand);
        if word != READY {
            return Err(word);
        }
        let slot = self.table.shared.exchange(&mut seat.inner, at, Slot::Blank);
        seat.inner.turn();
        match slot {
            Slot::Task(job) => Ok(job),
            _ => unreachable!(),
        }
    }

    /// The atomic step of a claim, which is allowed: if the word is `READY` it becomes that of the party's hand, and
    /// the seat takes the slot. Returns the word that it found.
    #[tactic(none)]
    fn claim_word(
        &self,
        inner: &mut atomic_table::Seat<Slot<J, D>, Place<D>>,
        at: usize,
        hand: u64,
    ) -> u64
        requires table { inner.old.table_id ≡ self.now.table.shared.table_id }
        requires cell { at < self.now.table.shared.table_id.words }
        requires allowed { let slots = self.now.table.shared.table_id.slots in
            ClaimIsAllowed R.owed slots (submitters_of self.now) (workers_of self.now) inner.old.id at hand inner.old.me }
        ensures table { inner.new.table_id ≡ inner.old.table_id }
        ensures told { ClaimTold R.owed self.now.table.shared.table_id.slots at hand inner.old.me result inner.new.me }
    {
        let table = &self.table.shared;
        table.compare_exchange::<Claim<R>>(inner, at, READY, hand)
    }

    /// Finishes the first cell in the hand of a party at rest: the cell gets the result, which is the one that its job
    /// is owed.
    pub fn finish(&self, seat: &mut PartySeat<J, D>, cell: u32, done: D)
        requires front { IsOf self.now seat.old }
        requires rest { (view_of seat.old).phase ≡ Rest }
        requires first { IsFirst cell done (view_of seat.old).hand }
        ensures front { IsOf self.now seat.new }
        ensures hand { (view_of seat.old).hand ≡ (cell, done) ∷ (view_of seat.new).hand }
        ensures view { view_of seat.new ≡ after_finish (view_of seat.old) (view_of seat.new).hand }
        ensures step { Did R.owed seat.old (finishing cell done) seat.new }
    {
        self.finish_returned(seat, cell, Returned::new(done, None));
    }

    /// `finish` with a result that may have its job beside it, which then goes back to the submitter.
    pub fn finish_returned(&self, seat: &mut PartySeat<J, D>, cell: u32, returned: Returned<J, D>)
        requires front { IsOf self.now seat.old }
        requires rest { (view_of seat.old).phase ≡ Rest }
        requires first { IsFirst cell returned (view_of seat.old).hand }
        ensures front { IsOf self.now seat.new }
        ensures hand { (view_of seat.old).hand ≡ (cell, returned) ∷ (view_of seat.new).hand }
        ensures view { view_of seat.new ≡ after_finish (view_of seat.old) (view_of seat.new).hand }
        ensures step { Did R.owed seat.old (finishing cell returned) seat.new }
    {
        let at = cell as usize;
        let hand = hand_word(seat.party);
        let table = &self.table.shared;
        let old = table.exchange(&mut seat.inner, at, Slot::Made(returned));
        table.compare_exchange::<Finish<R>>(&mut seat.inner, at, hand, DONE);
        match old {
            Slot::Blank => {}
            _ => unreachable!(),
        }
    }
}
