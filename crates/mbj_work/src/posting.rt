// What a submitter does with its own jobs: it posts them, and collects their results in the order of its posts.
ghost use Rattle.std.specs.Prelude.{◌≡◌, ◌+◌, ◌<◌, length, slice_get, Some, IfErr, IfSome, OnErr, OnOk, MatchOption, MatchResult};
ghost use Rattle.mbj_types.specs.Result.{result_of};
ghost use Rattle.mbj_core.specs.declared.cells.TheConstants.{SUBMITTER_CELLS};
ghost use Rattle.mbj_front.specs.Views.{after_publish};
ghost use Rattle.mbj_work.specs.Calls.{posted, post_full, collected, not_yet, Makes};
ghost use Rattle.mbj_work.specs.Parties.{part_of, manager_of, IsPartyOf, Submits, after_collect, CollectsNothing};

use crate::gate::{Gate, Moment, OpenGate};
use crate::giving::ReturnedJob;
use crate::party::Party;
use mbj_core::SUBMITTER_CELLS;
use mbj_front::Front;
use mbj_types::{Done, Job, PostFull};

impl<'k> Party<'k> {
    /// Posts a job of a submitter, whose result is then due. Returns the job itself exactly where `SUBMITTER_CELLS` of
    /// this submitter are out; nothing changes then.
    pub fn post(&mut self, front: &Front, job: Job) -> Result<(), PostFull>
        requires front { IsPartyOf front.now self.old }
        requires submitter { Submits front.now self.old }
        ensures front { IsPartyOf front.now self.new }
        ensures part { OnOk result (part_of self.new ≡ after_publish (part_of self.old) (result_of job)) }
        ensures manager { manager_of self.new ≡ manager_of self.old }
        ensures back { IfErr result (λ full. (full.0 ≡ job) × (self.new ≡ self.old)) }
        ensures room { OnOk result (length (part_of self.old).due < (part_of self.old).handed + SUBMITTER_CELLS) }
        ensures full { OnErr result (length (part_of self.old).due ≡ (part_of self.old).handed + SUBMITTER_CELLS) }
        ensures call { MatchResult result (λ _. Makes (posted job) (part_of self.old) (part_of self.new))
            (λ _. Makes post_full (part_of self.old) (part_of self.new)) }
    {
        self.post_at(front, job, &OpenGate)
    }

    /// `post`, which passes the gate after the job is posted.
    pub fn post_at<G: Gate>(&mut self, front: &Front, job: Job, gate: &G) -> Result<(), PostFull>
        requires front { IsPartyOf front.now self.old }
        requires submitter { Submits front.now self.old }
        ensures front { IsPartyOf front.now self.new }
        ensures part { OnOk result (part_of self.new ≡ after_publish (part_of self.old) (result_of job)) }
        ensures manager { manager_of self.new ≡ manager_of self.old }
        ensures back { IfErr result (λ full. (full.0 ≡ job) × (self.new ≡ self.old)) }
        ensures room { OnOk result (length (part_of self.old).due < (part_of self.old).handed + SUBMITTER_CELLS) }
        ensures full { OnErr result (length (part_of self.old).due ≡ (part_of self.old).handed + SUBMITTER_CELLS) }
        ensures call { MatchResult result (λ _. Makes (posted job) (part_of self.old) (part_of self.new))
            (λ _. Makes post_full (part_of self.old) (part_of self.new)) }
    {
        if self.seat.out() == SUBMITTER_CELLS {
            return Err(PostFull(job));
        }
        front.open_cell(&mut self.seat);
        front.publish(&mut self.seat, job);
        gate.pass(self.seat.party(), Moment::Posted);
        Ok(())
    }

    /// Takes the result of a submitter's earliest job that is out. Returns `None` exactly where none is out, or where
    /// the word of that job's cell isn't `DONE`; then nothing changes but that the look at it is recorded.
    pub fn collect(&mut self, front: &Front) -> Option<Done>
        requires { IsPartyOf front.now self.old }
        ensures front { IsPartyOf front.now self.new }
        ensures result { IfSome result (λ d. slice_get (part_of self.old).due (part_of self.old).handed ≡ Some d) }
        ensures part { MatchOption result
            (CollectsNothing (part_of self.old) (part_of self.new))
            (λ _. part_of self.new ≡ after_collect (part_of self.old)) }
        ensures call { MatchOption result
            (Makes not_yet (part_of self.old) (part_of self.new))
            (λ d. Makes (collected d) (part_of self.old) (part_of self.new)) }
        ensures manager { manager_of self.new ≡ manager_of self.old }
    {
        self.collect_at(front, &OpenGate)
    }

    /// `collect`, which passes the gate after a result is collected.
    pub fn collect_at<G: Gate>(&mut self, front: &Front, gate: &G) -> Option<Done>
        requires { IsPartyOf front.now self.old }
        ensures front { IsPartyOf front.now self.new }
        ensures result { IfSome result (λ d. slice_get (part_of self.old).due (part_of self.old).handed ≡ Some d) }
        ensures part { MatchOption result
            (CollectsNothing (part_of self.old) (part_of self.new))
            (λ _. part_of self.new ≡ after_collect (part_of self.old)) }
        ensures call { MatchOption result
            (Makes not_yet (part_of self.old) (part_of self.new))
            (λ d. Makes (collected d) (part_of self.old) (part_of self.new)) }
        ensures manager { manager_of self.new ≡ manager_of self.old }
    {
        match self.collect_returned(front, gate) {
            Some(returned) => Some(returned.into_result()),
            None => None,
        }
    }

    /// `collect_at`, which gives the result with its job, if that came back.
    pub fn collect_returned<G: Gate>(&mut self, front: &Front, gate: &G) -> Option<ReturnedJob>
        requires { IsPartyOf front.now self.old }
        ensures front { IsPartyOf front.now self.new }
        ensures result { IfSome result (λ d. slice_get (part_of self.old).due (part_of self.old).handed ≡ Some d) }
        ensures part { MatchOption result
            (CollectsNothing (part_of self.old) (part_of self.new))
            (λ _. part_of self.new ≡ after_collect (part_of self.old)) }
        ensures call { MatchOption result
            (Makes not_yet (part_of self.old) (part_of self.new))
            (λ d. Makes (collected d) (part_of self.old) (part_of self.new)) }
        ensures manager { manager_of self.new ≡ manager_of self.old }
    {
        if self.seat.out() == 0 {
            return None;
        }
        match front.try_take_returned(&mut self.seat) {
            Ok(returned) => {
                front.free(&mut self.seat);
                gate.pass(self.seat.party(), Moment::Collected);
                Some(returned)
            }
            Err(_) => None,
        }
    }
}
