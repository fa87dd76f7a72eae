ghost use Rattle.std.specs.Prelude.{◌≡◌, ◌+◌, ◌-◌, ◌<◌, ◌≤◌, [], ◌∷◌, ◌++◌, IfOk, OnOk, Some, false, length, map, vec_capacity, vec_len};
ghost use Rattle.mbj_types.specs.Result.{result_of};
ghost use Rattle.mbj_core.specs.declared.party.Phase.TheVariants.{Rest};
ghost use Rattle.mbj_front.specs.Seats.{view_of, submitters_of, IsOf};
ghost use Rattle.mbj_work.specs.Parties.{part_of, IsPartyOf, Submits};
ghost use Rattle.mbj_work.specs.Inside.Runs.{with_due, HasJobs, HasResults};

use crate::gate::Gate;
use crate::party::Party;
use mbj_core::SUBMITTER_CELLS;
use mbj_front::{Front, Seat};
use mbj_keys::Keys;
use mbj_types::{Done, Job};
use std::alloc::{AllocError, Global};
use std::sync::Wait;

/// A submitter of a run: the seat for its party, which it makes when it runs, its jobs, and room for their results.
#[derive(Drop)]
pub(crate) struct Submitter {
    alloc: Global,
    /// Its seat and its jobs, until it runs.
    seat: Option<Seat>,
    jobs: Option<Vec<Job>>,
    results: Vec<Done>,
    /// Whether there was no memory for its party.
    is_refused: bool,
}

impl<'k> Party<'k> {
    /// Posts a job. If all cells of the submitter are in use it collects a result first, and leaves the other jobs out, so
    /// that the workers have some while it posts. So none of its posts finds the cells full.
    fn post_with_room<R: Wait, G: Gate>(
        &mut self,
        rt: &R,
        front: &Front,
        gate: &G,
        job: Job,
        results: &mut Vec<Done>,
    )
        requires front { IsPartyOf front.now self.old }
        requires submitter { Submits front.now self.old }
        requires room { vec_len results.old + (length (part_of self.old).due - (part_of self.old).handed) ≤ vec_capacity results.old }
        ensures front { IsPartyOf front.now self.new }
        ensures number { (part_of self.new).number ≡ (part_of self.old).number }
        ensures results { with_due results.new.items (part_of self.new) ≡ with_due results.old.items (part_of self.old) ++ result_of job ∷ [] }
        ensures room { vec_capacity results.new ≡ vec_capacity results.old }
    {
        self.collect_down_to(rt, front, gate, results, SUBMITTER_CELLS - 1);
        match self.post_at(front, job, gate) {
            Ok(()) => {}
            Err(_) => unreachable!(),
        }
    }

    /// Posts jobs in order, and drains.
    fn submit_all<R: Wait, G: Gate>(
        &mut self,
        rt: &R,
        front: &Front,
        gate: &G,
        jobs: Vec<Job>,
        results: &mut Vec<Done>,
    )
        requires front { IsPartyOf front.now self.old }
        requires submitter { Submits front.now self.old }
        requires room { length (with_due results.old.items (part_of self.old)) + vec_len jobs ≤ vec_capacity results.old }
        ensures front { IsPartyOf front.now self.new }
        ensures results { results.new.items ≡ with_due results.old.items (part_of self.old) ++ map result_of jobs.items }
    {
        for job in jobs {
            self.post_with_room(rt, front, gate, job, results);
        }
        self.drain(rt, front, gate, results);
    }
}

impl Submitter {
    /// A submitter with its jobs. It takes the memory for their results.
    ///
    /// Returns `AllocError` for want of memory.
    #[tactic(auto, unfolding(crate::specs::Inside::Runs::HasJobs))]
    pub(crate) fn new(
        alloc: Global,
        _front: &Front,
        seat: Seat,
        jobs: Vec<Job>,
    ) -> Result<Submitter, AllocError>
        requires front { IsOf _front.now seat }
        requires submitter { (view_of seat).number < submitters_of _front.now }
        requires rest { (view_of seat).phase ≡ Rest }
        requires hand { (view_of seat).hand ≡ [] }
        requires due { (view_of seat).due ≡ [] }
        ensures ready { IfOk result (HasJobs _front.now) }
        ensures jobs { IfOk result (λ s. s.jobs ≡ Some jobs) }
    {
        let results = Vec::with_capacity(alloc, jobs.len())?;
        Ok(Submitter {
            alloc,
            seat: Some(seat),
            jobs: Some(jobs),
            results,
            is_refused: false,
        })
    }

    /// Makes its party, which shares these keys, and has all its jobs done. If there is no memory for the party it does nothing.
    #[tactic(auto, unfolding(crate::specs::Inside::Runs::HasJobs))]
    pub(crate) fn run<R: Wait, G: Gate>(&mut self, rt: &R, front: &Front, keys: &Keys, gate: &G)
        requires { HasJobs front.now self.old }
        ensures { HasResults self.old self.new }
    {
        let (Some(seat), Some(jobs)) = (self.seat.take(), self.jobs.take()) else {
            unreachable!()
        };
        match Party::new_in(self.alloc, seat, keys) {
            Ok(mut party) => party.submit_all(rt, front, gate, jobs, &mut self.results),
            Err(AllocError) => self.is_refused = true,
        }
    }

    /// Its results.
    ///
    /// Returns `AllocError` if there was no memory for its party.
    pub(crate) fn into_results(self) -> Result<Vec<Done>, AllocError>
        ensures results { IfOk result (λ v. v ≡ self.results) }
        ensures done { OnOk result (self.is_refused ≡ false) }
    {
        if self.is_refused {
            return Err(AllocError);
        }
        Ok(self.results)
    }
}
