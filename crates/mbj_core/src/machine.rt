ghost use Rattle.std.specs.Prelude.{◌≡◌, ◌≢◌, ◌+◌, ◌*◌, ◌<◌, ◌≤◌, ◌↔◌, ◌⊎◌, IsErr, IfOk, IfErr, IfSome, OnOk, IfNone, MatchOption};
ghost use Rattle.std.specs.Borrow.{sem};
ghost use Rattle.mbj_types.specs.Result.{result_of};
ghost use Rattle.mbj_types.specs.declared.job.Job.{Job};
ghost use Rattle.mbj_types.specs.declared.done.Done.{Done};
ghost use Rattle.mbj_core.specs.declared.cells.TheConstants.{MAX_SUBMITTERS, MAX_WORKERS, SUBMITTER_CELLS};
ghost use Rattle.mbj_core.specs.Parties.{FrontState, new_front};
ghost use Rattle.mbj_core.specs.Lawful.{Lawful};
ghost use Rattle.mbj_core.specs.Events.{post, finish, collect, carried_out};
ghost use Rattle.mbj_core.specs.Answers.{post_answer, collect_answer};
ghost use Rattle.mbj_core.specs.CoreStates.{new_core, out_of, first_cell, HasJob, HasHand, HasResult, posted, finished, with_result_collected};
ghost use Rattle.mbj_core.specs.Stands.{StandsFor, Leads, IsBacked};

use crate::cells::{SUBMITTER_CELLS, Slot, cell_at, free_cells};
use crate::hand::{Hand, empty_hands};
use mbj_types::{Done, Job, PostFull};
use std::alloc::{AllocError, Global};
use std::marker::Model;

/// A submitter's jobs that are out: posted, and their results not collected.
#[derive(Clone, Copy)]
pub(crate) struct JobsOut {
    /// The number of the earliest one, or of the next job if none is out, modulo `SUBMITTER_CELLS`.
    pub first: u32,
    /// How many there are.
    pub count: u32,
}

/// Submitters, each with `SUBMITTER_CELLS` cells, and workers. A submitter's jobs are counted from 0, and job
/// `n` of submitter `s` has cell `SUBMITTER_CELLS * s + n % SUBMITTER_CELLS`. Party `p` is submitter `p`, and from the
/// number of submitters on a worker; every party may claim jobs and finish them.
///
/// Only `new` takes memory.
///
/// ```
/// match core.post(s, job(alloc, byte)?) {
///     Ok(()) => Ok(None),
///     Err(PostFull(job)) => Ok(byte_of(&job.packet)),
/// }
/// ```
#[derive(Drop)]
pub struct Core {
    submitters: u32,
    workers: u32,
    cells: Vec<Slot>,
    hands: Vec<Hand>,
    outs: Vec<JobsOut>,
}

impl Model for Core {
    ghost use Rattle.mbj_core.specs.CoreStates.{CoreState};

    ghost Value = { CoreState };

    ghost use Rattle.mbj_core.specs.Inside.Fields.{state_of, IsCore};

    ghost view = { state_of };

    ghost invariant = { IsCore };
}

impl Core {
    ghost use Rattle.mbj_core.specs.Claims.{ClaimEnds};

    /// A core in which nothing is posted, for 1 to `MAX_SUBMITTERS` submitters and up to `MAX_WORKERS` workers.
    ///
    /// Returns `AllocError` for want of memory.
    pub fn new(alloc: Global, submitters: u32, workers: u32) -> Result<Core, AllocError>
        requires submitters { (1 ≤ submitters) × (submitters ≤ MAX_SUBMITTERS) }
        requires workers { workers ≤ MAX_WORKERS }
        ensures empty { IfOk result (λ core. core ≡ new_core submitters workers) }
        ensures stands { IfOk result (λ core. StandsFor core new_front) }
    {
        let cells = free_cells(alloc, (SUBMITTER_CELLS * submitters) as usize)?;
        let hands = empty_hands(alloc, (submitters + workers) as usize)?;
        Ok(Core {
            submitters,
            workers,
            cells,
            hands,
            outs: vec![in alloc; JobsOut { first: 0, count: 0 }; submitters as usize]?,
        })
    }

    /// How many submitters there are.
    pub fn submitters(&self) -> u32
        ensures { (result ≡ self.now.submitters) × (1 ≤ result) × (result ≤ MAX_SUBMITTERS) }
    {
        self.submitters
    }

    /// How many workers there are.
    pub fn workers(&self) -> u32
        ensures { (result ≡ self.now.workers) × (result ≤ MAX_WORKERS) }
    {
        self.workers
    }

    /// How many jobs of a submitter are out: posted, and their results not collected.
    pub fn out(&self, s: u32) -> u32
        requires submitter { s < self.now.submitters }
        ensures out { result ≡ out_of self.now s }
        ensures within { result ≤ SUBMITTER_CELLS }
    {
        self.outs[s as usize].count
    }

    /// The cell of a submitter's earliest job that is out, or of its next job if none is out.
    pub fn first_cell(&self, s: u32) -> u32
        requires submitter { s < self.now.submitters }
        ensures cell { result ≡ first_cell self.now s }
        ensures within { result < SUBMITTER_CELLS * self.now.submitters }
    {
        cell_at(s, self.outs[s as usize].first)
    }

    /// Posts a job of a submitter. Returns the job itself exactly where `SUBMITTER_CELLS` of this submitter are
    /// out; then nothing changes.
    pub fn post(&mut self, s: u32, job: Job) -> Result<(), PostFull>
        requires submitter { s < self.old.submitters }
        ensures full { IsErr result ↔ (out_of self.old s ≡ SUBMITTER_CELLS) }
        ensures posted { OnOk result (self.new ≡ posted self.old s job) }
        ensures back { IfErr result (λ e. (e.0 ≡ job) × (self.new ≡ self.old)) }
        ensures leads { Leads self.old (post s job) (post_answer result) self.new }
    {
        let submitter = s as usize;
        let out = self.outs[submitter];
        if out.count == SUBMITTER_CELLS {
            return Err(PostFull(job));
        }
        let next = cell_at(s, out.first + out.count);
        self.cells[next as usize].put(Slot::Ready(job));
        self.outs[submitter] = JobsOut {
            count: out.count + 1,
            ..out
        };
        Ok(())
    }

    /// Gives a cell's job to a party, and lends it; it stays in the core until the party finishes it. `None` exactly
    /// where the cell isn't ready; then nothing changes.
    pub fn claim(&mut self, p: u32, cell: u32) -> Option<&Job>
        requires party { p < self.old.submitters + self.old.workers }
        requires cell { cell < SUBMITTER_CELLS * self.old.submitters }
        ensures* claims { sem 𝓛 (ClaimEnds self.entry p cell result) }
        ensures ready { IfSome result (λ job. HasJob self.old cell job.now) }
        ensures unready { IfNone result ((job : Job) → ¬ HasJob self.old cell job) }
    {
        let at = cell as usize;
        if !self.cells[at].hold(p) {
            return None;
        }
        self.hands[p as usize].push(cell);
        self.cells[at].held_by(p)
    }

    /// The job of a cell in a party's hand. `None` exactly where that hand doesn't have the cell.
    pub fn held_job(&self, p: u32, cell: u32) -> Option<&Job>
        requires cell { cell < SUBMITTER_CELLS * self.now.submitters }
        ensures held { IfSome result (λ job. HasHand self.now cell p (result_of job.now)) }
        ensures none { IfNone result ((d : Done) → ¬ HasHand self.now cell p d) }
    {
        self.cells[cell as usize].held_by(p)
    }

    /// Takes a cell out of a party's hand, and puts the result of its job there. The cell is in that hand, and the
    /// result is that of its job.
    pub fn finish(&mut self, p: u32, cell: u32, done: Done)
        requires party { p < self.old.submitters + self.old.workers }
        requires held { HasHand self.old cell p done }
        ensures finished { self.new ≡ finished self.old p cell done }
        ensures leads { Leads self.old (finish p cell done) carried_out self.new }
    {
        self.hands[p as usize].take_out(cell);
        self.cells[cell as usize].put(Slot::Done(done));
    }

    /// Takes the result of a submitter's earliest job that is out. `None` exactly where none is out or the earliest
    /// has no result yet; then nothing changes.
    pub fn collect(&mut self, s: u32) -> Option<Done>
        requires submitter { s < self.old.submitters }
        ensures some_out { IfSome result (λ _. out_of self.old s ≢ 0) }
        ensures done { IfSome result (λ d. HasResult self.old (first_cell self.old s) d) }
        ensures none { IfNone result
            ((out_of self.old s ≡ 0) ⊎ ((d : Done) → ¬ HasResult self.old (first_cell self.old s) d)) }
        ensures collected { MatchOption result (self.new ≡ self.old) (λ _. self.new ≡ with_result_collected self.old s) }
        ensures leads { Leads self.old (collect s) (collect_answer result) self.new }
    {
        let submitter = s as usize;
        let out = self.outs[submitter];
        if out.count == 0 {
            return None;
        }
        let at = cell_at(s, out.first) as usize;
        let done = self.cells[at].take_done()?;
        self.outs[submitter] = JobsOut {
            first: (out.first + 1) % SUBMITTER_CELLS,
            count: out.count - 1,
        };
        Some(done)
    }

    /// A law: a core stands for at least one state.
    pub fn stands_for_a_state(&self)
        ensures { IsBacked self.now }
    {
        let _ = &self.submitters;
    }

    /// A law: each state that a core stands for is lawful.
    pub fn stands_for_lawful_states(&self)
        ensures { (f : FrontState Job Done) → StandsFor self.now f → Lawful result_of self.now.submitters self.now.workers f }
    {
        let _ = &self.submitters;
    }
}
