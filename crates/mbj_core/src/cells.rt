ghost use Rattle.std.specs.Prelude.{◌≡◌, ◌≢◌, ◌<◌, replicate, IfOk, MatchBool, MatchOption};
ghost use Rattle.mbj_types.specs.declared.job.Job.{Job};
ghost use Rattle.mbj_types.specs.declared.done.Done.{Done};
ghost use Rattle.mbj_core.specs.Cells.{cell_of};
ghost use Rattle.mbj_core.specs.declared.cells.Slot.TheVariants as slot;
ghost use Rattle.mbj_core.specs.declared.cells.TheConstants.{MAX_SUBMITTERS};

use mbj_types::{Done, Job};
use std::alloc::{AllocError, Global};
use std::mem;

/// How many cells a submitter has.
pub const SUBMITTER_CELLS: u32 = 512;

/// The most submitters that a front has.
pub const MAX_SUBMITTERS: u32 = 16;

/// The most workers that a front has.
pub const MAX_WORKERS: u32 = 16;

/// A law: a submitter has this many cells, and a front at most this many submitters and workers.
pub fn the_front_has_these_limits()
    ensures cells { SUBMITTER_CELLS ≡ 512 }
    ensures submitters { MAX_SUBMITTERS ≡ 16 }
    ensures workers { MAX_WORKERS ≡ 16 }
{}

/// What a cell of the core holds.
#[derive(Drop)]
pub(crate) enum Slot {
    /// Nothing.
    Free,
    /// A job that no party has claimed.
    Ready(Job),
    /// A job that a party has claimed. It stays here until the party finishes it.
    Held { party: u32, job: Job },
    /// A result.
    Done(Done),
}

impl Slot {
    /// Puts this into the cell, in the place of what it holds.
    pub(crate) fn put(&mut self, slot: Slot)
        ensures { self.new ≡ slot }
    {
        *self = slot;
    }

    /// Gives a job that no party has claimed to a party. `false` exactly where there is none; then nothing changes.
    pub(crate) fn hold(&mut self, party: u32) -> bool
        ensures { MatchBool result
            ((job : Job) × (self.old ≡ slot.Ready job) × (self.new ≡ slot.Held party job))
            (((job : Job) → self.old ≢ slot.Ready job) × (self.new ≡ self.old)) }
    {
        match mem::replace(self, Slot::Free) {
            Slot::Ready(job) => {
                self.put(Slot::Held { party, job });
                true
            }
            other => {
                self.put(other);
                false
            }
        }
    }

    /// The job that the party has claimed. `None` exactly where it has claimed none here.
    pub(crate) fn held_by(&self, party: u32) -> Option<&Job>
        ensures { MatchOption result
            ((job : Job) → self.now ≢ slot.Held party job)
            (λ job. self.now ≡ slot.Held party job.now) }
    {
        match self {
            Slot::Held { party: holder, job } if *holder == party => Some(job),
            _ => None,
        }
    }

    /// Takes a result out, and leaves the cell free. `None` exactly where there is none; then nothing changes.
    pub(crate) fn take_done(&mut self) -> Option<Done>
        ensures { MatchOption result
            (((d : Done) → self.old ≢ slot.Done d) × (self.new ≡ self.old))
            (λ d. (self.old ≡ slot.Done d) × (self.new ≡ slot.Free)) }
    {
        match mem::replace(self, Slot::Free) {
            Slot::Done(done) => Some(done),
            other => {
                self.put(other);
                None
            }
        }
    }
}

/// This many cells that hold nothing.
///
/// Returns `AllocError` for want of memory.
pub(crate) fn free_cells(alloc: Global, count: usize) -> Result<Vec<Slot>, AllocError>
    ensures { IfOk result (λ v. v.items ≡ replicate count slot.Free) }
{
    let mut cells = Vec::new(alloc);
    for _ in 0..count {
        cells.push(Slot::Free)?;
    }
    Ok(cells)
}

/// The cell of a submitter's job `number`. Numbers that differ by a multiple of `SUBMITTER_CELLS` have one cell.
pub fn cell_at(submitter: u32, number: u32) -> u32
    requires submitter { submitter < MAX_SUBMITTERS }
    ensures { result ≡ cell_of submitter number }
{
    SUBMITTER_CELLS * submitter + number % SUBMITTER_CELLS
}
