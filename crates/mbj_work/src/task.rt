ghost use Rattle.std.specs.Prelude.{◌≡◌, ◌+◌, ◌≤◌, [], ◌∷◌, ◌++◌, IfOk, length, map, option_to_list, vec_capacity};
ghost use Rattle.mbj_types.specs.Result.{result_of};
ghost use Rattle.mbj_work.specs.Inside.Tasks.{IsReady};

use crate::feeding::submit_job;
use mbj_manager::Manager;
use mbj_types::{Done, Job};
use std::alloc::{AllocError, Global};

/// The jobs of one submitter, and what they are done with: a manager, and room for the results.
#[derive(Drop)]
pub(crate) struct Task {
    manager: Manager,
    jobs: Vec<Job>,
    results: Vec<Done>,
    ghost ready: { IsReady manager jobs results },
}

fn keep(results: &mut Vec<Done>, done: Option<Done>)
    requires room { length results.old.items + length (option_to_list done) ≤ vec_capacity results.old }
    ensures results { results.new.items ≡ results.old.items ++ option_to_list done }
    ensures room { vec_capacity results.new ≡ vec_capacity results.old }
{
    if let Some(done) = done {
        results.push_reserved(done);
    }
}

/// Gives a job to the manager, and keeps what comes back.
fn submit(manager: &mut Manager, job: Job, results: &mut Vec<Done>)
    requires room { length (results.old.items ++ manager.old.owed) + 1 ≤ vec_capacity results.old }
    ensures order { results.new.items ++ manager.new.owed
        ≡ (results.old.items ++ manager.old.owed) ++ result_of job ∷ [] }
    ensures room { vec_capacity results.new ≡ vec_capacity results.old }
{
    let submitted = submit_job(manager, job);
    keep(results, submitted.flushed);
    keep(results, submitted.given);
}

/// Takes back all that the manager owes.
fn flush_all(manager: &mut Manager, results: &mut Vec<Done>)
    requires room { length (results.old.items ++ manager.old.owed) ≤ vec_capacity results.old }
    ensures results { results.new.items ≡ results.old.items ++ manager.old.owed }
{
    while let Some(done) = manager.flush() {
        results.push_reserved(done);
    }
}

impl Task {
    /// Takes the memory for a manager and for the results of the jobs.
    ///
    /// Returns `AllocError` for want of memory.
    pub(crate) fn new(alloc: Global, jobs: Vec<Job>) -> Result<Task, AllocError>
        ensures { IfOk result (λ t. t.jobs.items ≡ jobs.items) }
    {
        let manager = Manager::keeping_none(alloc)?;
        let results = Vec::with_capacity(alloc, jobs.len())?;
        Ok(Task {
            manager,
            jobs,
            results,
        })
    }

    /// Does the jobs in order. It takes no memory.
    pub(crate) fn run(self) -> Vec<Done>
        ensures { result.items ≡ map result_of self.jobs.items }
    {
        let Task {
            mut manager,
            jobs,
            mut results,
        } = self;
        for job in jobs {
            submit(&mut manager, job, &mut results);
        }
        flush_all(&mut manager, &mut results);
        results
    }
}
