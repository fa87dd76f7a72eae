//! Each list of jobs through a manager of its own, without a front. No product calls it: tests and the bench compare runs over a
//! front with it.

ghost use Rattle.std.specs.Prelude.{◌≡◌, ◌<◌, ℕ, IfOk, length, map, slice_index_or};
ghost use Rattle.mbj_types.specs.Result.{result_of};

use crate::task::Task;
use mbj_types::{Done, Job};
use std::alloc::{AllocError, Global};
use std::thread;
use std::thread::Threads;

/// A task for each list.
fn tasks_of(alloc: Global, lists: Vec<Vec<Job>>) -> Result<Vec<Task>, AllocError>
    ensures { IfOk result (λ ts. map (λ t. t.jobs.items) ts.items ≡ map (λ l. l.items) lists.items) }
{
    let mut tasks = Vec::with_capacity(alloc, lists.len())?;
    for jobs in lists {
        let task = Task::new(alloc, jobs)?;
        tasks.push_reserved(task);
    }
    Ok(tasks)
}

/// Runs each task in a thread of its own if one can be started.
fn run_tasks<R: Threads + Sync>(rt: &R, tasks: Vec<Task>) -> Result<Vec<Vec<Done>>, AllocError>
    ensures len { IfOk result (λ rs. length rs.items ≡ length tasks.items) }
    ensures each { IfOk result (λ rs. (i : ℕ) (d : _) (t : _) → i < length tasks.items
        → (slice_index_or rs.items i d).items ≡ map result_of (slice_index_or tasks.items i t).jobs.items) }
{
    thread::map_vec(rt, tasks, &|task: Task| task.run())
}

/// Does each list of jobs by a manager of its own, in a thread of its own if one can be started, and returns the
/// results of each list, in order.
///
/// Returns `AllocError` for want of memory.
pub fn run_private<R: Threads + Sync>(
    rt: &R,
    alloc: Global,
    lists: Vec<Vec<Job>>,
) -> Result<Vec<Vec<Done>>, AllocError>
    ensures { IfOk result (λ rs. map (λ r. r.items) rs.items ≡ map (λ l. map result_of l.items) lists.items) }
{
    let tasks = tasks_of(alloc, lists)?;
    run_tasks(rt, tasks)
}
