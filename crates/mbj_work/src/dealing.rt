ghost use Rattle.std.specs.Prelude.{◌≡◌, ◌<◌, ◌≤◌, [], All, IfOk, List, length, map, slice_get, Some, vec_capacity};
ghost use Rattle.mbj_types.specs.declared.done.Done.{Done};
ghost use Rattle.mbj_types.specs.Result.{result_of};
ghost use Rattle.mbj_core.specs.declared.cells.TheConstants.{MAX_SUBMITTERS, MAX_WORKERS};
ghost use Rattle.mbj_work.specs.Dealing.{AreDealt};

use crate::gate::Gate;
use crate::results::Results;
use crate::shared::run_shared;
use mbj_keys::Keys;
use mbj_types::{Done, Job};
use std::alloc::{AllocError, Global};
use std::sync::Wait;
use std::thread::Threads;

/// A list for each submitter, without jobs as yet and with room for `capacity` of them.
///
/// Returns `AllocError` for want of memory.
fn empty_lists(
    alloc: Global,
    submitters: usize,
    capacity: usize,
) -> Result<Vec<Vec<Job>>, AllocError>
    ensures count { IfOk result (λ lists. length lists.items ≡ submitters) }
    ensures empty { IfOk result (λ lists. All (λ list. list.items ≡ []) lists.items) }
    ensures room { IfOk result (λ lists. All (λ list. capacity ≤ vec_capacity list) lists.items) }
{
    let mut lists = Vec::with_capacity(alloc, submitters)?;
    for _ in 0..submitters {
        let list = Vec::with_capacity(alloc, capacity)?;
        lists.push_reserved(list);
    }
    Ok(lists)
}

/// Deals jobs to submitters by turns: job i is that of submitter i modulo their number.
///
/// Returns `AllocError` for want of memory.
fn deal(alloc: Global, jobs: Vec<Job>, submitters: u32) -> Result<Vec<Vec<Job>>, AllocError>
    requires { 1 ≤ submitters }
    ensures { IfOk result (λ lists. AreDealt jobs.items submitters (map (λ list. list.items) lists.items)) }
{
    let submitters = submitters as usize;
    let mut lists = empty_lists(alloc, submitters, jobs.len().div_ceil(submitters))?;
    for (i, job) in jobs.into_iter().enumerate() {
        lists[i % submitters].push_reserved(job);
    }
    Ok(lists)
}

/// Does jobs by one front, whose parties share keys: the jobs are dealt to submitters by turns, and `workers` workers serve beside
/// those. All parties but one submitter are in threads of their own, if these can be started. Returns the results in the order of
/// the jobs.
///
/// There are 1 to `MAX_SUBMITTERS` submitters, and at most `MAX_WORKERS` workers.
///
/// Returns `AllocError` for want of memory.
pub fn do_jobs<R: Threads + Wait + Sync, G: Gate + Sync>(
    rt: &R,
    alloc: Global,
    keys: &Keys,
    jobs: Vec<Job>,
    submitters: u32,
    workers: u32,
    gate: &G,
) -> Result<Results, AllocError>
    requires submitters { (1 ≤ submitters) × (submitters ≤ MAX_SUBMITTERS) }
    requires workers { workers ≤ MAX_WORKERS }
    ensures { IfOk result (λ results. results ≡ map result_of jobs.items) }
{
    let count = jobs.len();
    let lists = deal(alloc, jobs, submitters)?;
    let lists = run_shared(rt, alloc, keys, lists, workers, gate)?;
    Ok(Results::of(lists, count))
}
