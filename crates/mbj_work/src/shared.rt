ghost use Rattle.std.specs.Prelude.{◌≡◌, ◌≤◌, [], All, IfOk, OnOk, length, map, vec_capacity, vec_len};
ghost use Rattle.mbj_types.specs.Result.{result_of};
ghost use Rattle.mbj_work.specs.Inside.Runs.{IsDone};
ghost use Rattle.mbj_core.specs.declared.cells.TheConstants.{MAX_SUBMITTERS, MAX_WORKERS};

use crate::crew::{make_submitters, make_workers, run_beside};
use crate::gate::Gate;
use crate::submitter::Submitter;
use mbj_front::Front;
use mbj_keys::Keys;
use mbj_types::{Done, Job};
use std::alloc::{AllocError, Global};
use std::collections::VecDeque;
use std::sync::Wait;
use std::thread::Threads;

/// Puts the results of each submitter into a vector that has room for them.
///
/// Returns `AllocError` if there was no memory for a submitter's party.
fn results_of(
    submitters: Vec<Submitter>,
    mut given: Vec<Vec<Done>>,
) -> Result<Vec<Vec<Done>>, AllocError>
    requires none { given.items ≡ [] }
    requires room { vec_len submitters ≤ vec_capacity given }
    ensures results { IfOk result (λ v. v.items ≡ map (λ s. s.results) submitters.items) }
    ensures done { OnOk result (All IsDone submitters.items) }
{
    for submitter in submitters {
        let results = submitter.into_results()?;
        given.push_reserved(results);
    }
    Ok(given)
}

/// Does lists of jobs by one front, whose parties share keys: each list is that of a submitter, and `workers` workers serve beside
/// them. The last submitter works in this thread, and each other party in a thread of its own if one can be started. Returns the
/// results of each list, in order. Each party takes all its memory before its first job.
///
/// There are 1 to `MAX_SUBMITTERS` lists, and at most `MAX_WORKERS` workers. A worker whose thread can't be started is left
/// out.
///
/// Returns `AllocError` for want of memory, once all parties have returned.
///
/// ```
/// let keys = Keys::new(alloc, Vec::new(alloc))?;
/// let results = run_shared(rt, alloc, &keys, two_lists(alloc)?, workers, &OpenGate)?;
/// Ok(are_results_of_two_lists(&results))
/// ```
pub fn run_shared<R: Threads + Wait + Sync, G: Gate + Sync>(
    rt: &R,
    alloc: Global,
    keys: &Keys,
    lists: Vec<Vec<Job>>,
    workers: u32,
    gate: &G,
) -> Result<Vec<Vec<Done>>, AllocError>
    requires lists { (1 ≤ length lists.items) × (length lists.items ≤ MAX_SUBMITTERS) }
    requires workers { workers ≤ MAX_WORKERS }
    ensures { IfOk result (λ rs. map (λ r. r.items) rs.items ≡ map (λ l. map result_of l.items) lists.items) }
{
    let given = Vec::with_capacity(alloc, lists.len())?;
    let (front, seats) = Front::new(alloc, lists.len() as u32, workers)?;
    let mut seats = VecDeque::from(seats);
    let submitters = make_submitters(alloc, &front, lists, &mut seats)?;
    let workers = make_workers(alloc, &front, seats)?;
    let done = run_beside(rt, &front, keys, gate, submitters, workers)?;
    results_of(done, given)
}
