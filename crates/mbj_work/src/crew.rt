// The parties of a run, and the threads in which they work.
ghost use Rattle.std.specs.Prelude.{◌≡◌, ℕ, ◌≤◌, [], All, IfOk, OnOk, Some, length, map, vec_len};
ghost use Rattle.std.specs.List.{AllZip};
ghost use Rattle.std.specs.Thread.{IsSync};
ghost use Rattle.mbj_front.specs.Seats.{submitters_of};
ghost use Rattle.mbj_work.specs.Inside.Runs.{AreSeatsFrom, HasJobs, HasResults, MayServe};

use crate::gate::Gate;
use crate::submitter::Submitter;
use crate::worker::{Flags, Worker};
use mbj_front::{Front, Seat};
use mbj_keys::Keys;
use mbj_types::Job;
use std::alloc::{AllocError, Global};
use std::collections::VecDeque;
use std::sync::Wait;
use std::sync::atomic::AtomicBool;
use std::sync::atomic::Ordering::SeqCst;
use std::thread;
use std::thread::{Threads, join_mut};

/// A submitter for each list of jobs, with the first of the seats that are left.
///
/// Returns `AllocError` for want of memory.
pub(crate) fn make_submitters(
    alloc: Global,
    front: &Front,
    lists: Vec<Vec<Job>>,
    seats: &mut VecDeque<Seat>,
) -> Result<Vec<Submitter>, AllocError>
    requires seats { AreSeatsFrom front.now 0 seats.old.items }
    requires submitters { vec_len lists ≤ submitters_of front.now }
    requires enough { vec_len lists ≤ length seats.old.items }
    ensures jobs { IfOk result (λ v. map (λ s. s.jobs) v.items ≡ map Some lists.items) }
    ensures ready { IfOk result (λ v. All (HasJobs front.now) v.items) }
    ensures rest { OnOk result (AreSeatsFrom front.now (vec_len lists) seats.new.items) }
{
    let mut submitters = Vec::with_capacity(alloc, lists.len())?;
    for jobs in lists {
        let Some(seat) = seats.pop_front() else {
            unreachable!()
        };
        let submitter = Submitter::new(alloc, front, seat, jobs)?;
        submitters.push(submitter)?;
    }
    Ok(submitters)
}

/// A worker for each seat that is left.
///
/// Returns `AllocError` for want of memory.
pub(crate) fn make_workers(
    alloc: Global,
    front: &Front,
    mut seats: VecDeque<Seat>,
) -> Result<Vec<Worker>, AllocError>
    requires { (n : ℕ) × AreSeatsFrom front.now n seats.items }
    ensures { IfOk result (λ v. All (MayServe front.now) v.items) }
{
    let mut workers = Vec::with_capacity(alloc, seats.len())?;
    while let Some(seat) = seats.pop_front() {
        let worker = Worker::new(alloc, front, seat);
        workers.push(worker)?;
    }
    Ok(workers)
}

/// Runs the last submitter in this thread, and each other in a thread of its own if one can be started. This thread
/// starts them all: a system may leave what a thread starts on that thread's core for a while.
#[cycle(calls)]
fn run_each<R: Threads + Wait + Sync, G: Gate + Sync>(
    rt: &R,
    front: &Front,
    keys: &Keys,
    gate: &G,
    submitters: &mut [Submitter],
)
    requires { All (HasJobs front.now) submitters.old }
    ensures { AllZip HasResults submitters.old submitters.new }
{
    let Some((first, rest)) = submitters.split_first_mut() else {
        return;
    };
    if rest.is_empty() {
        first.run(rt, front, keys, gate);
        return;
    }
    join_mut(
        rt,
        &mut ||
            requires { IsSync R.row × IsSync G.row × HasJobs front.now first.now }
            ensures { HasResults first.entry.now first.exit.now }
        { first.run(rt, front, keys, gate) },
        &mut ||
            requires { IsSync R.row × IsSync G.row × All (HasJobs front.now) rest.now }
            ensures { AllZip HasResults rest.entry.now rest.exit.now }
        { run_each(rt, front, keys, gate, rest) },
    );
}

/// Runs the submitters beside the workers, and sets the workers' stop flag once all submitters are done. A worker whose
/// thread can't be started is left out.
///
/// Returns `AllocError`, once all have returned, if there was no memory for a worker's party.
pub(crate) fn run_beside<R: Threads + Wait + Sync, G: Gate + Sync>(
    rt: &R,
    front: &Front,
    keys: &Keys,
    gate: &G,
    mut submitters: Vec<Submitter>,
    workers: Vec<Worker>,
) -> Result<Vec<Submitter>, AllocError>
    requires submitters { All (HasJobs front.now) submitters.items }
    requires workers { All (MayServe front.now) workers.items }
    ensures { IfOk result (λ v. AllZip HasResults submitters.items v.items) }
{
    let flags = Flags {
        stop: AtomicBool::new(false),
        refused: AtomicBool::new(false),
    };
    let shared = &flags;
    let done = thread::scope(
        thread::scope_env(),
        rt,
        |scope| -> Vec<Submitter>
            requires { All (HasJobs front.now) submitters.items × All (MayServe front.now) workers.items }
            ensures { AllZip HasResults submitters.items result.items }
        {
            for worker in workers {
                let _refused = scope
                    .spawn(
                        move ||
                            requires { MayServe front.now worker }
                        { worker.serve(rt, front, keys, gate, shared) },
                    )
                    .is_err();
            }
            run_each(rt, front, keys, gate, submitters.as_mut_slice());
            shared.stop.store(true, SeqCst);
            submitters
        },
    );
    if flags.refused.load(SeqCst) {
        return Err(AllocError);
    }
    Ok(done)
}
