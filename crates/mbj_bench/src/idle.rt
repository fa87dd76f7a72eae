//! What a worker that finds no job costs a submitter that is busy.
ghost use Rattle.std.specs.Prelude.{◌≡◌, IfSome, vec_len};
ghost use Rattle.std.specs.Thread.{IsSync};
ghost use Rattle.mbj_core.specs.Parties.{new_party};
ghost use Rattle.mbj_front.specs.Seats.{view_of, submitters_of, IsIssued, IsOf};
ghost use Rattle.mbj_work.specs.Parties.{IsPartyOf, Submits};

use crate::clock::{fastest, nanos_since};
use crate::front::{TURNS, Work, list};
use crate::line::{hundredths, print_ratio};
use mbj_core::SUBMITTER_CELLS;
use mbj_front::{Front, Seat};
use mbj_types::Job;
use mbj_work::{HAND_ROOM, OpenGate, Party};
use std::alloc::{AllocError, Global};
use std::io::{self, Print};
use std::sync::Wait;
use std::sync::atomic::AtomicBool;
use std::sync::atomic::Ordering::SeqCst;
use std::thread::{Threads, join};
use std::time::{Clock, Instant};

/// The seats of a submitter and a worker.
fn two(front: &Front, mut seats: Vec<Seat>) -> Option<(Seat, Seat)>
    requires two { vec_len seats ≡ 2 }
    requires seats { IsIssued front.now seats.items }
    ensures first { IfSome result (λ t. IsOf front.now t.0 × (view_of t.0 ≡ new_party 0)) }
    ensures second { IfSome result (λ t. IsOf front.now t.1 × (view_of t.1 ≡ new_party 1)) }
{
    let second = seats.pop()?;
    let first = seats.pop()?;
    Some((first, second))
}

/// Posts a job into the cell and claims it at once, so that others hardly ever find one.
fn post_and_claim(front: &Front, party: &mut Party, job: Job, cell: u32)
    requires { IsPartyOf front.now party.old × Submits front.now party.old }
    ensures { IsPartyOf front.now party.new × Submits front.now party.new }
{
    match party.post(front, job) {
        Ok(()) => {
            if cell < front.cells() && party.hand() < HAND_ROOM {
                party.claim(front, cell);
            }
        }
        Err(_full) => {}
    }
}

/// Collects all results of a submitter, and returns how many there are.
fn collect_all<R: Wait>(
    rt: &R,
    alloc: Global,
    front: &Front,
    party: &mut Party,
) -> Result<usize, AllocError>
    requires { IsPartyOf front.now party.old × Submits front.now party.old }
    ensures { IsPartyOf front.now party.new × Submits front.now party.new }
{
    let mut results = Vec::with_capacity(alloc, party.out() as usize)?;
    party.drain(rt, front, &OpenGate, &mut results);
    Ok(results.len())
}

/// Posts a job into the cell and claims it, and before that collects all results if no cell is left. Returns how many
/// these are.
fn work_one<R: Wait>(
    rt: &R,
    alloc: Global,
    front: &Front,
    party: &mut Party,
    job: Job,
    cell: u32,
) -> Result<usize, AllocError>
    requires { IsPartyOf front.now party.old × Submits front.now party.old }
    ensures { IsPartyOf front.now party.new × Submits front.now party.new }
{
    let mut results = 0;
    if party.out() == SUBMITTER_CELLS {
        results = collect_all(rt, alloc, front, party)?;
    }
    post_and_claim(front, party, job, cell);
    Ok(results)
}

/// Has jobs done by one submitter who claims each job that it posts. Returns how many results there are.
fn work<R: Wait>(
    rt: &R,
    alloc: Global,
    front: &Front,
    party: &mut Party,
    jobs: Vec<Job>,
) -> Result<usize, AllocError>
    requires { IsPartyOf front.now party.old × Submits front.now party.old }
{
    let mut results = 0usize;
    let mut cell = 0;
    for job in jobs {
        results = results.wrapping_add(work_one(rt, alloc, front, party, job, cell)?);
        cell = (cell + 1) % SUBMITTER_CELLS;
    }
    Ok(results.wrapping_add(collect_all(rt, alloc, front, party)?))
}

/// The same beside a worker who serves the front.
fn work_beside<R: Threads + Wait + Sync>(
    rt: &R,
    alloc: Global,
    front: &Front,
    submitter: &mut Party,
    worker: &mut Party,
    jobs: Vec<Job>,
) -> Result<usize, AllocError>
    requires submitter { IsPartyOf front.now submitter.old × Submits front.now submitter.old }
    requires worker { IsPartyOf front.now worker.old }
{
    let stop = AtomicBool::new(false);
    let flag = &stop;
    let (_, results) = join(
        rt,
        ||
            requires { IsSync R.row × IsPartyOf front.now worker.now }
        { worker.serve(rt, front, &OpenGate, flag) },
        || -> Result<usize, AllocError>
            requires { IsPartyOf front.now submitter.now × Submits front.now submitter.now }
        {
            let results = work(rt, alloc, front, submitter, jobs);
            flag.store(true, SeqCst);
            results
        },
    );
    results
}

/// The time that the jobs take a submitter, in nanoseconds, and how many results there are.
fn time_of<R: Threads + Wait + Sync + Clock>(
    rt: &R,
    alloc: Global,
    front: &Front,
    submitter: &mut Party,
    worker: &mut Party,
    is_beside: bool,
) -> io::Result<(u128, usize)>
    requires submitter { IsPartyOf front.now submitter.old × Submits front.now submitter.old }
    requires worker { IsPartyOf front.now worker.old }
{
    let jobs = list(alloc, Work::HmacSha1, 1, 0)?;
    let start = Instant::now(rt)?;
    let results = if is_beside {
        work_beside(rt, alloc, front, submitter, worker, jobs)?
    } else {
        work(rt, alloc, front, submitter, jobs)?
    };
    Ok((nanos_since(rt, start)?, results))
}

/// The same beside a party of the second seat.
fn time_beside<R: Threads + Wait + Sync + Clock>(
    rt: &R,
    alloc: Global,
    front: &Front,
    submitter: &mut Party,
    second: Seat,
    is_beside: bool,
) -> io::Result<(u128, usize)>
    requires submitter { IsPartyOf front.now submitter.old × Submits front.now submitter.old }
    requires second { IsOf front.now second × (view_of second ≡ new_party 1) }
{
    let mut worker = Party::new(alloc, second)?;
    time_of(rt, alloc, front, submitter, &mut worker, is_beside)
}

/// The same by parties of the two seats.
fn time_of_seats<R: Threads + Wait + Sync + Clock>(
    rt: &R,
    alloc: Global,
    front: &Front,
    first: Seat,
    second: Seat,
    is_beside: bool,
) -> io::Result<(u128, usize)>
    requires first { IsOf front.now first × (view_of first ≡ new_party 0) }
    requires second { IsOf front.now second × (view_of second ≡ new_party 1) }
    requires few { submitters_of front.now ≡ 1 }
{
    let mut submitter = Party::new(alloc, first)?;
    time_beside(rt, alloc, front, &mut submitter, second, is_beside)
}

/// The same over a new front.
fn time_of_new<R: Threads + Wait + Sync + Clock>(
    rt: &R,
    alloc: Global,
    is_beside: bool,
) -> io::Result<(u128, usize)> {
    let (front, seats) = Front::new(alloc, 1, 1)?;
    match two(&front, seats) {
        Some((first, second)) => time_of_seats(rt, alloc, &front, first, second, is_beside),
        None => Ok((u128::MAX, 0)),
    }
}

/// Prints how long a submitter takes who works its own jobs, alone and beside a worker who looks at the same cells and finds
/// hardly any job, and in how many times as much time.
pub fn print_times<R: Threads + Wait + Sync + Clock + Print>(
    rt: &R,
    alloc: Global,
) -> io::Result<()> {
    let mut results = 0;
    let [alone, beside]: [u128; 2] = fastest(TURNS, |i| {
        let (nanos, count) = time_of_new(rt, alloc, i == 1)?;
        results = count;
        Ok(nanos)
    })?;
    print_alone(rt, results, alone / 1000)?;
    print_beside(rt, beside / 1000, hundredths(beside, alone))
}

/// Begins the line with how many results there were, and how many microseconds the submitter took alone.
fn print_alone(rt: &impl Print, results: usize, micros: u128) -> io::Result<()> {
    print!(rt; "front, a busy submitter {results} jobs {micros} us, ")
}

/// Ends it with how many microseconds it took beside a worker.
fn print_beside(rt: &impl Print, micros: u128, ratio: u128) -> io::Result<()> {
    print!(rt; "beside an idle worker {micros} us ")?;
    print_ratio(rt, ratio, 0)?;
    println!(rt)
}
