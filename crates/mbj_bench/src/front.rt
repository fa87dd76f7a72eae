//! Jobs over one front, by submitters and workers in threads, with nothing read or written, beside as many jobs in threads that
//! share nothing.
ghost use Rattle.std.specs.Prelude.{◌≤◌, length};
ghost use Rattle.mbj_bench.specs.declared.front.TheConstants.{MOST_PARTIES};

use crate::clock::{fastest, nanos_since};
use crate::kinds::{HMAC_KEY, IV, MOST_BYTES, aes_key};
use crate::line::{hundredths, print_name, print_ratio};
use crate::making::{null_job, put_auth, put_cipher};
use mbj_keys::Keys;
use mbj_types::{Auth, Cipher, Done, Job};
use mbj_work::{OpenGate, run_private, run_shared};
use std::alloc::{AllocError, Global};
use std::io::{self, Print};
use std::sync::Wait;
use std::thread::Threads;
use std::time::{Clock, Instant};

/// Who does the jobs: how many lists they are dealt to, each with a submitter, and how many workers serve the one front
/// besides. With none there is no front: threads share nothing, each with a list and a manager of its own.
#[derive(Clone, Copy)]
struct Crew(u32, Option<u32>);

/// The crews by their names.
static CREWS: [(&str, Crew); 8] = [
    ("front 1/0", Crew(1, Some(0))),
    ("front 1/1", Crew(1, Some(1))),
    ("front 1/3", Crew(1, Some(3))),
    ("front 2/2", Crew(2, Some(2))),
    ("front 4/0", Crew(4, Some(0))),
    ("front 4/4", Crew(4, Some(4))),
    ("apart 2", Crew(2, None)),
    ("apart 4", Crew(4, None)),
];

/// How many jobs there are.
const JOBS: u32 = 16_000;

/// The turns of which the fastest counts.
pub const TURNS: u32 = 24;

/// The most parties of each kind.
const MOST_PARTIES: u32 = 16;

/// What the jobs are.
#[derive(Clone, Copy)]
pub enum Work {
    /// HMAC-SHA-1.
    HmacSha1,
    /// CBC encryption, and then HMAC-SHA-256.
    CbcHmacSha256,
    /// These two, CTR with HMAC-SHA-512, and GCM, by turns.
    Mix,
}

/// Makes a job over a packet the one that a mix has at this turn.
fn prepare(alloc: Global, job: &mut Job, turn: u32) -> Result<(), AllocError> {
    match turn {
        0 => put_auth(alloc, job, Auth::HmacSha1, &HMAC_KEY, 12),
        1 => {
            put_cipher(alloc, job, Cipher::Cbc, aes_key(10), &IV)?;
            put_auth(alloc, job, Auth::HmacSha256, &HMAC_KEY, 16)
        }
        2 => {
            put_cipher(alloc, job, Cipher::Ctr, aes_key(10), &IV)?;
            put_auth(alloc, job, Auth::HmacSha512, &HMAC_KEY, 32)
        }
        _ => {
            job.auth = Auth::Gcm;
            job.tag_len = 16;
            put_cipher(alloc, job, Cipher::Gcm, aes_key(10), &IV[..12])
        }
    }
}

/// Job `number` of the work. In a mix each of four jobs that follow one another is of another kind, and so is each of four that
/// are four apart, so that two or four submitters who get the jobs by turns have all kinds.
fn job(alloc: Global, work: Work, number: u32) -> Result<Job, AllocError> {
    let turn = match work {
        Work::HmacSha1 => 0,
        Work::CbcHmacSha256 => 1,
        Work::Mix => number.wrapping_add(number / 4) % 4,
    };
    let mut job = null_job(alloc, MOST_BYTES)?;
    prepare(alloc, &mut job, turn)?;
    Ok(job)
}

/// The jobs of the work that are dealt to one of `submitters` submitters.
pub fn list(
    alloc: Global,
    work: Work,
    submitters: u32,
    submitter: u32,
) -> Result<Vec<Job>, AllocError> {
    let mut list = Vec::new(alloc);
    for number in 0..JOBS {
        if number % submitters.max(1) == submitter {
            list.push(job(alloc, work, number)?)?;
        }
    }
    Ok(list)
}

/// The jobs of the work, dealt to submitters.
fn lists(alloc: Global, work: Work, submitters: u32) -> Result<Vec<Vec<Job>>, AllocError> {
    let mut lists = Vec::new(alloc);
    for submitter in 0..submitters {
        lists.push(list(alloc, work, submitters, submitter)?)?;
    }
    Ok(lists)
}

/// How many results there are.
fn count(lists: &[Vec<Done>]) -> usize {
    let mut results = 0usize;
    for list in lists {
        results = results.wrapping_add(list.len());
    }
    results
}

/// Has the jobs done by a crew.
fn run<R: Threads + Wait + Sync>(
    rt: &R,
    alloc: Global,
    crew: Crew,
    lists: Vec<Vec<Job>>,
) -> Result<Vec<Vec<Done>>, AllocError>
    requires some { 1 ≤ length lists.items }
    requires few { length lists.items ≤ MOST_PARTIES }
{
    match crew.1 {
        Some(workers) => {
            let keys = Keys::new(alloc, Vec::new(alloc))?;
            run_shared(
                rt,
                alloc,
                &keys,
                lists,
                workers.min(MOST_PARTIES),
                &OpenGate,
            )
        }
        None => run_private(rt, alloc, lists),
    }
}

/// The nanoseconds since `start`, and how many results there are.
fn nanos_and_count(
    rt: &impl Clock,
    start: Instant,
    lists: &[Vec<Done>],
) -> io::Result<(u128, usize)> {
    Ok((nanos_since(rt, start)?, count(lists)))
}

/// The time that the jobs take a crew, in nanoseconds, and how many results there are.
fn time_of<R: Threads + Wait + Sync + Clock>(
    rt: &R,
    alloc: Global,
    crew: Crew,
    lists: Vec<Vec<Job>>,
) -> io::Result<(u128, usize)>
    requires some { 1 ≤ length lists.items }
    requires few { length lists.items ≤ MOST_PARTIES }
{
    let start = Instant::now(rt)?;
    let done = run(rt, alloc, crew, lists)?;
    nanos_and_count(rt, start, &done)
}

/// The same for jobs of the work that are dealt to the crew.
fn time_of_work<R: Threads + Wait + Sync + Clock>(
    rt: &R,
    alloc: Global,
    work: Work,
    crew: Crew,
) -> io::Result<(u128, usize)> {
    let lists = lists(alloc, work, crew.0)?;
    if lists.is_empty() || lists.len() > MOST_PARTIES as usize {
        return Ok((u128::MAX, 0));
    }
    time_of(rt, alloc, crew, lists)
}

/// Ends a line with how many results there were, after how many nanoseconds, and in how many times less time than one
/// submitter took alone.
fn print_run(rt: &impl Print, results: usize, nanos: u128, alone: u128) -> io::Result<()> {
    print!(rt; "{results} jobs {:>8} us ", nanos / 1000)?;
    print_ratio(rt, hundredths(alone, nanos), 3)?;
    println!(rt)
}

/// Prints how long the jobs of a work take each crew at least, and the least number of results of any run.
fn print_work<R: Threads + Wait + Sync + Clock + Print>(
    rt: &R,
    alloc: Global,
    name: &str,
    work: Work,
) -> io::Result<()> {
    let mut results = usize::MAX;
    let best: [u128; 8] = fastest(TURNS, |i| {
        let (nanos, count) = time_of_work(rt, alloc, work, CREWS[i % 8].1)?;
        results = count.min(results);
        Ok(nanos)
    })?;
    for i in 0..8 {
        print_name(rt, CREWS[i].0, 10)?;
        print_name(rt, name, 18)?;
        print_run(rt, results, best[i], best[0])?;
    }
    Ok(())
}

/// Prints how long the jobs of each work take each crew.
pub fn print_times<R: Threads + Wait + Sync + Clock + Print>(
    rt: &R,
    alloc: Global,
) -> io::Result<()> {
    print_work(rt, alloc, "hmac-sha1", Work::HmacSha1)?;
    print_work(rt, alloc, "cbc, hmac-sha256", Work::CbcHmacSha256)?;
    print_work(rt, alloc, "a mix", Work::Mix)
}
