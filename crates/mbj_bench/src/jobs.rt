//! Jobs through one manager, from its next cell to their results, beside full lists of the same entries and the plain
//! functions on the same packets.
ghost use Rattle.std.specs.Prelude.{◌≡◌, ◌≤◌, length};

use crate::clock::{fastest, nanos_since};
use crate::kinds::{CCM_TAG_BYTES, HMAC_KEY, IV, MOST_BYTES, NONCE_BYTES, aes_key};
use crate::line::{hundredths, megabytes, print_bytes, print_length, print_ratio};
use crate::lists::{LENGTHS, nanos_of_packets};
use crate::making::{null_job, packets, put_auth, put_cipher};
use mbj_manager::Manager;
use mbj_ring::CELLS;
use mbj_types::{Auth, Cipher, Done, Job, Kind};
use mbj_work::submit_job;
use std::alloc::{AllocError, Global};
use std::io::{self, Print};
use std::time::{Clock, Instant};

/// The jobs of a pass.
const JOBS: u32 = 512;

/// Those of each kind if there are jobs of all.
pub const SHARE: usize = JOBS as usize / Kind::ALL.len();

/// The bytes of a plain hash that are the tag: those of the shortest one.
const DIGEST_TAG_BYTES: u8 = 20;

/// Plain hashes, each with the kind whose HMACs it waits among.
const DIGESTS: [(Auth, Kind, &str); 3] = [
    (Auth::Sha1, Kind::HmacSha1, "sha1"),
    (Auth::Sha256, Kind::HmacSha256, "sha256"),
    (Auth::Sha512, Kind::HmacSha512, "sha512"),
];

/// The passes of which the fastest counts.
const PASSES: u32 = 40;

/// The jobs of a burst.
const BURST: u32 = 32;

/// By which calls jobs go through a manager.
#[derive(Clone, Copy)]
enum Calls {
    /// Those for one job.
    Single,
    /// Those for a burst.
    Burst,
}

/// What the jobs are.
#[derive(Clone, Copy)]
pub enum Work {
    /// Neither cipher nor authentication.
    Null,
    /// Those of one kind.
    One(Kind),
    /// Those of all kinds by turns.
    Mix,
    /// CTR, and CMAC with a key of 128 bits: what CCM does, by two keys.
    CtrCmac,
    /// A plain hash, which waits for the lanes of its HMAC.
    Digest(Auth),
}

/// A work and the calls by which its jobs go through a manager, to be timed by turns with another one.
#[derive(Clone, Copy)]
struct Rival {
    name: &'static str,
    work: Work,
    calls: Calls,
}

impl Rival {
    fn singly(name: &'static str, work: Work) -> Rival {
        Rival {
            name,
            work,
            calls: Calls::Single,
        }
    }
}

/// Makes a job over a packet one that waits for the lanes of a kind.
fn prepare(alloc: Global, job: &mut Job, kind: Kind) -> Result<(), AllocError> {
    match kind {
        Kind::Cbc128 => put_cipher(alloc, job, Cipher::Cbc, aes_key(10), &IV),
        Kind::Cbc192 => put_cipher(alloc, job, Cipher::Cbc, aes_key(12), &IV),
        Kind::Cbc256 => put_cipher(alloc, job, Cipher::Cbc, aes_key(14), &IV),
        Kind::Cmac128 => put_auth(alloc, job, Auth::Cmac128, aes_key(10), 16),
        Kind::Cmac256 => put_auth(alloc, job, Auth::Cmac256, aes_key(14), 16),
        Kind::HmacSha1 => put_auth(alloc, job, Auth::HmacSha1, &HMAC_KEY, 20),
        Kind::HmacSha256 => put_auth(alloc, job, Auth::HmacSha256, &HMAC_KEY, 32),
        Kind::HmacSha512 => put_auth(alloc, job, Auth::HmacSha512, &HMAC_KEY, 64),
        Kind::Ccm128 => put_ccm(alloc, job, aes_key(10)),
        Kind::Ccm192 => put_ccm(alloc, job, aes_key(12)),
        Kind::Ccm256 => put_ccm(alloc, job, aes_key(14)),
    }
}

/// Makes a job over a packet one of CCM over the whole packet, without additional data.
fn put_ccm(alloc: Global, job: &mut Job, key: &[u8]) -> Result<(), AllocError> {
    put_cipher(alloc, job, Cipher::Ccm, key, &IV[..NONCE_BYTES])?;
    job.cipher_len = job.packet.as_slice().len().min(MOST_BYTES) as u32;
    job.auth = Auth::Ccm;
    job.tag_len = CCM_TAG_BYTES;
    Ok(())
}

/// Makes a job over a packet one of CTR and CMAC over the whole packet.
fn put_ctr_cmac(alloc: Global, job: &mut Job) -> Result<(), AllocError> {
    put_cipher(alloc, job, Cipher::Ctr, aes_key(10), &IV)?;
    job.cipher_len = job.packet.as_slice().len().min(MOST_BYTES) as u32;
    put_auth(alloc, job, Auth::Cmac128, aes_key(10), 16)
}

/// Job `number` of a pass.
fn job(alloc: Global, work: Work, number: usize, len: usize) -> Result<Job, AllocError> {
    let mut job = null_job(alloc, len)?;
    match work {
        Work::Null => {}
        Work::One(kind) => prepare(alloc, &mut job, kind)?,
        Work::Mix => prepare(alloc, &mut job, Kind::ALL[number % Kind::ALL.len()])?,
        Work::CtrCmac => put_ctr_cmac(alloc, &mut job)?,
        Work::Digest(auth) => put_auth(alloc, &mut job, auth, &[], DIGEST_TAG_BYTES)?,
    }
    Ok(job)
}

/// The jobs of a pass.
fn jobs(alloc: Global, work: Work, len: usize) -> Result<Vec<Job>, AllocError> {
    let mut jobs = Vec::with_capacity(alloc, JOBS as usize)?;
    for number in 0..JOBS as usize {
        jobs.push(job(alloc, work, number, len)?)?;
    }
    Ok(jobs)
}

/// Keeps a result if one is given.
fn keep(results: &mut Vec<Done>, given: Option<Done>) -> Result<(), AllocError> {
    if let Some(done) = given {
        results.push(done)?;
    }
    Ok(())
}

/// Puts a job through a manager.
fn run_job(manager: &mut Manager, job: Job, results: &mut Vec<Done>) -> Result<(), AllocError> {
    let submitted = submit_job(manager, job);
    keep(results, submitted.flushed)?;
    keep(results, submitted.given)
}

/// Puts jobs through a manager, and keeps their results. The memory of the list stays, so that its return isn't timed.
fn run_jobs(
    manager: &mut Manager,
    jobs: &mut Vec<Job>,
    results: &mut Vec<Done>,
) -> Result<(), AllocError> {
    for job in jobs.drain(..) {
        run_job(manager, job, results)?;
    }
    for _ in 0..manager.queue_size() {
        keep(results, manager.flush())?;
    }
    Ok(())
}

/// Puts jobs into open cells, of which there are `count`.
fn fill(manager: &mut Manager, jobs: &mut Vec<Job>, count: u32)
    requires { count ≤ length manager.old.opened }
    ensures { length manager.new.opened ≡ length manager.old.opened }
{
    for index in 0..count {
        if let Some(job) = jobs.pop() {
            *manager.burst_mut(index) = job;
        }
    }
}

/// Puts the next jobs through a manager by one burst.
fn run_burst(
    manager: &mut Manager,
    jobs: &mut Vec<Job>,
    results: &mut Vec<Done>,
) -> Result<(), AllocError> {
    let count = manager.get_next_burst(BURST);
    fill(manager, jobs, count);
    results.reserve(count as usize)?;
    manager.submit_burst(count, results);
    Ok(())
}

/// Puts the jobs of a pass, none of which waits, through a manager by bursts, and keeps their results.
fn run_bursts(
    manager: &mut Manager,
    jobs: &mut Vec<Job>,
    results: &mut Vec<Done>,
) -> Result<(), AllocError> {
    for _ in 0..JOBS / BURST {
        run_burst(manager, jobs, results)?;
    }
    results.reserve(manager.queue_size() as usize)?;
    manager.flush_burst(CELLS, results);
    Ok(())
}

/// How long jobs take that are made before.
fn nanos_of_made(
    rt: &impl Clock,
    manager: &mut Manager,
    calls: Calls,
    jobs: &mut Vec<Job>,
    results: &mut Vec<Done>,
) -> io::Result<u128> {
    let start = Instant::now(rt)?;
    match calls {
        Calls::Single => run_jobs(manager, jobs, results)?,
        Calls::Burst => run_bursts(manager, jobs, results)?,
    }
    nanos_since(rt, start)
}

/// How long the work's jobs take in a manager.
fn nanos_of_jobs(
    rt: &impl Clock,
    alloc: Global,
    manager: &mut Manager,
    work: Work,
    calls: Calls,
    len: usize,
) -> io::Result<u128> {
    let mut jobs = jobs(alloc, work, len)?;
    let mut results = Vec::with_capacity(alloc, JOBS as usize)?;
    nanos_of_made(rt, manager, calls, &mut jobs, &mut results)
}

/// The fastest passes of jobs, of lists and of the plain functions. What is computed goes into `sum`, so that none of it is
/// left out.
fn fastest_passes(
    rt: &impl Clock,
    alloc: Global,
    work: Work,
    len: usize,
    sum: &mut u8,
) -> io::Result<[u128; 3]> {
    let mut packets = packets(alloc, JOBS, len)?;
    let mut manager = Manager::new(alloc)?;
    fastest(PASSES, |i| match i {
        0 => nanos_of_jobs(rt, alloc, &mut manager, work, Calls::Single, len),
        _ => nanos_of_packets(rt, alloc, i == 1, work, &mut packets, 1, sum),
    })
}

/// Prints nanoseconds a job and MB/s, and in how many times less time than full lists and than the plain functions.
fn print_speed(rt: &impl Print, best: [u128; 3], len: usize) -> io::Result<()> {
    let [jobs, lists, plain] = best;
    let nanos = jobs / JOBS as u128;
    let rate = megabytes(JOBS as u128 * len as u128, jobs);
    print!(rt; " {nanos:>7} ns {rate:>6} MB/s, of lists ")?;
    print_ratio(rt, hundredths(lists, jobs), 2)?;
    print!(rt; ", of plain ")?;
    print_ratio(rt, hundredths(plain, jobs), 3)?;
    println!(rt)
}

/// Prints how fast the jobs of a work are by the length of their packets.
fn print_work(
    rt: &(impl Print + Clock),
    alloc: Global,
    name: &str,
    work: Work,
    sum: &mut u8,
) -> io::Result<()> {
    for i in 0..LENGTHS.len() {
        let best = fastest_passes(rt, alloc, work, LENGTHS[i], sum)?;
        print!(rt; "jobs, ")?;
        print_length(rt, name, 11, LENGTHS[i])?;
        print_speed(rt, best, LENGTHS[i])?;
    }
    Ok(())
}

/// The fastest passes of two rivals over packets of `len` bytes.
fn fastest_rivals(
    rt: &impl Clock,
    alloc: Global,
    first: Rival,
    second: Rival,
    len: usize,
) -> io::Result<[u128; 2]> {
    let mut manager = Manager::new(alloc)?;
    fastest(PASSES, |turn| {
        let rival = if turn == 0 { first } else { second };
        nanos_of_jobs(rt, alloc, &mut manager, rival.work, rival.calls, len)
    })
}

/// Prints how fast the jobs of a rival are beside those of another one over as many bytes.
fn print_beside(
    rt: &(impl Print + Clock),
    alloc: Global,
    first: Rival,
    second: Rival,
) -> io::Result<()> {
    for i in 0..LENGTHS.len() {
        let [one, other] = fastest_rivals(rt, alloc, first, second, LENGTHS[i])?;
        print!(rt; "jobs, ")?;
        print_length(rt, first.name, 11, LENGTHS[i])?;
        print!(rt;
            " {:>7} ns, {} {:>7} ns ",
            one / JOBS as u128,
            second.name,
            other / JOBS as u128
        )?;
        print_ratio(rt, hundredths(other, one), 2)?;
        println!(rt)?;
    }
    Ok(())
}

/// Prints how fast null jobs are by bursts, CCM beside what it is made of, and plain hashes beside HMACs.
fn print_rivals(rt: &(impl Print + Clock), alloc: Global) -> io::Result<()> {
    let singles = Rival::singly("one by one", Work::Null);
    let bursts = Rival {
        name: "null, by 32",
        work: Work::Null,
        calls: Calls::Burst,
    };
    print_beside(rt, alloc, bursts, singles)?;
    let ccm = Rival::singly("ccm128", Work::One(Kind::Ccm128));
    let parts = Rival::singly("ctr with cmac128", Work::CtrCmac);
    print_beside(rt, alloc, ccm, parts)?;
    for (auth, kind, name) in DIGESTS {
        let digest = Rival::singly(name, Work::Digest(auth));
        print_beside(
            rt,
            alloc,
            digest,
            Rival::singly(kind.name(), Work::One(kind)),
        )?;
    }
    Ok(())
}

/// Prints how fast jobs go through a manager.
pub fn print_times(rt: &(impl Print + Clock), alloc: Global) -> io::Result<()> {
    let mut sum = 0;
    print_work(rt, alloc, "null", Work::Null, &mut sum)?;
    for kind in &Kind::ALL {
        print_work(rt, alloc, kind.name(), Work::One(*kind), &mut sum)?;
    }
    print_work(rt, alloc, "a mix", Work::Mix, &mut sum)?;
    print_rivals(rt, alloc)?;
    print_bytes(rt, "checksum ", &[sum])
}
