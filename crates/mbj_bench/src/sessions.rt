//! Jobs under one learnt session beside the same jobs by their keys alone.
ghost use Rattle.mbj_keys.specs.Sessions.{AreOf};

use crate::clock::{fastest, nanos_since};
use crate::kinds::{IV, aes_key};
use crate::line::{hundredths, print_length, print_ratio};
use crate::making::{null_job, put_cipher};
use mbj_keys::{Keys, Notes};
use mbj_manager::Manager;
use mbj_types::{Auth, Cipher, Done, Job};
use mbj_work::{Submitted, submit_job};
use std::alloc::{AllocError, Global};
use std::io::{self, Print};
use std::time::{Clock, Instant};

/// The jobs of a pass.
const JOBS: u32 = 512;

/// The passes of which the fastest counts.
const PASSES: u32 = 40;

/// The lengths of the packets, in bytes.
const LENGTHS: [usize; 2] = [64, 1_500];

/// The rounds of the key, which has 16 bytes.
const ROUNDS: usize = 10;

/// The bytes of a GCM job's IV and of its tag.
const GCM_IV_BYTES: usize = 12;

const GCM_TAG_BYTES: u8 = 16;

const CIPHERS: [(&str, Cipher); 3] = [
    ("cbc", Cipher::Cbc),
    ("ctr", Cipher::Ctr),
    ("gcm", Cipher::Gcm),
];

/// Keys of which all sessions are learnt.
#[derive(Drop)]
struct Learnt<'k> {
    keys: &'k Keys,
    notes: Notes,
    ghost of: { AreOf keys.now notes },
}

impl<'k> Learnt<'k> {
    fn new(alloc: Global, keys: &'k Keys) -> Result<Learnt<'k>, AllocError> {
        let mut notes = Notes::new(alloc, keys)?;
        keys.learn_all(alloc, &mut notes)?;
        Ok(Learnt { keys, notes })
    }

    /// Gives a job to a manager by what is learnt. If its ring is full, the earliest job is flushed first.
    fn submit_job(&mut self, manager: &mut Manager, job: Job) -> Submitted {
        let flushed = manager.make_room();
        manager.put_next(job);
        let given = manager.submit_in(self.keys, &mut self.notes);
        Submitted { flushed, given }
    }
}

/// A session with a key of `ROUNDS` rounds.
fn one_session(alloc: Global) -> Result<Keys, AllocError> {
    let key = aes_key(ROUNDS).to_vec(alloc)?;
    let mut list = Vec::new(alloc);
    list.push(key)?;
    Keys::new(alloc, list)
}

/// An encryption over a packet of `len` bytes, which names session 0.
fn job(alloc: Global, cipher: Cipher, len: usize) -> Result<Job, AllocError> {
    let mut job = null_job(alloc, len)?;
    let iv = if cipher == Cipher::Gcm {
        job.auth = Auth::Gcm;
        job.tag_len = GCM_TAG_BYTES;
        &IV[..GCM_IV_BYTES]
    } else {
        &IV[..]
    };
    put_cipher(alloc, &mut job, cipher, aes_key(ROUNDS), iv)?;
    job.session = Some(0);
    Ok(job)
}

/// The jobs of a pass.
fn jobs(alloc: Global, cipher: Cipher, len: usize) -> Result<Vec<Job>, AllocError> {
    let mut jobs = Vec::with_capacity(alloc, JOBS as usize)?;
    for _ in 0..JOBS {
        jobs.push(job(alloc, cipher, len)?)?;
    }
    Ok(jobs)
}

/// Keeps a result if one is given.
fn keep(results: &mut Vec<Done>, given: Option<Done>) -> Result<(), AllocError> {
    if let Some(done) = given {
        results.push(done)?;
    }
    Ok(())
}

/// Puts jobs through a manager, by what is learnt or by their keys alone, and keeps their results.
fn run_jobs(
    manager: &mut Manager,
    learnt: &mut Learnt,
    by_session: bool,
    jobs: &mut Vec<Job>,
    results: &mut Vec<Done>,
) -> Result<(), AllocError> {
    for job in jobs.drain(..) {
        let submitted = if by_session {
            learnt.submit_job(manager, job)
        } else {
            submit_job(manager, job)
        };
        keep(results, submitted.flushed)?;
        keep(results, submitted.given)?;
    }
    for _ in 0..manager.queue_size() {
        keep(results, manager.flush())?;
    }
    Ok(())
}

/// How long the jobs take.
fn nanos_of_jobs(
    rt: &impl Clock,
    alloc: Global,
    manager: &mut Manager,
    learnt: &mut Learnt,
    by_session: bool,
    cipher: Cipher,
    len: usize,
) -> io::Result<u128> {
    let mut jobs = jobs(alloc, cipher, len)?;
    let mut results = Vec::with_capacity(alloc, JOBS as usize)?;
    let start = Instant::now(rt)?;
    run_jobs(manager, learnt, by_session, &mut jobs, &mut results)?;
    nanos_since(rt, start)
}

/// The fastest passes by the session and by the key.
fn fastest_passes(
    rt: &impl Clock,
    alloc: Global,
    learnt: &mut Learnt,
    cipher: Cipher,
    len: usize,
) -> io::Result<[u128; 2]> {
    let mut manager = Manager::new(alloc)?;
    fastest(PASSES, |turn| {
        nanos_of_jobs(rt, alloc, &mut manager, learnt, turn == 0, cipher, len)
    })
}

/// Prints how fast jobs are by one learnt session, and beside their keys alone.
pub fn print_times(rt: &(impl Print + Clock), alloc: Global) -> io::Result<()> {
    let keys = one_session(alloc)?;
    let mut learnt = Learnt::new(alloc, &keys)?;
    for (name, cipher) in CIPHERS {
        for len in LENGTHS {
            let [named, raw] = fastest_passes(rt, alloc, &mut learnt, cipher, len)?;
            print!(rt; "sessions, ")?;
            print_length(rt, name, 7, len)?;
            print!(rt;
                " {:>7} ns, by the key {:>7} ns ",
                named / JOBS as u128,
                raw / JOBS as u128
            )?;
            print_ratio(rt, hundredths(raw, named), 2)?;
            println!(rt)?;
        }
    }
    Ok(())
}
