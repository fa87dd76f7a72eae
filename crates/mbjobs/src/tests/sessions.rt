// Files with sessions give the same results as these files with the keys themselves.
use super::compare;
use super::parties::{Key, add_job, add_job_by};
use super::runs::{Host, ROOM, Run};
use mbj_gen::make_jobs;
use mbj_io::{Failed, MemSink};
use mbj_text::{Part, write_line};
use mbj_types::Job;
use std::alloc::Global;
use std::process::Abort;

/// How many files are compared, and how many jobs are generated for each: with 15, each of these seeds has one that names a session.
const FILES: u64 = 200;

const JOBS: u32 = 15;

/// The words of runs with few parties and with the most.
const RUNS: [&str; 3] = [
    "mbjobs run --submitters 1 --workers 0",
    "mbjobs run --submitters 3 --workers 2",
    "mbjobs run --submitters 16 --workers 16",
];

/// Whether a job of a file with sessions names one: two of three do that have a key.
fn names_session(number: usize, job: &Job) -> bool {
    number % 3 != 0 && !job.key.as_slice().is_empty()
}

/// Adds each job twice, with its key.
fn add_jobs(file: &mut MemSink, jobs: &[Job]) -> Result<(), Failed> {
    for job in jobs {
        add_job(file, job)?;
        add_job(file, job)?;
    }
    Ok(())
}

/// Adds a session with this key.
fn add_session(file: &mut MemSink, key: &[u8]) -> Result<(), Failed> {
    write_line(file, &[Part::Words("session "), Part::Hex(key)])
}

/// Adds each job twice, and a session before those of a part of them, by which they name their key.
fn add_jobs_of_sessions(file: &mut MemSink, jobs: &[Job]) -> Result<(), Failed> {
    let mut sessions: u64 = 0;
    for (number, job) in jobs.iter().enumerate() {
        if names_session(number, job) {
            add_session(file, job.key.as_slice())?;
            add_job_by(file, job, Key::Session(sessions))?;
            add_job_by(file, job, Key::Session(sessions))?;
            sessions = sessions.saturating_add(1);
        } else {
            add_job(file, job)?;
            add_job(file, job)?;
        }
    }
    Ok(())
}

fn empty_file<R: Abort>(rt: &R, alloc: Global) -> Box<MemSink> {
    let file = MemSink::new(alloc, ROOM, 1_024, &[]).expect(rt, "memory");
    Box::new(alloc, file).expect(rt, "memory")
}

/// Compares what the jobs of a seed come to with sessions and without.
fn compare_files<R: Host>(rt: &R, alloc: Global, seed: u64) {
    let jobs = make_jobs(alloc, seed, JOBS).expect(rt, "memory");
    let mut plain = empty_file(rt, alloc);
    add_jobs(&mut *plain, &jobs).expect(rt, "room");
    let mut named = empty_file(rt, alloc);
    add_jobs_of_sessions(&mut *named, &jobs).expect(rt, "room");
    let one = Run::new(RUNS[0], plain.held()).end(rt, alloc);
    assert!(rt;
        one.status == 0 && plain.held() != named.held(),
        "seed {seed}"
    );
    for words in &RUNS {
        Run::new(*words, named.held()).check(rt, alloc, 0, one.out.held());
    }
}

#[test]
fn sessions_change_no_result(rt: HostRuntime) {
    for seed in 0..FILES {
        compare_files(&rt, rt.alloc(), seed);
    }
}

/// SP 800-38A, F.2.1: its first block, with the key of a session.
pub(super) const SESSION_JOB: &str =
    "session 2b7e151628aed2a6abf7158809cf4f3c\ncbc enc ch @0 000102030405060708090a0b0c0d0e0f 0 16 null - - 0 0 0 6bc1bee22e409f96e93d7e117393172a\n";

pub(super) const SESSION_RESULT: &str = "0 ok 7649abac8119b246cee98e9b12e9197d -\n";

const GOOD: [&str; 4] = [
    "session 2b7e151628aed2a6abf7158809cf4f3c\ncbc enc ch @0 000102030405060708090a0b0c0d0e0f 0 16 null - - 0 0 0 6bc1bee22e409f96e93d7e117393172a\n => 0 ok 7649abac8119b246cee98e9b12e9197d -\n",
    "session 00000000000000000000000000000000\nsession 2b7e151628aed2a6abf7158809cf4f3c\ncbc enc ch @1 000102030405060708090a0b0c0d0e0f 0 16 null - - 0 0 0 6bc1bee22e409f96e93d7e117393172a\n => 0 ok 7649abac8119b246cee98e9b12e9197d -\n",
    "session 2b7e151628aed2a6abf7158809cf4f3c\nnull enc ch @0 - 0 0 null - - 0 0 0 6bc1\n => 0 ok 6bc1 -\n",
    "session 2b7e151628aed2a6abf7158809cf4f3c\n => ",
];

const BAD: [&str; 5] = [
    "session 2b7e151628aed2a6abf7158809cf4f3c\ncbc enc ch @1 000102030405060708090a0b0c0d0e0f 0 16 null - - 0 0 0 6bc1bee22e409f96e93d7e117393172a\n => mbjobs: line 2: field 4\n",
    "session\n => mbjobs: line 1: field 0\n",
    "session 00 00\n => mbjobs: line 1: field 0\n",
    "session -\n => mbjobs: line 1: field 2\n",
    "null enc ch @0 - 0 0 null - - 0 0 0 -\nsession 2b7e151628aed2a6abf7158809cf4f3c\n => mbjobs: line 1: field 4\n",
];

#[test]
fn session_lines_are_read(rt: HostRuntime) {
    compare(&rt, rt.alloc(), 0, &GOOD);
    compare(&rt, rt.alloc(), 5, &BAD);
}

/// How long the session's line is. Its key begins after 8 bytes, and LF is the last byte.
const SESSION_BYTES: usize = 41;

/// The status and the text of the run of its first `length` bytes.
fn told_of(length: usize) -> (u8, &'static str) {
    match length {
        0 => (0, ""),
        // A job line with one field, or a session line without a key.
        1..=7 => (5, "mbjobs: line 1: field 0\n"),
        // Fewer than the 32 digits of a key.
        8..=39 => (5, "mbjobs: line 1: field 2\n"),
        _ => (0, ""),
    }
}

#[test]
fn every_prefix_of_a_session_line_is_read_as_it_stands(rt: HostRuntime) {
    for length in 0..=SESSION_BYTES {
        let (status, text) = told_of(length);
        let front = SESSION_JOB.as_bytes();
        assert!(rt; length <= front.len());
        Run::new(RUNS[0], &front[..length]).check(&rt, rt.alloc(), status, text.as_bytes());
    }
}
