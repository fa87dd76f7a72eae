use super::RUN;
use super::runs::{Host, ROOM, Run};
use mbj_gen::make_jobs;
use mbj_io::{Failed, MemSink};
use mbj_text::{Part, write_line, write_parts};
use mbj_types::Job;
use std::alloc::{AllocError, Global};
use std::process::Abort;

const SUBMITTERS: [u8; 4] = [1, 2, 3, 16];

const WORKERS: [u8; 3] = [0, 1, 16];

// The words of a job file, in the order of the values that they spell.
const CIPHERS: [&str; 5] = ["null", "cbc", "ctr", "gcm", "ccm"];

const DIRS: [&str; 2] = ["enc", "dec"];

const ORDERS: [&str; 2] = ["ch", "hc"];

const AUTHS: [&str; 16] = [
    "null",
    "hmac-sha1",
    "hmac-sha224",
    "hmac-sha256",
    "hmac-sha384",
    "hmac-sha512",
    "cmac128",
    "cmac256",
    "gcm",
    "ccm",
    "sha1",
    "sha224",
    "sha256",
    "sha384",
    "sha512",
    "gmac",
];

/// How a job's line tells the cipher's key: by its bytes, or by a session that has it.
#[derive(Clone, Copy)]
pub(super) enum Key {
    Bytes,
    Session(u64),
}

fn add_word(file: &mut MemSink, word: &'static str) -> Result<(), Failed> {
    write_parts(file, &[Part::Words(word), Part::Words(" ")])
}

fn add_key(file: &mut MemSink, job: &Job, key: Key) -> Result<(), Failed> {
    match key {
        Key::Bytes => write_parts(file, &[Part::Hex(job.key.as_slice()), Part::Words(" ")]),
        Key::Session(number) => write_parts(
            file,
            &[Part::Words("@"), Part::Number(number), Part::Words(" ")],
        ),
    }
}

/// The word of the job's authentication. HMACs from states, which no generated job has, have none.
fn auth_word(job: &Job) -> &'static str {
    AUTHS.get(job.auth as usize).copied().unwrap_or("")
}

/// Adds the fields behind the key.
fn add_rest(file: &mut MemSink, job: &Job) -> Result<(), Failed> {
    let fields = [
        Part::Hex(job.iv.as_slice()),
        Part::Number(u64::from(job.cipher_off)),
        Part::Number(u64::from(job.cipher_len)),
        Part::Words(auth_word(job)),
        Part::Hex(job.auth_key.as_slice()),
        Part::Hex(job.aad.as_slice()),
        Part::Number(u64::from(job.hash_off)),
        Part::Number(u64::from(job.hash_len)),
        Part::Number(u64::from(job.tag_len)),
    ];
    for field in &fields {
        write_parts(file, &[*field, Part::Words(" ")])?;
    }
    write_line(file, &[Part::Hex(job.packet.as_slice())])
}

/// Adds a job as a line of a job file, which tells the cipher's key so.
pub(super) fn add_job_by(file: &mut MemSink, job: &Job, key: Key) -> Result<(), Failed> {
    add_word(file, CIPHERS[job.cipher as usize])?;
    add_word(file, DIRS[job.dir as usize])?;
    add_word(file, ORDERS[job.order as usize])?;
    add_key(file, job, key)?;
    add_rest(file, job)
}

/// Adds a job as a line of a job file.
pub(super) fn add_job(file: &mut MemSink, job: &Job) -> Result<(), Failed> {
    add_job_by(file, job, Key::Bytes)
}

/// A file of generated jobs.
pub(super) fn generated_file<R: Abort>(
    rt: &R,
    alloc: Global,
    seed: u64,
    count: u32,
) -> Box<MemSink> {
    let jobs = make_jobs(alloc, seed, count).expect(rt, "memory");
    let mut file = MemSink::new(alloc, ROOM, 1_024, &[]).expect(rt, "memory");
    for job in &jobs {
        add_job(&mut file, job).expect(rt, "room");
    }
    Box::new(alloc, file).expect(rt, "memory")
}

/// The words of a command with this many submitters and workers.
pub(super) fn words_with(
    alloc: Global,
    command: &str,
    submitters: u8,
    workers: u8,
) -> Result<String, AllocError> {
    format!(in alloc; "mbjobs {command} --submitters {submitters} --workers {workers}")
}

/// Runs a command on a file with each number of submitters and of workers, and compares what it writes.
fn compare<R: Host>(rt: &R, alloc: Global, command: &str, file: &[u8], text: &[u8]) {
    for submitters in &SUBMITTERS {
        for workers in &WORKERS {
            let words = words_with(alloc, command, *submitters, *workers).expect(rt, "memory");
            Run::new(&words, file).check(rt, alloc, 0, text);
        }
    }
}

/// How many jobs the file has, from seed 7.
pub(super) const JOBS: u32 = 1_200;

/// The digest of their results, by `tests/faults/reference.py summary 7 1200`.
pub(super) const DIGEST: &str = "3cce09cac621ea5b90f19883655d3ac02b289041c1f5a88ae5b7b0a7159fee37";

/// Compares what a file writes with each number of submitters and of workers with what it writes with one submitter.
fn compare_with_one<R: Host>(rt: &R, alloc: Global, file: &[u8]) {
    let one = Run::new(RUN, file).end(rt, alloc);
    one.check_digest(rt, DIGEST, &RUN);
    compare(rt, alloc, "run", file, one.out.held());
}

// With one and with two submitters a submitter has more jobs than cells.
#[test]
fn the_text_does_not_depend_on_submitters_and_workers(rt: HostRuntime) {
    let file = generated_file(&rt, rt.alloc(), 7, JOBS);
    compare_with_one(&rt, rt.alloc(), file.held());
}

/// Commands that generate jobs, and what these come to by a program of their own.
const SUMMARIES: [&str; 4] = [
    "gen --seed 1 --jobs 0 => jobs 0\nok 0\ninvalid 0\nbytes 0\nsha256 e3b0c44298fc1c149afbf4c8996fb92427ae41e4649b934ca495991b7852b855\n",
    "gen --seed 0 --jobs 1 => jobs 1\nok 1\ninvalid 0\nbytes 359\nsha256 9b39b258c9bbf0144181b9ee57a5282a0b4876739eef93be99691d121e1fe4b2\n",
    "gen --seed 1 --jobs 16 => jobs 16\nok 13\ninvalid 3\nbytes 7066\nsha256 800c0c47f067824b21f6847a1ab6709d99a1b767eccd8a52ae6afb961df6a1ad\n",
    "gen --seed 7 --jobs 600 => jobs 600\nok 570\ninvalid 30\nbytes 325085\nsha256 b35ae57deabbe22d57517b5f198e0ca793dbd961373cb31ce1d1f7966b13e1f3\n",
];

#[test]
fn generated_jobs_come_to_their_summary(rt: HostRuntime) {
    for row in &SUMMARIES {
        let (command, summary) = row.split_once(" => ").expect(&rt, "a row has two halves");
        compare(&rt, rt.alloc(), command, b"", summary.as_bytes());
    }
}
