use super::draws::{Draws, REPLAY};
use super::parties::generated_file;
use super::runs::{Ending, Host, Run, check_digest};
use sha2::{Digest, Sha256};
use std::alloc::{AllocError, Global};
use std::process::Abort;

/// How many inputs of a kind there are.
const SEEDS: u64 = 64;

/// Edits draw from another seed than the jobs.
const EDITS: u64 = 1_000;

/// What a byte of a file is replaced by.
const HOSTILE: [u8; 16] = *b" \n\r#%-0fgZ\t\xff\x00,5@";

/// Kinds of inputs.
enum Kind {
    /// Up to 255 random bytes.
    Bytes,
    /// Three jobs, in which up to three bytes are replaced.
    Jobs,
    /// Three jobs and twelve commands, in which up to three bytes are replaced.
    Script,
}

const WORDS: &str = "mbjobs run --submitters 2 --workers 2";

// How 64 inputs of random bytes end, whatever the command, and how 64 good files in which bytes are replaced end.
const BYTES: &str = "6f81ab6aed41b53d9403fe96701258a75477e6b510c5abb443a02bcf75b77eb9";

const RUNS: &str = "9bec36b8d8937f99c885f03dfac96d22f103f2e19a983c28da38ee2604ff625b";

const TRACES: &str = "52989b950802c3706075e0141c76f7d9cb70162cb83a82b6a0d1c45c0ff5ab25";

const BURSTS: &str = "4a2be3481093c31be3d5d346ff0621f9aca922f72ab8283d465ef5374a285c66";

const REPLAYS: &str = "870cb4d9d75cc2269a35cdee193bc1fd072a172a51b9cd871122321680cc8a56";

/// Commands and kinds of inputs, and the digests of how 64 of them end, by `tests/faults/reference.py random`.
const CASES: [(&str, Kind, &str); 8] = [
    (WORDS, Kind::Bytes, BYTES),
    (WORDS, Kind::Jobs, RUNS),
    ("mbjobs trace", Kind::Bytes, BYTES),
    ("mbjobs trace", Kind::Jobs, TRACES),
    ("mbjobs burst --size 2", Kind::Bytes, BYTES),
    ("mbjobs burst --size 2", Kind::Jobs, BURSTS),
    (REPLAY, Kind::Bytes, BYTES),
    (REPLAY, Kind::Script, REPLAYS),
];

fn random_bytes(alloc: Global, draws: &mut Draws) -> Result<Vec<u8>, AllocError> {
    let mut bytes = Vec::new(alloc);
    for _ in 0..draws.byte() {
        bytes.push(draws.byte())?;
    }
    Ok(bytes)
}

/// Replaces up to three bytes of a file.
fn edit(file: &mut Vec<u8>, draws: &mut Draws) {
    for _ in 0..draws.below(4) {
        let high = draws.byte() as usize;
        let place = 256 * high + draws.byte() as usize;
        let count = file.len().max(1);
        let edited = HOSTILE[draws.below(16) as usize];
        if let Some(byte) = file.get_mut(place % count) {
            *byte = edited;
        }
    }
}

/// Three jobs, and twelve commands for a script, in which bytes are replaced.
fn edited_file<R: Abort>(rt: &R, alloc: Global, seed: u64, is_script: bool) -> Vec<u8> {
    let mut draws = Draws {
        state: seed.wrapping_add(EDITS),
    };
    let mut file = generated_file(rt, alloc, seed, 3);
    if is_script {
        draws.add_script(&mut *file, 12).expect(rt, "room");
    }
    let mut edited = file.held().to_vec(alloc).expect(rt, "memory");
    edit(&mut edited, &mut draws);
    edited
}

/// The input of a kind and a seed.
fn input_of<R: Abort>(rt: &R, alloc: Global, kind: &Kind, seed: u64) -> Vec<u8> {
    match kind {
        Kind::Bytes => random_bytes(alloc, &mut Draws { state: seed }).expect(rt, "memory"),
        Kind::Jobs => edited_file(rt, alloc, seed, false),
        Kind::Script => edited_file(rt, alloc, seed, true),
    }
}

/// Adds how a command ends on an input: a line of its status, which has one digit, and then what it writes.
fn add_ending<R: Host>(endings: &mut Sha256, rt: &R, alloc: Global, words: &str, input: &[u8]) {
    let ending = Run::new(words, input).end(rt, alloc);
    endings.update([b'0'.wrapping_add(ending.status), b'\n'].as_slice());
    endings.update(ending.out.held());
    endings.update(ending.err.held());
}

/// Compares the digest of how a command ends on inputs of a kind.
fn compare<R: Host>(rt: &R, alloc: Global, words: &str, kind: &Kind, digest: &str) {
    let mut endings = Sha256::new();
    for seed in 0..SEEDS {
        let input = input_of(rt, alloc, kind, seed);
        add_ending(&mut endings, rt, alloc, words, &input);
    }
    check_digest(rt, &endings.finalize(), digest, &words);
}

#[test]
fn commands_end_on_random_inputs_as_they_are_to(rt: HostRuntime) {
    for (words, kind, digest) in &CASES {
        compare(&rt, rt.alloc(), words, kind, digest);
    }
}

/// Sees that a run of no jobs left its input as it was, and wrote a summary.
fn check_left<R: Abort>(rt: &R, ending: &Ending, input: &[u8]) {
    assert!(rt; ending.status == 0 && ending.input.rest() == input);
    assert!(rt; ending.out.held().starts_with(b"jobs 0\nok 0\n"));
}

// No byte of the input is read, whose first read would fail, and a summary is written.
#[test]
fn gen_reads_no_input(rt: HostRuntime) {
    let words = "mbjobs gen --seed 1 --jobs 0 --submitters 1 --workers 1";
    let input = input_of(&rt, rt.alloc(), &Kind::Bytes, 1);
    let run = Run::by(words, &input, (64, &[0]), (64, &[]));
    check_left(&rt, &run.end(&rt, rt.alloc()), &input);
}
