use super::runs::{Calls, Ending, Host, Run};
use super::sessions::{SESSION_JOB, SESSION_RESULT};
use super::{FIRST_BURST, FIRST_JOB, FIRST_RESULT, FIRST_TRACE, RUN};
use std::alloc::Global;
use std::process::Abort;

/// Commands that read, a file for each, and what they write for it.
const COMMANDS: [(&str, &str, &str); 5] = [
    (RUN, FIRST_JOB, FIRST_RESULT),
    (RUN, SESSION_JOB, SESSION_RESULT),
    ("mbjobs trace", FIRST_JOB, FIRST_TRACE),
    ("mbjobs burst --size 2", FIRST_JOB, FIRST_BURST),
    ("mbjobs replay --submitters 1 --workers 1", FIRST_JOB, ""),
];

/// How many bytes a read gives at most.
const PIECES: [u32; 3] = [5, 1, 96];

/// Compares how a run ended, one of whose reads failed or none, and how many bytes it left: it read nothing after that.
fn check_ending<R: Abort>(rt: &R, ending: &Ending, text: &str, fails: bool, left: usize) {
    let (status, out, err) = if fails {
        (3, "", "mbjobs: read failed\n")
    } else {
        (0, text, "")
    };
    assert!(rt;
        ending.is(status, out.as_bytes(), err.as_bytes()),
        "{left} bytes left"
    );
    let (rest, faults) = (ending.input.rest().len(), ending.input.faults());
    assert!(rt;
        rest == left && faults == u64::from(fails),
        "{left} bytes left"
    );
}

/// Runs a command on a file by such reads.
fn end_of<'a, R: Host>(
    rt: &R,
    alloc: Global,
    words: &'a str,
    file: &'a str,
    reads: Calls<'a>,
) -> Box<Ending> {
    Run::by(words, file.as_bytes(), reads, (64, &[])).end(rt, alloc)
}

/// Runs a command with each of its reads failing, the last of which finds the file's end, and with two that it doesn't come to, by
/// pieces of each length.
fn compare_command<R: Host>(rt: &R, alloc: Global, words: &str, file: &str, text: &str) {
    for piece in &PIECES {
        let reads = file
            .len()
            .div_ceil((*piece).max(1) as usize)
            .saturating_add(1);
        for number in 0..reads.saturating_add(2) {
            let given = (*piece as usize).saturating_mul(number);
            let left = file.len().saturating_sub(given);
            let ending = end_of(rt, alloc, words, file, (*piece, &[number as u64]));
            check_ending(rt, &ending, text, number < reads, left);
        }
    }
}

#[test]
fn each_read_that_fails_ends_the_run(rt: HostRuntime) {
    for (words, file, text) in &COMMANDS {
        compare_command(&rt, rt.alloc(), *words, *file, *text);
    }
}
