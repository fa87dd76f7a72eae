use super::limits::{BYTES, JOBS, Limit, file_of};
use super::runs::{Ending, Host, Run};
use super::{FIRST_JOB, NO_COMMANDS, RUN};
use std::alloc::Global;
use std::process::Abort;

const BAD_SECOND: &str =
    "null enc ch - - 0 0 hmac-sha1 0b0b0b0b0b0b0b0b0b0b0b0b0b0b0b0b0b0b0b0b - 0 8 20 4869205468657265\ncbc enc ch abc - 0 0 null - - 0 0 0 -\n";

/// A file, the reads and the writes of its run that fail, and the status.
const FILES: [(&str, &[u64], &[u64], u8); 4] = [
    (FIRST_JOB, &[], &[], 0),
    (BAD_SECOND, &[], &[], 5),
    (FIRST_JOB, &[1], &[], 3),
    (FIRST_JOB, &[], &[2], 4),
];

/// Compares the status of a run. Standard error, which takes nothing, failed if anything was to be told.
fn check_ending<R: Abort>(rt: &R, ending: &Ending, status: u8, words: &str) {
    let (held, faults) = (ending.err.held(), ending.err.faults());
    let is_untold = held.is_empty() && (faults > 0) == (status != 0);
    assert!(rt;
        ending.status == status && is_untold,
        "{words}, status {status}"
    );
}

/// Runs the program with a standard error whose every write fails, and compares the status.
fn check_untold<R: Host>(rt: &R, alloc: Global, mut run: Run<'_>, status: u8) {
    run.err_room = 0;
    let ending = run.end(rt, alloc);
    check_ending(rt, &ending, status, run.words);
}

#[test]
fn an_err_that_always_fails_changes_no_status(rt: HostRuntime) {
    for (file, reads, writes, status) in &FILES {
        let run = Run::by(RUN, file.as_bytes(), (5, reads), (7, writes));
        check_untold(&rt, rt.alloc(), run, *status);
    }
    for words in &NO_COMMANDS {
        let run = Run::by(words, FIRST_JOB.as_bytes(), (5, &[]), (7, &[]));
        check_untold(&rt, rt.alloc(), run, 2);
    }
}

/// Runs the file of a limit with a standard error whose every write fails, and compares the status.
fn check_limit<R: Host>(rt: &R, alloc: Global, limit: &Limit) {
    let file = file_of(alloc, limit).expect(rt, "memory");
    let run = Run::by(RUN, file.as_bytes(), (4_096, &[]), (64, &[]));
    check_untold(rt, alloc, run, limit.4);
}

#[test]
fn an_err_that_always_fails_changes_no_limit(rt: HostRuntime) {
    for limit in &JOBS {
        check_limit(&rt, rt.alloc(), limit);
    }
    for limit in &BYTES {
        check_limit(&rt, rt.alloc(), limit);
    }
}
