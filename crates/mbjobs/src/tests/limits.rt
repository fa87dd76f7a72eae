use super::RUN;
use super::runs::{Host, Run};
use super::texts::repeated;
use std::alloc::{AllocError, Global};

const NULL_JOB: &str = "null enc ch - - 0 0 null - - 0 0 0 -\n";

/// How often a line comes before a line between and behind it, and the status and the text of such a file's run.
pub(super) type Limit = (&'static str, usize, &'static str, usize, u8, &'static str);

const OVER_JOBS: &str = "mbjobs: line 65537: over 65536 jobs\n";

const BAD_THIRD: &str = "mbjobs: line 3: field 0\n";

pub(super) const JOBS: [Limit; 3] = [
    (NULL_JOB, 65_537, "", 0, 6, OVER_JOBS),
    (NULL_JOB, 2, "null\n", 65_534, 5, BAD_THIRD),
    (NULL_JOB, 65_536, "null\n", 0, 6, OVER_JOBS),
];

const OVER_BYTES: &str = "mbjobs: input over 16777216 bytes\n";

pub(super) const BYTES: [Limit; 2] = [
    ("\n", 16_777_217, "", 0, 6, OVER_BYTES),
    ("\n", 16_777_216, "", 0, 0, ""),
];

/// The file of a limit.
pub(super) fn file_of(alloc: Global, limit: &Limit) -> Result<String, AllocError> {
    let (line, before, between, after, ..) = limit;
    repeated(alloc, &[(line, *before), (between, 1), (line, *after)])
}

/// Runs the file of each limit, and compares its status and text.
fn compare<R: Host>(rt: &R, alloc: Global, limits: &[Limit]) {
    for limit in limits {
        let file = file_of(alloc, limit).expect(rt, "memory");
        Run::new(RUN, file.as_bytes()).check(rt, alloc, limit.4, limit.5.as_bytes());
    }
}

#[test]
fn a_file_has_at_most_65536_jobs(rt: HostRuntime) {
    compare(&rt, rt.alloc(), &JOBS);
}

#[test]
fn an_input_has_at_most_16_mib(rt: HostRuntime) {
    compare(&rt, rt.alloc(), &BYTES);
}
