use super::runs::Run;
use super::{FIRST_JOB, FIRST_RESULT, RUN};

/// How long the first job's line is. The packet's 16 digits begin after 80 bytes, and LF is the last byte.
const LINE_BYTES: usize = 97;

/// The status and the text of the run of the line's first `length` bytes.
fn told_of(length: usize) -> (u8, &'static str) {
    match length {
        0 => (0, ""),
        // The line has fewer than 14 fields.
        1..=79 => (5, "mbjobs: line 1: field 0\n"),
        // The packet has no digit, or an odd number of digits.
        80 => (5, "mbjobs: line 1: field 14\n"),
        81..=95 if length % 2 == 1 => (5, "mbjobs: line 1: field 14\n"),
        // The hash is over 8 bytes, and the packet has fewer.
        82..=94 => (0, "0 invalid-args 8\n"),
        _ => (0, FIRST_RESULT),
    }
}

#[test]
fn every_prefix_of_a_line_is_read_as_it_stands(rt: HostRuntime) {
    let line = FIRST_JOB.as_bytes();
    assert!(rt; line.len() == LINE_BYTES);
    for length in 0..=LINE_BYTES {
        let (status, text) = told_of(length);
        Run::new(RUN, &line[..length]).check(&rt, rt.alloc(), status, text.as_bytes());
    }
}
