mod burst;
mod draws;
mod endings;
mod failing_err;
mod failing_reads;
mod failing_writes;
mod full_hand;
mod holding_gates;
mod limits;
mod longest_file;
mod parties;
mod prefixes;
mod random_inputs;
mod replay;
mod results;
mod runs;
mod seeded_replays;
mod sessions;
mod texts;
mod told_gates;
mod trace;
mod workers;
mod yielding_gates;

ghost use Rattle.std.specs.Prelude.{None};

use super::*;
use mbj_io::{Failed, Source};
use runs::{Ending, Host, Run, run_on};
use std::alloc::Global;
use std::process::Abort;

const RUN: &str = "mbjobs run --submitters 1 --workers 0";

/// RFC 2202, test case 1 of HMAC-SHA-1.
const FIRST_JOB: &str =
    "null enc ch - - 0 0 hmac-sha1 0b0b0b0b0b0b0b0b0b0b0b0b0b0b0b0b0b0b0b0b - 0 8 20 4869205468657265\n";

const FIRST_RESULT: &str = "0 ok 4869205468657265 b617318655057264e28bc0b6fb378c8ef146be00\n";

const FIRST_BURST: &str =
    "submit 1 0\nflush 1\nflush 0\n0 ok 4869205468657265 b617318655057264e28bc0b6fb378c8ef146be00\n";

const FIRST_TRACE: &str = "submit 0 none\ncompleted none\nflush 0\nflush none\n";

/// Runs the program on the file of each row `FILE => TEXT`, and compares its status and the text.
fn compare<R: Host>(rt: &R, alloc: Global, status: u8, rows: &[&str]) {
    for row in rows {
        let (file, text) = row.split_once(" => ").expect(rt, "a row has two halves");
        Run::new(RUN, file.as_bytes()).check(rt, alloc, status, text.as_bytes());
    }
}

const BAD_FILES: [&str; 7] = [
    "null enc ch abc - 0 0 null - - 0 0 0 -\n => mbjobs: line 1: field 4\n",
    "null enc ch - - 0 0 null - - 0 0 0 -\nnull  enc ch - - 0 0 null - - 0 0 0 -\n => mbjobs: line 2: field 0\n",
    "null enc ch - - 0 0 hmac-sha1 0b0b0b0b0b0b0b0b0b0b0b0b0b0b0b0b0b0b0b0b - 0 8 20 4869205468657265\ncbc enc ch abc - 0 0 null - - 0 0 0 -\n => mbjobs: line 2: field 4\n",
    "cbc  enc ch 2b7e151628aed2a6abf7158809cf4f3c 000102030405060708090a0b0c0d0e0f 0 16 null - - 0 0 0 6bc1bee22e409f96e93d7e117393172a\n => mbjobs: line 1: field 0\n",
    "null enc ch - - 0 0 null - - 0 0 0 -\ncbc enc ch abc - 0 0 null - - 0 0 0 -\n => mbjobs: line 2: field 4\n",
    "null enc ch - - 0 0 hmac-md5 - - 0 0 0 -\n => mbjobs: line 1: field 8\n",
    "%\n => mbjobs: line 1: field 0\n",
];

#[test]
fn bad_files_are_told_by_line_and_field(rt: HostRuntime) {
    compare(&rt, rt.alloc(), 5, &BAD_FILES);
}

const NO_COMMANDS: [&str; 6] = [
    "mbjobs",
    "mbjobs run --submitters 0 --workers 0",
    "mbjobs run --submitters 17 --workers 0",
    "mbjobs run --submitters 1",
    "mbjobs --help",
    "",
];

/// Sees that a run of words that are no command read no byte and wrote none, and told a line.
fn check_unread<R: Abort>(rt: &R, ending: &Ending, words: &str) {
    let is_unread = ending.status == 2 && ending.input.rest() == FIRST_JOB.as_bytes();
    let (out, err) = (ending.out.held(), ending.err.held());
    assert!(rt;
        is_unread && out.is_empty() && err.ends_with(b"\n"),
        "{words}"
    );
}

#[test]
fn words_that_are_no_command_read_nothing(rt: HostRuntime) {
    for words in &NO_COMMANDS {
        let run = Run::by(words, FIRST_JOB.as_bytes(), (64, &[]), (64, &[]));
        check_unread(&rt, &run.end(&rt, rt.alloc()), words);
    }
}

/// Words that are no command, and what clap 4 says of a number out of its range.
const TOLD_WORDS: [&str; 3] = [
    "mbjobs run --submitters 0 --workers 0 => error: invalid value '0' for '--submitters <S>': 0 is not in 1..=16\n\nFor more information, try '--help'.\n",
    "mbjobs run --submitters 17 --workers 0 => error: invalid value '17' for '--submitters <S>': 17 is not in 1..=16\n\nFor more information, try '--help'.\n",
    "mbjobs run --submitters 1 --workers 17 => error: invalid value '17' for '--workers <W>': 17 is not in 0..=16\n\nFor more information, try '--help'.\n",
];

#[test]
fn words_that_are_no_command_are_told(rt: HostRuntime) {
    for row in &TOLD_WORDS {
        let (words, text) = row.split_once(" => ").expect(&rt, "a row has two halves");
        Run::new(words, b"").check(&rt, rt.alloc(), 2, text.as_bytes());
    }
}

#[test]
fn a_failed_read_or_write_ends_the_run(rt: HostRuntime) {
    let file = FIRST_JOB.as_bytes();
    let run = Run::by(RUN, file, (5, &[1]), (7, &[]));
    run.check(&rt, rt.alloc(), 3, b"mbjobs: read failed\n");
    // A sink that takes 7 bytes a call and fails at its call 2 holds the first 14.
    let ending = Run::by(RUN, file, (64, &[]), (7, &[2])).end(&rt, rt.alloc());
    ending.check(&rt, 4, b"0 ok 486920546", b"mbjobs: write failed\n", RUN);
}

/// A source that is at its end once, and would then give more.
#[derive(Drop)]
struct Reopened {
    reads: u32,
}

impl Source for Reopened {
    ghost rest = { λ _. None };

    ghost faults = { λ _. 0 };

    fn read(&mut self, buf: &mut [u8]) -> Result<usize, Failed> {
        let given = self.reads.min(1) as usize;
        self.reads = self.reads.saturating_add(1);
        Ok(given.min(buf.len()))
    }
}

/// Runs the program over a source, and sees that it writes nothing.
fn run_reopened<R: Host>(rt: &R, alloc: Global, input: &mut Reopened) {
    let mut ending = Run::new(RUN, b"").begin(rt, alloc);
    let Ending {
        out,
        err,
        status,
        ..
    } = &mut *ending;
    *status = run_on(rt, alloc, RUN, input, out, err, &OpenGate);
    ending.check(rt, 0, b"", b"", RUN);
}

#[test]
fn nothing_is_read_after_the_end(rt: HostRuntime) {
    let mut input = Reopened { reads: 0 };
    run_reopened(&rt, rt.alloc(), &mut input);
    assert!(rt; input.reads == 1);
}

#[test]
fn a_fault_of_err_changes_no_status(rt: HostRuntime) {
    let mut run = Run::by(RUN, b"null\n", (64, &[]), (64, &[]));
    run.err_room = 8;
    run.check(&rt, rt.alloc(), 5, b"mbjobs: ");
}
