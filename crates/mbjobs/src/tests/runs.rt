// Runs of the program in memory, and how they end.
use super::mbjobs;
use mbj_io::{MemSink, MemSource, Source};
use mbj_work::{Gate, OpenGate};
use sha2::{Digest, Sha256};
use std::alloc::{AllocError, Global};
use std::fmt::Debug;
use std::process::Abort;
use std::sync::Wait;
use std::thread::Threads;

/// Room for what a test writes.
pub(super) const ROOM: usize = 1 << 20;

/// A runtime that runs the program, and ends a test that fails.
pub(super) trait Host: Threads + Wait + Sync + Abort {}

impl<R: Threads + Wait + Sync + Abort> Host for R {}

/// How the program ended, what it left of its input, and what it wrote.
#[derive(Drop)]
pub(super) struct Ending {
    pub(super) status: u8,
    pub(super) input: MemSource,
    pub(super) out: MemSink,
    pub(super) err: MemSink,
}

impl Ending {
    /// Whether the program ended with this status, and wrote this on standard output and standard error.
    pub(super) fn is(&self, status: u8, out: &[u8], err: &[u8]) -> bool {
        self.status == status && self.out.held() == out && self.err.held() == err
    }

    /// Compares the status, and what was written on standard output and standard error.
    pub(super) fn check<R: Abort>(&self, rt: &R, status: u8, out: &[u8], err: &[u8], words: &str) {
        assert!(rt;
            self.is(status, out, err),
            "{words} ended with {}",
            self.status
        );
    }

    /// Sees that the program succeeded, and compares the digest of what it wrote.
    pub(super) fn check_digest<R: Abort, W: Debug>(&self, rt: &R, digest: &str, case: &W) {
        assert!(rt; self.status == 0, "{case:?} ended with {}", self.status);
        check_digest(rt, &Sha256::digest(self.out.held()), digest, case);
    }
}

/// Compares a SHA-256 digest with its hexadecimal digits.
pub(super) fn check_digest<R: Abort, W: Debug>(rt: &R, found: &[u8; 32], right: &str, case: &W) {
    let mut digits = [0; 64];
    let is_spelled = hex::encode_to_slice(found.as_slice(), &mut digits).is_ok();
    assert!(rt;
        is_spelled && digits.as_slice() == right.as_bytes(),
        "{case:?}"
    );
}

/// How many bytes a read or a write moves at most, and the numbers of those that fail.
pub(super) type Calls<'a> = (u32, &'a [u64]);

/// A run of the program over a source and two sinks in memory.
#[derive(Clone, Copy)]
pub(super) struct Run<'a> {
    pub(super) words: &'a str,
    pub(super) input: &'a [u8],
    pub(super) reads: Calls<'a>,

    /// The writes to standard output. Those to standard error move as much, and none of them is told to fail.
    pub(super) writes: Calls<'a>,

    pub(super) out_room: usize,
    pub(super) err_room: usize,
}

impl<'a> Run<'a> {
    /// A run whose reads and writes all succeed.
    pub(super) fn new(words: &'a str, input: &'a [u8]) -> Run<'a> {
        Run::by(words, input, (4_096, &[]), (1_024, &[]))
    }

    /// A run by such reads and writes.
    pub(super) fn by(
        words: &'a str,
        input: &'a [u8],
        reads: Calls<'a>,
        writes: Calls<'a>,
    ) -> Run<'a> {
        Run {
            words,
            input,
            reads,
            writes,
            out_room: ROOM,
            err_room: ROOM,
        }
    }

    /// The source and the sinks as a run finds them, under status 0.
    pub(super) fn begin<R: Abort>(&self, rt: &R, alloc: Global) -> Box<Ending> {
        let ((gives, bad_reads), (takes, bad_writes)) = (self.reads, self.writes);
        assert!(rt; 1 <= gives && 1 <= takes);
        let ending = Ending {
            status: 0,
            input: MemSource::new(alloc, self.input, gives, bad_reads).expect(rt, "memory"),
            out: MemSink::new(alloc, self.out_room, takes, bad_writes).expect(rt, "memory"),
            err: MemSink::new(alloc, self.err_room, takes, &[]).expect(rt, "memory"),
        };
        Box::new(alloc, ending).expect(rt, "memory")
    }

    /// Runs the program under a gate.
    pub(super) fn under<R: Host, G: Gate + Sync>(
        &self,
        rt: &R,
        alloc: Global,
        gate: &G,
    ) -> Box<Ending> {
        let mut ending = self.begin(rt, alloc);
        let Ending {
            input,
            out,
            err,
            status,
        } = &mut *ending;
        *status = run_on(rt, alloc, self.words, input, out, err, gate);
        ending
    }

    /// Runs the program.
    pub(super) fn end<R: Host>(&self, rt: &R, alloc: Global) -> Box<Ending> {
        self.under(rt, alloc, &OpenGate)
    }

    /// Runs the program, and compares its status, and the text that it writes if that is 0, else tells.
    pub(super) fn check<R: Host>(&self, rt: &R, alloc: Global, status: u8, text: &[u8]) {
        let ending = self.end(rt, alloc);
        let (out, err): (&[u8], &[u8]) = if status == 0 {
            (text, b"")
        } else {
            (b"", text)
        };
        ending.check(rt, status, out, err, self.words);
    }
}

fn words_of(alloc: Global, line: &str) -> Result<Vec<String>, AllocError> {
    let mut words = Vec::new(alloc);
    for word in line.split_whitespace() {
        words.push(String::from_str(alloc, word)?)?;
    }
    Ok(words)
}

/// Runs the program by the words of a line, and returns its status.
pub(super) fn run_on<R: Host, S: Source, G: Gate + Sync>(
    rt: &R,
    alloc: Global,
    line: &str,
    input: &mut S,
    out: &mut MemSink,
    err: &mut MemSink,
    gate: &G,
) -> u8 {
    let words = words_of(alloc, line).expect(rt, "memory");
    mbjobs(rt, alloc, &words, input, out, err, gate)
}
