use super::texts::{Repeat, check_parts};
use super::trace::WAITING_JOB;

/// The first block of SP 800-38A, F.5.1, which is done at once.
pub(super) const DONE_JOB: &str =
    "ctr enc ch 2b7e151628aed2a6abf7158809cf4f3c f0f1f2f3f4f5f6f7f8f9fafbfcfdfeff 0 16 null - - 0 0 0 6bc1bee22e409f96e93d7e117393172a\n";

/// One job more than the 512 that a submitter may have out and a worker in its hand, and commands that fill the hand and
/// then flush it.
const FILE: [Repeat; 6] = [
    (WAITING_JOB, 1),
    (DONE_JOB, 512),
    ("%\n", 1),
    ("post 0\n", 513),
    ("claim 0 0\n", 513),
    ("flush 0\nclaim 0 0\ncollect 0\npost 0\nclaim 0 0\n", 1),
];

/// What these commands come to. The tag is Python's `hmac.new(b"\x0b" * 20, b"", "sha512")`.
const LINES: &str = "\
post 0 [0..511]
post 0 full
claim 0 [0..511]
claim 0 full
finish 0 0
claim 0 none
collect 0 0 ok - ad8da3d882af6e9b872457adcdd638e9b87af44825425085f8ce81a4122bab781b92f5ab92ac24948ad369f86558fd469ca3f4861cb0f0dfb33154428ed03dfb
post 0 512
claim 0 512
finish 0 1
";

#[test]
fn a_full_hand_claims_nothing_until_it_is_flushed(rt: HostRuntime) {
    let words = "mbjobs replay --submitters 1 --workers 1";
    check_parts(&rt, rt.alloc(), words, &FILE, 0, LINES);
}
