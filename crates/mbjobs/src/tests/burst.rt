use super::FIRST_JOB;
use super::full_hand::DONE_JOB;
use super::texts::{Repeat, check_parts};
use super::trace::WAITING_JOB;

/// Words, job files, and what these bursts print. The tag over no byte is Python's `hmac.new(b"\x0b" * 20, b"", "sha512")`.
static CASES: [(&str, &[Repeat], &str); 4] = [
    ("mbjobs burst --size 2", &[], "flush 0\n"),
    // The last group has one job. All wait for lanes until they are flushed.
    (
        "mbjobs burst --size 2",
        &[(FIRST_JOB, 3)],
        "submit 2 0\nsubmit 1 0\nflush 3\nflush 0\n[0..2] ok 4869205468657265 b617318655057264e28bc0b6fb378c8ef146be00\n",
    ),
    // The earliest job waits for lanes while the ring fills behind it.
    (
        "mbjobs burst --size 512",
        &[(WAITING_JOB, 1), (DONE_JOB, 512)],
        "submit 512 0\nfull\nflush 512\nsubmit 1 1\nflush 0\n0 ok - ad8da3d882af6e9b872457adcdd638e9b87af44825425085f8ce81a4122bab781b92f5ab92ac24948ad369f86558fd469ca3f4861cb0f0dfb33154428ed03dfb\n[1..512] ok 874d6191b620e3261bef6864990db6ce -\n",
    ),
    // Cells are left for a part of the second group only.
    (
        "mbjobs burst --size 300",
        &[(WAITING_JOB, 1), (DONE_JOB, 514)],
        "submit 300 0\nsubmit 212 0\nfull\nflush 300\nsubmit 3 3\nflush 212\nflush 0\n0 ok - ad8da3d882af6e9b872457adcdd638e9b87af44825425085f8ce81a4122bab781b92f5ab92ac24948ad369f86558fd469ca3f4861cb0f0dfb33154428ed03dfb\n[1..514] ok 874d6191b620e3261bef6864990db6ce -\n",
    ),
];

#[test]
fn a_burst_tells_how_many_results_each_call_gives_back(rt: HostRuntime) {
    for (words, parts, lines) in &CASES {
        check_parts(&rt, rt.alloc(), words, parts, 0, lines);
    }
}

#[test]
fn a_burst_tells_the_first_bad_line(rt: HostRuntime) {
    let text = "mbjobs: line 1: field 0\n";
    check_parts(
        &rt,
        rt.alloc(),
        "mbjobs burst --size 2",
        &[("null\n", 1)],
        5,
        text,
    );
}
