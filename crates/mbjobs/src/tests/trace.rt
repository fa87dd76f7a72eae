use super::FIRST_JOB;
use super::texts::{Repeat, check_parts};

const TRACE: &str = "mbjobs trace";

/// HMAC-SHA-512 over no byte, which waits for lanes.
pub(super) const WAITING_JOB: &str =
    "null enc ch - - 0 0 hmac-sha512 0b0b0b0b0b0b0b0b0b0b0b0b0b0b0b0b0b0b0b0b - 0 0 64 -\n";

/// HMAC-SHA-512 over 112 and over 300 bytes, without their packets.
const HMAC_OVER_112: &str =
    "null enc ch - - 0 0 hmac-sha512 0b0b0b0b0b0b0b0b0b0b0b0b0b0b0b0b0b0b0b0b - 0 112 64 ";

const HMAC_OVER_300: &str =
    "null enc ch - - 0 0 hmac-sha512 0b0b0b0b0b0b0b0b0b0b0b0b0b0b0b0b0b0b0b0b - 0 300 64 ";

/// HMAC-SHA-224 and HMAC-SHA-256 over 8 bytes.
const HMAC_SHA224_SHA256: &str =
    "null enc ch - - 0 0 hmac-sha224 0b0b0b0b0b0b0b0b0b0b0b0b0b0b0b0b0b0b0b0b - 0 8 28 0000000000000000\nnull enc ch - - 0 0 hmac-sha256 0b0b0b0b0b0b0b0b0b0b0b0b0b0b0b0b0b0b0b0b - 0 8 32 0000000000000000\n";

/// A plain hash of three bytes, and an HMAC over 8 bytes with the same hash.
const SHA256: &str = "null enc ch - - 0 0 sha256 - - 0 3 32 616263\n";

const HMAC_SHA256: &str =
    "null enc ch - - 0 0 hmac-sha256 0b0b0b0b0b0b0b0b0b0b0b0b0b0b0b0b0b0b0b0b - 0 8 32 0000000000000000\n";

/// CMAC over one block and over two.
const CMAC128: &str =
    "null enc ch - - 0 0 cmac128 2b7e151628aed2a6abf7158809cf4f3c - 0 16 16 00000000000000000000000000000000\nnull enc ch - - 0 0 cmac128 2b7e151628aed2a6abf7158809cf4f3c - 0 32 16 0000000000000000000000000000000000000000000000000000000000000000\n";

const CTR: &str =
    "ctr enc ch 2b7e151628aed2a6abf7158809cf4f3c 000102030405060708090a0b0c0d0e0f 0 16 null - - 0 0 0 00000000000000000000000000000000\n";

/// SP 800-38C, example 1: one block before the text, one of data, and one of text.
const CCM: &str =
    "ccm enc ch 404142434445464748494a4b4c4d4e4f 10111213141516 0 4 ccm - 0001020304050607 0 0 4 20212223\n";

/// CBC encryption, and then HMAC-SHA-512.
const CBC_HMAC_SHA512: &str =
    "cbc enc ch 2b7e151628aed2a6abf7158809cf4f3c 000102030405060708090a0b0c0d0e0f 0 16 hmac-sha512 0b0b0b0b0b0b0b0b0b0b0b0b0b0b0b0b0b0b0b0b - 0 16 64 00000000000000000000000000000000\n";

/// CBC with a key of 15 bytes, which is refused.
const BAD_KEY: &str =
    "cbc enc ch 2b7e151628aed2a6abf7158809cf4f 000102030405060708090a0b0c0d0e0f 0 16 null - - 0 0 0 -\n";

/// Four jobs of one kind.
const FOUR_JOBS: [Repeat; 8] = [
    (WAITING_JOB, 1),
    (HMAC_OVER_112, 1),
    ("00", 112),
    ("\n", 1),
    (WAITING_JOB, 1),
    (HMAC_OVER_300, 1),
    ("00", 300),
    ("\n", 1),
];

const FOUR_JOBS_TWICE: [Repeat; 16] = [
    (WAITING_JOB, 1),
    (HMAC_OVER_112, 1),
    ("00", 112),
    ("\n", 1),
    (WAITING_JOB, 1),
    (HMAC_OVER_300, 1),
    ("00", 300),
    ("\n", 1),
    (WAITING_JOB, 1),
    (HMAC_OVER_112, 1),
    ("00", 112),
    ("\n", 1),
    (WAITING_JOB, 1),
    (HMAC_OVER_300, 1),
    ("00", 300),
    ("\n", 1),
];

/// Job files, and the lines that their traces print.
static CASES: [(&[Repeat], &str); 11] = [
    (&[], "completed none\nflush none\n"),
    // Rests of 4, 5, 4 and 6 in turn. Four jobs wait until they are flushed, and the run of a full list ends four of eight.
    (
        &FOUR_JOBS,
        "submit [0..3] none\ncompleted none\nflush [0..3]\nflush none\n",
    ),
    (
        &FOUR_JOBS_TWICE,
        "submit [0..6] none\nsubmit 7 0\ncompleted none\nflush [1..7]\nflush none\nrounds hmac-sha512 4 32\n",
    ),
    (
        &[(CBC_HMAC_SHA512, 32)],
        "submit [0..30] none\nsubmit 31 0\ncompleted [1..31]\ncompleted none\nflush none\nrounds cbc128 1 32\nrounds hmac-sha512 16 128\n",
    ),
    // The earliest job waits for lanes while the ring fills behind it.
    (
        &[(WAITING_JOB, 1), (CTR, 512)],
        "submit [0..511] none\nfull\nflush 0\nsubmit 512 1\ncompleted [2..512]\ncompleted none\nflush none\n",
    ),
    // A refused job keeps its place.
    (
        &[(FIRST_JOB, 1), (BAD_KEY, 1), (FIRST_JOB, 1)],
        "submit [0..2] none\ncompleted none\nflush [0..2]\nflush none\n",
    ),
    // Two hashes share the lanes of one kind.
    (
        &[(HMAC_SHA224_SHA256, 8)],
        "submit [0..14] none\nsubmit 15 0\ncompleted [1..15]\ncompleted none\nflush none\nrounds hmac-sha256 4 64\n",
    ),
    // Plain hashes, which have a rest of 1, and an HMAC share the lanes of one kind.
    (
        &[(SHA256, 15), (HMAC_SHA256, 1)],
        "submit [0..14] none\nsubmit 15 0\ncompleted [1..14]\ncompleted none\nflush 15\nflush none\nrounds hmac-sha256 1 16\n",
    ),
    // Rests of 1 and 2 in turn: the run of the full list ends every other job.
    (
        &[(CMAC128, 16)],
        "submit [0..30] none\nsubmit 31 0\ncompleted none\nflush [1..31]\nflush none\nrounds cmac128 1 32\n",
    ),
    (
        &[(CCM, 32)],
        "submit [0..30] none\nsubmit 31 0\ncompleted [1..31]\ncompleted none\nflush none\nrounds ccm128 3 96\n",
    ),
    (&[(BAD_KEY, 1)], "submit 0 0\ncompleted none\nflush none\n"),
];

#[test]
fn a_trace_tells_what_each_call_gives_back(rt: HostRuntime) {
    for (parts, lines) in &CASES {
        check_parts(&rt, rt.alloc(), TRACE, parts, 0, lines);
    }
}

#[test]
fn a_trace_tells_the_first_bad_line(rt: HostRuntime) {
    let text = "mbjobs: line 1: field 0\n";
    check_parts(&rt, rt.alloc(), TRACE, &[("null\n", 1)], 5, text);
}
