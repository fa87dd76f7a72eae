use super::RUN;
use super::draws::{Draws, REPLAY};
use super::parties::generated_file;
use super::runs::{Ending, Host, Run};
use std::alloc::Global;
use std::process::Abort;

/// How many jobs and how many commands a replay has.
const JOBS: u32 = 100;

const COMMANDS: u32 = 400;

/// The seed of the jobs, the state of the draws after these, from which the commands are drawn, and the digest of what they
/// print: the lines of `tests/faults/reference.py replays`.
const REPLAYS: [&str; 16] = [
    "1 2681151989008651214 d9a969363a48218c1d96539eecea39c61422a9323b9ff54dccd71e8c1bb13cc2",
    "2 17920757197342091497 6473cca40d1a70efba1047dcc429e71d76830c7604c0f944984b8058c98c82da",
    "3 2191379983360077646 282abf225b24a1d31c7c8af2d82e1760eb6320073015c5aacc1b387d9bb911c0",
    "4 4453348595082864627 98ecaf0350970157a46c81167fd11f7f713b304efabdfa3cc40a78b8b088ebd9",
    "5 13012381458551954641 7270ffbe667e6d0208860d456e701c5d92a4889765b994a1c107f99201820f6f",
    "6 18278963023779123815 707503481fddcc009737a203bbf4d69b6f63e1a3181fd0f862460afc1a4e1ac4",
    "7 3928970576427263990 93c88db750e0deb03c9e27653e1cf8395765f002a55e0e3dc4a93cc7bc120c0e",
    "8 12168896787212292808 be401d62bc320c38ddeb4c77267f98393c524af67dabbc82257446fb2b2dbd16",
    "9 2668954227311347526 d90089adb7c09c2bacc6148cc551bfac71dea5c33cf201bdbacb43bb50268209",
    "10 16976550669596320735 d7cfbcef4521001e9ef1d1b07de0cf53da1aeb2793ca7ce7f486497d1e4e61be",
    "11 3543103554471622504 9b89777b15fe26cb2e4f7726c63c0abae95c9ecdb3b36e6a4d934d64755cb72a",
    "12 1057925518590865574 4c8d2abbe2cc8f42efe5138037a7b5fa2e33f85fd1774209a7f671656b5f6c5f",
    "13 16359164190492207064 15f36b693148eecabf9740aeeca7e1eb7d85b3fb6e757ed8a4c25c8211408e49",
    "14 14534003910235689692 86dc870273d58f8e7befb5224420136a2e77861ca9cbdfaaf4eb8a80ecdf6fda",
    "15 16787181664658127478 ccdfe181d629b22774690d604820ddc93ed62594a87b871de20c7acf6f0d7302",
    "16 14457742651695653733 a8bb25766a0931b44fd5196bd5110034677ef64e69cfccc01fd0d1f04e263fb6",
];

/// The seed, the state and the digest of a row.
fn row_of(row: &str) -> Option<(u64, u64, &str)> {
    let (seed, rest) = row.split_once(' ')?;
    let (state, digest) = rest.split_once(' ')?;
    Some((seed.parse().ok()?, state.parse().ok()?, digest))
}

/// How the lines begin that tell what each submitter collects.
const COLLECTS: [&str; 3] = ["collect 0 ", "collect 1 ", "collect 2 "];

/// Whether the results that a submitter s collects are, as far as it comes, those of its jobs in a run: s, s + 3, s + 6 and
/// so on.
fn collects_in_order(replay: &str, run: &str, submitter: usize, collects: &str) -> bool {
    let mut results = run.lines().skip(submitter).step_by(COLLECTS.len());
    for line in replay.lines() {
        if let Some(result) = line.strip_prefix(collects) {
            if result != "none" && results.next() != Some(result) {
                return false;
            }
        }
    }
    true
}

/// Whether a line is of one of the submitters, where it tells what is collected.
fn is_of_submitter(line: &str) -> bool {
    for collects in &COLLECTS {
        if line.starts_with(*collects) {
            return true;
        }
    }
    !line.starts_with("collect ")
}

/// Whether none but the submitters collects.
fn submitters_collect(replay: &str) -> bool {
    for line in replay.lines() {
        if !is_of_submitter(line) {
            return false;
        }
    }
    true
}

/// Whether each submitter collects the results of its jobs in order, and nobody else collects.
fn collect_in_order(replay: &[u8], run: &[u8]) -> bool {
    let (Ok(replay), Ok(run)) = (str::from_utf8(replay), str::from_utf8(run)) else {
        return false;
    };
    for (submitter, collects) in COLLECTS.iter().enumerate() {
        if !collects_in_order(replay, run, submitter, collects) {
            return false;
        }
    }
    submitters_collect(replay)
}

/// Compares the digest of what a replay prints, and the results that it collects with those of a run.
fn compare_endings<R: Abort>(rt: &R, replay: &Ending, run: &Ending, digest: &str) {
    replay.check_digest(rt, digest, &REPLAY);
    assert!(rt; run.status == 0 && collect_in_order(replay.out.held(), run.out.held()));
}

/// Replays jobs by the commands that are drawn from a state.
fn replay<R: Host>(rt: &R, alloc: Global, seed: u64, state: u64) -> Box<Ending> {
    let mut file = generated_file(rt, alloc, seed, JOBS);
    let mut draws = Draws { state };
    draws.add_script(&mut *file, COMMANDS).expect(rt, "room");
    Run::new(REPLAY, file.held()).end(rt, alloc)
}

/// Runs jobs and replays them, and compares what they come to.
fn compare<R: Host>(rt: &R, alloc: Global, seed: u64, state: u64, digest: &str) {
    let file = generated_file(rt, alloc, seed, JOBS);
    let run = Run::new(RUN, file.held()).end(rt, alloc);
    compare_endings(rt, &replay(rt, alloc, seed, state), &run, digest);
}

#[test]
fn replays_of_drawn_commands_tell_what_they_come_to(rt: HostRuntime) {
    for row in &REPLAYS {
        let (seed, state, digest) = row_of(row).expect(&rt, "a row has three words");
        compare(&rt, rt.alloc(), seed, state, digest);
    }
}
