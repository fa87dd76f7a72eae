// Replays whose jobs and commands are drawn, and what the parties of a front tell of them.
ghost use Rattle.std.specs.Prelude.{◌<◌};

use super::{WORKERS, tell};
use crate::replay::write;
use mbj_gen::make_jobs;
use mbj_replay::ReplayLine;
use mbj_text::Cmd;
use sha2::{Digest, Sha256};
use std::alloc::{AllocError, Global};
use std::test::Fail;

const SUBMITTERS: u32 = 3;

/// How many jobs and how many commands a replay has.
const JOBS: u32 = 100;

const COMMANDS: u32 = 400;

/// The seed of the jobs, the state of the draws after these, from which the commands are drawn, and the digest of what they
/// print, as `tests/faults/reference.py replays` writes them.
const REPLAYS: [&str; 16] = [
    "1 2681151989008651214 d9a969363a48218c1d96539eecea39c61422a9323b9ff54dccd71e8c1bb13cc2",
    "2 17920757197342091497 6473cca40d1a70efba1047dcc429e71d76830c7604c0f944984b8058c98c82da",
    "3 2191379983360077646 282abf225b24a1d31c7c8af2d82e1760eb6320073015c5aacc1b387d9bb911c0",
    "4 4453348595082864627 98ecaf0350970157a46c81167fd11f7f713b304efabdfa3cc40a78b8b088ebd9",
    "5 13012381458551954641 7270ffbe667e6d0208860d456e701c5d92a4889765b994a1c107f99201820f6f",
    "6 18278963023779123815 707503481fddcc009737a203bbf4d69b6f63e1a3181fd0f862460afc1a4e1ac4",
    "7 3928970576427263990 93c88db750e0deb03c9e27653e1cf8395765f002a55e0e3dc4a93cc7bc120c0e",
    "8 12168896787212292808 be401d62bc320c38ddeb4c77267f98393c524af67dabbc82257446fb2b2dbd16",
    "9 2668954227311347526 d90089adb7c09c2bacc6148cc551bfac71dea5c33cf201bdbacb43bb50268209",
    "10 16976550669596320735 d7cfbcef4521001e9ef1d1b07de0cf53da1aeb2793ca7ce7f486497d1e4e61be",
    "11 3543103554471622504 9b89777b15fe26cb2e4f7726c63c0abae95c9ecdb3b36e6a4d934d64755cb72a",
    "12 1057925518590865574 4c8d2abbe2cc8f42efe5138037a7b5fa2e33f85fd1774209a7f671656b5f6c5f",
    "13 16359164190492207064 15f36b693148eecabf9740aeeca7e1eb7d85b3fb6e757ed8a4c25c8211408e49",
    "14 14534003910235689692 86dc870273d58f8e7befb5224420136a2e77861ca9cbdfaaf4eb8a80ecdf6fda",
    "15 16787181664658127478 ccdfe181d629b22774690d604820ddc93ed62594a87b871de20c7acf6f0d7302",
    "16 14457742651695653733 a8bb25766a0931b44fd5196bd5110034677ef64e69cfccc01fd0d1f04e263fb6",
];

/// Draws a number below the bound from a state as the generator of the jobs does: by a linear congruential generator of 64
/// bits, each draw being the highest byte of the next state.
fn draw(state: &mut u64, bound: u32) -> u32
    requires { 0 < bound }
{
    *state = state
        .wrapping_mul(6_364_136_223_846_793_005)
        .wrapping_add(1_442_695_040_888_963_407);
    (*state >> 56) as u32 % bound
}

fn draw_command(state: &mut u64) -> Cmd {
    match draw(state, 4) {
        0 => Cmd::Post(draw(state, SUBMITTERS)),
        1 => {
            let worker = draw(state, WORKERS);
            Cmd::Claim(worker, draw(state, SUBMITTERS))
        }
        2 => Cmd::Flush(draw(state, WORKERS)),
        _ => Cmd::Collect(draw(state, SUBMITTERS)),
    }
}

/// The commands that are drawn from a state.
fn draw_commands(alloc: Global, mut state: u64) -> Result<Vec<Cmd>, AllocError> {
    let mut commands = Vec::new(alloc);
    for _ in 0..COMMANDS {
        commands.push(draw_command(&mut state))?;
    }
    Ok(commands)
}

/// The lines that the parties of a new front tell of drawn jobs and commands.
fn tell_of_seed(alloc: Global, seed: u64, state: u64) -> Result<Vec<ReplayLine>, AllocError> {
    let jobs = make_jobs(alloc, seed, JOBS)?;
    let commands = draw_commands(alloc, state)?;
    tell(alloc, &jobs, &commands, SUBMITTERS)
}

/// Whether the text of the lines has this digest.
fn have_digest(alloc: Global, lines: &[ReplayLine], digest: &str) -> Result<bool, Fail> {
    let sink = write(alloc, lines)?;
    let shown = hex::encode(alloc, Sha256::digest(sink.held()))?;
    Ok(shown.as_str() == digest)
}

/// Whether what they tell of the seed and the state has the digest of this row.
fn is_told(alloc: Global, row: &str) -> Result<bool, Fail> {
    let (seed, rest) = row.split_once(' ').ok_or("no state")?;
    let (state, digest) = rest.split_once(' ').ok_or("no digest")?;
    let lines = tell_of_seed(alloc, seed.parse()?, state.parse()?)?;
    have_digest(alloc, &lines, digest)
}

// The core tells the same of the same jobs and commands: `replay` is compared with these digests too.
#[test]
fn parties_tell_what_drawn_commands_come_to(rt: HostRuntime) -> Result<(), Fail> {
    for row in &REPLAYS {
        assert!(rt; is_told(rt.alloc(), *row)?, "{row}");
    }
    Ok(())
}
