// Scripts of commands that the parties of a front follow on one thread, and the lines that tell what each comes to.
mod seeded;
mod squad;

ghost use Rattle.std.specs.Prelude.{◌≤◌};
ghost use Rattle.mbj_core.specs.declared.cells.TheConstants.{MAX_SUBMITTERS};

use crate::player::players_of;
use crate::replay::have_text;
use mbj_core::SUBMITTER_CELLS;
use mbj_front::Front;
use mbj_text::{Cmd, INPUT_LIMIT, read_replay};
use mbj_types::Job;
use squad::{Lines, Squad};
use std::alloc::{AllocError, Global};
use std::test::Fail;

/// How many workers follow a script.
const WORKERS: u32 = 2;

/// RFC 2202, section 3, test cases 1 and 2.
const HI_THERE: &str =
    "null enc ch - - 0 0 hmac-sha1 0b0b0b0b0b0b0b0b0b0b0b0b0b0b0b0b0b0b0b0b - 0 8 20 4869205468657265\n";

const JEFE: &str =
    "null enc ch - - 0 0 hmac-sha1 4a656665 - 0 28 20 7768617420646f2079612077616e7420666f72206e6f7468696e673f\n";

/// A job with no cipher and no authentication.
const NULL_JOB: &str = "null enc ch - - 0 0 null - - 0 0 0 -\n";

/// Two jobs of one submitter, and the script of two workers.
const TWO_JOBS: [&str; 3] = [HI_THERE, JEFE, TWO_JOBS_SCRIPT];

const TWO_JOBS_SCRIPT: &str =
    "%\npost 0\npost 0\npost 0\nclaim 0 0\nclaim 1 0\nflush 1\ncollect 0\nflush 0\ncollect 0\n\
    collect 0\ncollect 0\nflush 0\n";

/// The lines that it prints.
const TWO_JOBS_LINES: &str =
    "post 0 0\npost 0 1\npost 0 end\nclaim 0 0\nclaim 1 1\nfinish 1 1\ncollect 0 none\nfinish 0 0\n\
    collect 0 0 ok 4869205468657265 b617318655057264e28bc0b6fb378c8ef146be00\n\
    collect 0 1 ok 7768617420646f2079612077616e7420666f72206e6f7468696e673f effcdf6ae5eb2fa2d27416d5f184df9c259a7c79\n\
    collect 0 none\nfinish 0 none\n";

/// Eight jobs of three submitters, and the script of two workers. Job 2 has a tag without authentication and job 5 a packet
/// that is no whole number of blocks; job 4 is the first block of SP 800-38A, F.2.1, and job 6 the empty message of RFC 4493,
/// 4.
const EIGHT_JOBS: [&str; 9] = [
    HI_THERE,
    NULL_JOB,
    "null enc ch - - 0 0 null - - 0 0 1 -\n",
    JEFE,
    "cbc enc ch 2b7e151628aed2a6abf7158809cf4f3c 000102030405060708090a0b0c0d0e0f 0 16 null - - 0 0 0 6bc1bee22e409f96e93d7e117393172a\n",
    "cbc enc ch 2b7e151628aed2a6abf7158809cf4f3c 000102030405060708090a0b0c0d0e0f 0 17 null - - 0 0 0 6bc1bee22e409f96e93d7e117393172a00\n",
    "null enc ch - - 0 0 cmac128 2b7e151628aed2a6abf7158809cf4f3c - 0 0 16 -\n",
    "null enc ch - - 0 0 null - - 0 0 0 07\n",
    EIGHT_JOBS_SCRIPT,
];

const EIGHT_JOBS_SCRIPT: &str =
    "%\ncollect 0\nflush 1\nclaim 0 2\npost 2\npost 0\npost 0\npost 1\nclaim 1 0\nclaim 0 1\n\
    collect 2\ncollect 0\ncollect 0\nclaim 0 0\nclaim 0 0\npost 0\ncollect 0\npost 0\nclaim 1 2\n\
    post 2\npost 2\ncollect 2\ncollect 2\npost 1\npost 1\npost 1\ncollect 1\nclaim 1 1\n\
    claim 0 1\nclaim 1 1\nflush 0\ncollect 1\ncollect 1\ncollect 1\nclaim 0 2\nclaim 1 0\n\
    collect 0\ncollect 2\nflush 1\ncollect 0\ncollect 0\n";

/// The lines that it prints. Job 0 waits for lanes with worker 1, while job 1 is finished at once. Job 2 is
/// finished and waits behind job 0. Once worker 0 claims job 5, job 7 is its earliest one, and finished.
const EIGHT_JOBS_LINES: &str =
    "collect 0 none\nfinish 1 none\nclaim 0 none\npost 2 2\npost 0 0\npost 0 3\npost 1 1\n\
    claim 1 0\nclaim 0 1\nfinish 0 1\ncollect 2 none\ncollect 0 none\ncollect 0 none\nclaim 0 3\n\
    claim 0 none\npost 0 6\ncollect 0 none\npost 0 end\nclaim 1 2\npost 2 5\npost 2 end\n\
    collect 2 none\ncollect 2 none\npost 1 4\npost 1 7\npost 1 end\ncollect 1 1 ok - -\n\
    claim 1 4\nclaim 0 7\nclaim 1 none\nfinish 0 3\ncollect 1 none\ncollect 1 none\n\
    collect 1 none\nclaim 0 5\nfinish 0 7\nclaim 1 6\ncollect 0 none\ncollect 2 none\nfinish 1 0\n\
    collect 0 0 ok 4869205468657265 b617318655057264e28bc0b6fb378c8ef146be00\n\
    collect 0 3 ok 7768617420646f2079612077616e7420666f72206e6f7468696e673f effcdf6ae5eb2fa2d27416d5f184df9c259a7c79\n";

/// The lines that the parties of a new front tell, who follow a script over these jobs on this thread.
fn tell(alloc: Global, jobs: &[Job], commands: &[Cmd], submitters: u32) -> Result<Lines, AllocError>
    requires { (1 ≤ submitters) × (submitters ≤ MAX_SUBMITTERS) }
{
    let (front, seats) = Front::new(alloc, submitters, WORKERS)?;
    let mut players = players_of(alloc, &front, seats, None)?;
    let workers = players.split_off(players.len().min(submitters as usize))?;
    let squad = Squad {
        submitters: players,
        workers,
        jobs,
    };
    squad.follow(alloc, commands)
}

/// The same of the jobs and the script of a file.
fn tell_of_file(alloc: Global, file: &str, submitters: u32) -> Result<Lines, Fail>
    requires { (1 ≤ submitters) × (submitters ≤ MAX_SUBMITTERS) }
{
    if file.len() > INPUT_LIMIT {
        return Err(Fail::from("the file is too long"));
    }
    let (_, jobs, commands) = read_replay(alloc, file.as_bytes(), submitters, WORKERS)?;
    Ok(tell(alloc, &jobs, &commands, submitters)?)
}

/// Whether the parties tell these lines of the file of these parts.
fn are_told(alloc: Global, parts: &[&str], text: &str, submitters: u32) -> Result<bool, Fail>
    requires { (1 ≤ submitters) × (submitters ≤ MAX_SUBMITTERS) }
{
    let file = parts.join(alloc, "")?;
    let lines = tell_of_file(alloc, file.as_str(), submitters)?;
    have_text(alloc, &lines, text)
}

// Jobs with an HMAC, a CMAC or CBC encryption wait for lanes until they are flushed.
#[test]
fn parties_tell_what_each_command_comes_to(rt: HostRuntime) -> Result<(), Fail> {
    assert!(rt; are_told(rt.alloc(), &TWO_JOBS, TWO_JOBS_LINES, 1)?);
    assert!(rt; are_told(rt.alloc(), &EIGHT_JOBS, EIGHT_JOBS_LINES, 3)?);
    Ok(())
}

/// The lines of as many posts as a submitter may have out, and of one more.
fn lines_of_posts(alloc: Global) -> Result<String, AllocError> {
    let mut lines = String::new(alloc);
    for number in 0..SUBMITTER_CELLS {
        write!(lines, "post 0 {number}\n")?;
    }
    lines.push_str("post 0 full\n")?;
    Ok(lines)
}

/// Whether the parties tell them of one job more than a submitter may have out and as many posts.
fn posts_are_told(alloc: Global, lines: &str) -> Result<bool, Fail> {
    let jobs = NULL_JOB.repeat(alloc, SUBMITTER_CELLS as usize + 1)?;
    let posts = "post 0\n".repeat(alloc, SUBMITTER_CELLS as usize + 1)?;
    are_told(alloc, &[jobs.as_str(), "%\n", posts.as_str()], lines, 1)
}

#[test]
fn a_post_with_all_cells_out_is_full(rt: HostRuntime) -> Result<(), Fail> {
    let lines = lines_of_posts(rt.alloc())?;
    assert!(rt; posts_are_told(rt.alloc(), &lines)?);
    Ok(())
}
