ghost use Rattle.std.specs.Prelude.{◌≡◌, ◌≤◌, ℕ, List, Err, IfOk, IsTrue, length, map, vec_len};
ghost use Rattle.std.specs.List.{All};
ghost use Rattle.mbj_types.specs.Aes.{is_key_size};
ghost use Rattle.mbj_types.specs.declared.limits.TheConstants.{MAX_SESSIONS};
ghost use Rattle.mbj_types.specs.declared.job.Job.{Job};
ghost use Rattle.mbj_text.specs.declared.command.Cmd.{Cmd};
ghost use Rattle.mbj_text.specs.declared.limits.TheConstants.{INPUT_LIMIT, JOB_LIMIT};
ghost use Rattle.mbj_text.specs.Answer.{IsOkOnly, IsErrOnly};
ghost use Rattle.mbj_text.specs.Replay.{ReadsReplay, BadReplay, OverReplay, EachReplayIsOne};
ghost use Rattle.mbj_text.specs.Inside.Reading.{Answers};

use crate::command::Cmd;
use crate::entries::read_entries;
use crate::fault::TextFault;
use crate::kept_lines::{EntriesEnd, KeptLines};
use crate::limits::INPUT_LIMIT;
use crate::script::read_script;
use mbj_types::Job;
use std::alloc::Global;

/// Reads the file of a replay, of at most `INPUT_LIMIT` bytes: the keys of its sessions, its jobs and
/// the commands of its script, each in the order of their lines.
///
/// Lines are cut, skipped and counted as those of a job file (see [`read_file`](crate::read_file)).
/// Session lines and job lines end before the first line that is exactly `%`, and the lines behind it
/// are the script; without such a line the script is empty. A script line is parted by single spaces: its
/// first field is a word, the others are numbers as in job lines.
///
/// | Line | Command |
/// |---|---|
/// | `post S` | `Post(S)` |
/// | `claim W S` | `Claim(W, S)` |
/// | `flush W` | `Flush(W)` |
/// | `collect S` | `Collect(S)` |
///
/// S is below `submitters`, and W is below `workers`.
///
/// It returns `Line` at the first bad line, `Limit` at the job line behind `JOB_LIMIT` good ones, whatever it says, and `Memory` if
/// there isn't memory enough. Of a bad session or job line the field is that of `read_file`. Of a bad script line it is 1 if the first
/// field is no such word, else 0 if the number of fields isn't that of the command, else the number of the first field that is no number
/// below its limit. A job line that is bad or one too many, or a bad session line, is reported before any bad script line.
pub fn read_replay(
    alloc: Global,
    bytes: &[u8],
    submitters: u32,
    workers: u32,
) -> Result<(Vec<Vec<u8>>, Vec<Job>, Vec<Cmd>), TextFault>
    requires { length bytes.now ≤ INPUT_LIMIT }

    // Each result but `Memory` is right.
    ensures reads { IfOk result (λ r.
        ReadsReplay submitters workers bytes.now (map (λ k. k.items) r.0.items) r.1.items r.2.items) }
    ensures bad { (line field : ℕ) → result ≡ Err (TextFault.Line line field)
        → BadReplay submitters workers bytes.now line field }
    ensures over { (line : ℕ) → result ≡ Err (TextFault.Limit line) → OverReplay bytes.now line }

    // There are no more sessions and jobs than there may be, and each key is one of AES.
    ensures sessions { IfOk result (λ r. (vec_len r.0 ≤ MAX_SESSIONS)
        × All (λ k. IsTrue (is_key_size (length k.items))) r.0.items) }
    ensures count { IfOk result (λ r. length r.1.items ≤ JOB_LIMIT) }

    // What is right is returned, unless there isn't memory enough.
    ensures only_reads { (keys : List (List ℕ)) (jobs : List Job) (commands : List Cmd)
        → ReadsReplay submitters workers bytes.now keys jobs commands
        → IsOkOnly result (λ r. (map (λ k. k.items) r.0.items ≡ keys) × (r.1.items ≡ jobs) × (r.2.items ≡ commands)) }
    ensures only_bad { (line field : ℕ) → BadReplay submitters workers bytes.now line field
        → IsErrOnly result (TextFault.Line line field) }
    ensures only_over { (line : ℕ) → OverReplay bytes.now line
        → IsErrOnly result (TextFault.Limit line) }
{
    entries_and_commands(alloc, bytes, submitters, workers)
}

/// The keys and the jobs of a file, and then the commands of its script.
fn entries_and_commands(
    alloc: Global,
    bytes: &[u8],
    submitters: u32,
    workers: u32,
) -> Result<(Vec<Vec<u8>>, Vec<Job>, Vec<Cmd>), TextFault>
    requires { length bytes.now ≤ INPUT_LIMIT }
    ensures { Answers (λ r. ReadsReplay submitters workers bytes.now (map (λ k. k.items) r.0.items) r.1.items r.2.items)
        (BadReplay submitters workers bytes.now) (OverReplay bytes.now) result }
{
    let mut lines = KeptLines::of(bytes);
    let (keys, jobs) = read_entries(alloc, &mut lines, EntriesEnd::Mark)?.into_parts();
    let commands = read_script(alloc, lines, submitters, workers)?;
    Ok((keys, jobs, commands))
}

/// Each file spells a replay, or has a first bad line, or has too many job lines: exactly one of
/// these, and in one way.
pub fn each_replay_is_one()
    ensures { EachReplayIsOne }
{}
