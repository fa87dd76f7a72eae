ghost use Rattle.std.specs.Prelude.{◌≡◌, ◌≢◌, ◌≤◌, [], Err, IfErr, IfOk, IsErrOf, IsTrue, OnOk, length, map, vec_len};
ghost use Rattle.std.specs.List.{All};
ghost use Rattle.mbj_types.specs.Aes.{is_key_size};
ghost use Rattle.mbj_types.specs.declared.limits.TheConstants.{MAX_SESSIONS};
ghost use Rattle.mbj_text.specs.File.{Bad, Over, Reads};
ghost use Rattle.mbj_text.specs.Replay.{BadReplay, OverReplay, ReadsReplay};
ghost use Rattle.mbj_text.specs.declared.limits.TheConstants.{JOB_LIMIT};
ghost use Rattle.mbjobs.specs.Inside.Causes.{cause_of_read, cause_of_text};
ghost use Rattle.mbj_io.specs.Streams.{FailsOnce, stream};
ghost use Rattle.mbjobs.specs.Reading.{ReadsAll, ReadsBytes, ReadsTooMuch};
ghost use Rattle.mbjobs.specs.Inside.Stops.{StopsReading};

use crate::cause::Cause;
use mbj_io::Source;
use mbj_text::{Cmd, INPUT_LIMIT, TextFault, read_file, read_replay};
use mbj_types::Job;
use std::alloc::Global;

/// How many bytes one read asks for at most.
const PIECE_BYTES: usize = 4_096;

/// Why an input isn't read to its end.
#[derive(Clone, Copy, Debug, PartialEq, Eq)]
pub(crate) enum ReadFault {
    /// A read failed.
    Failed,
    /// It has more than `INPUT_LIMIT` bytes.
    Over,
    /// There wasn't memory enough.
    Memory,
}

impl From<ReadFault> for Cause {
    ghost from_gives = { λ fault given. given ≡ cause_of_read fault };

    fn from(fault: ReadFault) -> Cause {
        match fault {
            ReadFault::Failed => Cause::Read,
            ReadFault::Over => Cause::Bytes,
            ReadFault::Memory => Cause::Memory,
        }
    }
}

impl From<TextFault> for Cause {
    ghost from_gives = { λ fault given. given ≡ cause_of_text fault };

    fn from(fault: TextFault) -> Cause {
        match fault {
            TextFault::Line { line, field } => Cause::Line { line, field },
            TextFault::Limit { line } => Cause::Jobs { line },
            TextFault::Memory => Cause::Memory,
        }
    }
}

/// Puts what an input still gives into an empty vector.
fn read_into<S: Source>(input: &mut S, bytes: &mut Vec<u8>) -> Result<(), ReadFault>
    requires { bytes.old.items ≡ [] }
    ensures read { OnOk result (ReadsAll (S.rest input.old) (S.rest input.new) bytes.new.items) }
    ensures over { IsErrOf result ReadFault.Over → ReadsTooMuch (S.rest input.old) (S.rest input.new) }
    ensures failed { IsErrOf result ReadFault.Failed → FailsOnce (stream S.rest S.faults input.old input.new) }
    ensures calm { result ≢ Err ReadFault.Failed → S.faults input.new ≡ S.faults input.old }
{
    let mut piece = [0; PIECE_BYTES];
    while bytes.len() <= INPUT_LIMIT {
        let room = (INPUT_LIMIT + 1 - bytes.len()).min(PIECE_BYTES);
        let count = match input.read(&mut piece[..room]) {
            Ok(count) => count,
            Err(_) => return Err(ReadFault::Failed),
        };
        if count == 0 {
            return Ok(());
        }
        if bytes.extend_from_slice(&piece[..count]).is_err() {
            return Err(ReadFault::Memory);
        }
    }
    Err(ReadFault::Over)
}

/// Reads an input to its end.
pub(crate) fn read_all<S: Source>(alloc: Global, input: &mut S) -> Result<Vec<u8>, ReadFault>
    ensures read { IfOk result (λ v. ReadsAll (S.rest input.old) (S.rest input.new) v.items) }
    ensures over { IsErrOf result ReadFault.Over → ReadsTooMuch (S.rest input.old) (S.rest input.new) }
    ensures failed { IsErrOf result ReadFault.Failed → FailsOnce (stream S.rest S.faults input.old input.new) }
    ensures calm { result ≢ Err ReadFault.Failed → S.faults input.new ≡ S.faults input.old }
{
    let mut bytes = Vec::new(alloc);
    read_into(input, &mut bytes)?;
    Ok(bytes)
}

/// Reads a job file to its end: the keys of its sessions, and its jobs.
pub(crate) fn read_job_file<S: Source>(
    alloc: Global,
    input: &mut S,
) -> Result<(Vec<Vec<u8>>, Vec<Job>), Cause>
    ensures read { IfOk result (λ r. ReadsBytes (stream S.rest S.faults input.old input.new)
        (λ bytes. Reads bytes (map (λ k. k.items) r.0.items) r.1.items)) }
    ensures sessions { IfOk result (λ r. (vec_len r.0 ≤ MAX_SESSIONS) × All (λ k. IsTrue (is_key_size (length k.items))) r.0.items) }
    ensures count { IfOk result (λ r. length r.1.items ≤ JOB_LIMIT) }
    ensures stops { IfErr result (λ cause. StopsReading Bad Over cause (stream S.rest S.faults input.old input.new)) }
    ensures calm { result ≢ Err Cause.Read → S.faults input.new ≡ S.faults input.old }
{
    let bytes = read_all(alloc, input)?;
    Ok(read_file(alloc, &bytes)?)
}

/// Reads the file of a replay to its end: the keys of its sessions, its jobs, and the commands of its script.
pub(crate) fn read_replay_file<S: Source>(
    alloc: Global,
    input: &mut S,
    submitters: u32,
    workers: u32,
) -> Result<(Vec<Vec<u8>>, Vec<Job>, Vec<Cmd>), Cause>
    ensures read { IfOk result (λ r. ReadsBytes (stream S.rest S.faults input.old input.new)
        (λ bytes. ReadsReplay submitters workers bytes (map (λ k. k.items) r.0.items) r.1.items r.2.items)) }
    ensures count { IfOk result (λ r. length r.1.items ≤ JOB_LIMIT) }
    ensures stops { IfErr result (λ cause. StopsReading (BadReplay submitters workers) OverReplay cause
        (stream S.rest S.faults input.old input.new)) }
    ensures calm { result ≢ Err Cause.Read → S.faults input.new ≡ S.faults input.old }
{
    let bytes = read_all(alloc, input)?;
    Ok(read_replay(alloc, &bytes, submitters, workers)?)
}
