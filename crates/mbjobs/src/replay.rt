ghost use Rattle.std.specs.Prelude.{◌≡◌, ◌≢◌, Err, IfErr, OnOk};
ghost use Rattle.mbj_command.specs.Command.{IsParties};
ghost use Rattle.mbj_io.specs.Streams.{IsUntouched, stream};
ghost use Rattle.mbjobs.specs.Outcome.{Completes, Stands};
ghost use Rattle.mbj_command.specs.declared.command.Command.TheVariants as command;

use crate::cause::Cause;
use crate::reading::read_replay_file;
use mbj_io::{Sink, Source};
use mbj_replay::replay_lines;
use mbj_text::write_lines;
use std::alloc::Global;

/// Reads the file of a replay, and writes the outcome of each command of its script.
pub(crate) fn run_replay<S: Source, O: Sink>(
    alloc: Global,
    submitters: u32,
    workers: u32,
    input: &mut S,
    out: &mut O,
) -> Result<(), Cause>
    requires { IsParties submitters workers }
    ensures ok { OnOk result (Completes (command.Replay submitters workers)
        (stream S.rest S.faults input.old input.new) (stream O.held O.faults out.old out.new)) }
    ensures err { IfErr result (λ cause. Stands (command.Replay submitters workers) cause
        (stream S.rest S.faults input.old input.new) (stream O.held O.faults out.old out.new)) }
    ensures calm { result ≢ Err Cause.Read → S.faults input.new ≡ S.faults input.old }
    ensures untouched { IfErr result (λ cause. cause ≢ Cause.Write
        → IsUntouched (stream O.held O.faults out.old out.new)) }
{
    let (_keys, jobs, commands) = read_replay_file(alloc, input, submitters, workers)?;
    let lines = replay_lines(alloc, jobs, commands, submitters, workers)?;
    Ok(write_lines(out, &lines)?)
}
