ghost use Rattle.std.specs.Prelude.{◌≡◌, ◌≢◌, Err, IfErr, OnOk};
ghost use Rattle.mbj_io.specs.Streams.{IsUntouched, stream};
ghost use Rattle.mbjobs.specs.Outcome.{Completes, Stands};
ghost use Rattle.mbj_command.specs.declared.command.Command.TheVariants as command;

use crate::cause::Cause;
use crate::reading::read_job_file;
use mbj_io::{Sink, Source};
use mbj_text::write_lines;
use mbj_trace::trace_lines;
use std::alloc::Global;

/// Reads a job file, and writes what each call of one manager gives back over its jobs.
pub(crate) fn run_trace<S: Source, O: Sink>(
    alloc: Global,
    input: &mut S,
    out: &mut O,
) -> Result<(), Cause>
    ensures ok { OnOk result (Completes command.Trace (stream S.rest S.faults input.old input.new)
        (stream O.held O.faults out.old out.new)) }
    ensures err { IfErr result (λ cause. Stands command.Trace cause (stream S.rest S.faults input.old input.new)
        (stream O.held O.faults out.old out.new)) }
    ensures calm { result ≢ Err Cause.Read → S.faults input.new ≡ S.faults input.old }
    ensures untouched { IfErr result (λ cause. cause ≢ Cause.Write
        → IsUntouched (stream O.held O.faults out.old out.new)) }
{
    let (_keys, jobs) = read_job_file(alloc, input)?;
    let lines = trace_lines(alloc, jobs)?;
    Ok(write_lines(out, &lines)?)
}
