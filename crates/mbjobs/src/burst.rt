ghost use Rattle.std.specs.Prelude.{◌≡◌, ◌≢◌, ◌<◌, ◌≤◌, ◌++◌, Err, IfErr, OnOk, flat_map, length};
ghost use Rattle.mbj_io.specs.Streams.{IsUntouched, stream};
ghost use Rattle.mbj_text.specs.Flow.{Writes};
ghost use Rattle.mbj_text.specs.Line.{text};
ghost use Rattle.mbj_text.specs.declared.limits.TheConstants.{JOB_LIMIT};
ghost use Rattle.mbj_burst.specs.Lines.{line_text};
ghost use Rattle.mbjobs.specs.Outcome.{Completes, Stands};
ghost use Rattle.mbj_command.specs.declared.command.Command.TheVariants as command;

use crate::cause::Cause;
use crate::reading::read_job_file;
use crate::results::write_list;
use mbj_burst::{Told, tell_bursts};
use mbj_io::{Failed, Sink, Source};
use mbj_text::write_lines;
use std::alloc::Global;

/// Writes the lines of the calls, and then those of the results, in the order of the jobs.
fn write_told<O: Sink>(out: &mut O, told: &Told) -> Result<(), Failed>
    requires { length told.now.results.items ≤ JOB_LIMIT }
    ensures { Writes result (stream O.held O.faults out.old out.new)
        (flat_map line_text told.now.lines.items ++ text told.now.results.items) }
{
    write_lines(out, &told.lines)?;
    write_list(out, &told.results)
}

/// Reads a job file, hands its jobs to one manager in groups of `size`, and writes how many results each call gives back,
/// and then the results.
pub(crate) fn run_burst<S: Source, O: Sink>(
    alloc: Global,
    size: u32,
    input: &mut S,
    out: &mut O,
) -> Result<(), Cause>
    requires { 0 < size }
    ensures ok { OnOk result (Completes (command.Burst size) (stream S.rest S.faults input.old input.new)
        (stream O.held O.faults out.old out.new)) }
    ensures err { IfErr result (λ cause. Stands (command.Burst size) cause (stream S.rest S.faults input.old input.new)
        (stream O.held O.faults out.old out.new)) }
    ensures calm { result ≢ Err Cause.Read → S.faults input.new ≡ S.faults input.old }
    ensures untouched { IfErr result (λ cause. cause ≢ Cause.Write
        → IsUntouched (stream O.held O.faults out.old out.new)) }
{
    let (_keys, jobs) = read_job_file(alloc, input)?;
    let told = tell_bursts(alloc, jobs, size)?;
    Ok(write_told(out, &told)?)
}
