ghost use Rattle.std.specs.Prelude.{◌≡◌, ◌≢◌, Err, IfErr, OnOk};
ghost use Rattle.mbj_io.specs.Streams.{IsUntouched, stream};
ghost use Rattle.mbj_command.specs.Command.{IsParties};
ghost use Rattle.mbj_command.specs.declared.command.Command.TheVariants.{Run};
ghost use Rattle.mbjobs.specs.Outcome.{Completes, Stands};

use crate::cause::Cause;
use crate::reading::read_job_file;
use crate::results::write_results;
use mbj_io::{Sink, Source};
use mbj_keys::Keys;
use mbj_work::{Gate, do_jobs};
use std::alloc::Global;
use std::sync::Wait;
use std::thread::Threads;

/// Reads a job file, does its jobs, dealt to submitters beside whom `workers` workers serve, and writes their results in the order
/// of the file. The parties share the keys of the file's sessions.
pub(crate) fn run<R: Threads + Wait + Sync, S: Source, O: Sink, G: Gate + Sync>(
    rt: &R,
    alloc: Global,
    submitters: u32,
    workers: u32,
    input: &mut S,
    out: &mut O,
    gate: &G,
) -> Result<(), Cause>
    requires { IsParties submitters workers }
    ensures ok { OnOk result (Completes (Run submitters workers) (stream S.rest S.faults input.old input.new)
        (stream O.held O.faults out.old out.new)) }
    ensures err { IfErr result (λ cause. Stands (Run submitters workers) cause
        (stream S.rest S.faults input.old input.new) (stream O.held O.faults out.old out.new)) }
    ensures calm { result ≢ Err Cause.Read → S.faults input.new ≡ S.faults input.old }
    ensures untouched { IfErr result (λ cause. cause ≢ Cause.Write
        → IsUntouched (stream O.held O.faults out.old out.new)) }
{
    let (keys, jobs) = read_job_file(alloc, input)?;
    let keys = Keys::new(alloc, keys)?;
    let results = do_jobs(rt, alloc, &keys, jobs, submitters, workers, gate)?;
    Ok(write_results(out, &results)?)
}
