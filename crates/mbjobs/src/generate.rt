ghost use Rattle.std.specs.Prelude.{◌≡◌, ◌≢◌, ◌⊎◌, ◌<◌, ◌≤◌, ℕ, IfErr, OnOk, Some, length, slice_get};
ghost use Rattle.mbj_io.specs.Streams.{Fails, IsUntouched, stream};
ghost use Rattle.mbj_types.specs.declared.done.Done.{Done};
ghost use Rattle.mbj_text.specs.Flow.{GainsPrefix, WritesAll};
ghost use Rattle.mbj_text.specs.Line.{done_line};
ghost use Rattle.mbj_text.specs.declared.limits.TheConstants.{JOB_LIMIT};
ghost use Rattle.mbj_command.specs.Command.{IsParties};
ghost use Rattle.mbj_gen.specs.Summary.{gen_text, summary_lines};
ghost use Rattle.mbj_gen.specs.declared.line_sink.TheConstants.{LINE_ROOM};

use crate::cause::Cause;
use mbj_gen::{Summary, SummaryLine, make_jobs};
use mbj_io::Sink;
use mbj_keys::Keys;
use mbj_text::write_lines;
use mbj_work::{Gate, Results, do_jobs};
use std::alloc::Global;
use std::sync::Wait;
use std::thread::Threads;

/// The lines of the summary of these results.
fn summarize(results: &Results) -> [SummaryLine; 5]
    requires limit { length results.now ≤ JOB_LIMIT }
    requires lines { (n : ℕ) (done : Done) → slice_get results.now n ≡ Some done → length (done_line n done) < LINE_ROOM }
    ensures { result ≡ summary_lines results.now }
{
    let mut summary = Summary::new();
    for number in 0..results.count() as u32 {
        summary.add(results.at(number));
    }
    summary.lines()
}

/// Makes jobs from a seed, does them, dealt to submitters beside whom `workers` workers serve, and writes a summary of their results.
pub(crate) fn run_gen<R: Threads + Wait + Sync, O: Sink, G: Gate + Sync>(
    rt: &R,
    alloc: Global,
    seed: u64,
    jobs: u32,
    submitters: u32,
    workers: u32,
    out: &mut O,
    gate: &G,
) -> Result<(), Cause>
    requires jobs { jobs ≤ JOB_LIMIT }
    requires parties { IsParties submitters workers }
    ensures ok { OnOk result (WritesAll (stream O.held O.faults out.old out.new) (gen_text seed jobs)) }
    ensures memory { IfErr result (λ cause. (cause ≡ Cause.Memory) ⊎ (cause ≡ Cause.Write)) }
    ensures write { IfErr result (λ cause. cause ≡ Cause.Write → Fails (stream O.held O.faults out.old out.new)
        × GainsPrefix (O.held out.old) (O.held out.new) (gen_text seed jobs)) }
    ensures untouched { IfErr result (λ cause. cause ≢ Cause.Write
        → IsUntouched (stream O.held O.faults out.old out.new)) }
{
    let made = make_jobs(alloc, seed, jobs)?;
    let no_keys = Keys::new(alloc, Vec::new(alloc))?;
    let results = do_jobs(rt, alloc, &no_keys, made, submitters, workers, gate)?;
    let lines = summarize(&results);
    Ok(write_lines(out, &lines)?)
}
