ghost use Rattle.std.specs.Prelude.{◌≤◌, length};
ghost use Rattle.mbj_io.specs.Streams.{stream};
ghost use Rattle.mbj_text.specs.Flow.{Writes};
ghost use Rattle.mbj_text.specs.Line.{text};
ghost use Rattle.mbj_text.specs.declared.limits.TheConstants.{JOB_LIMIT};

use mbj_io::{Failed, Sink};
use mbj_text::write_done;
use mbj_types::Done;
use mbj_work::Results;

/// Writes the line of each result of a list, in the list's order.
pub(crate) fn write_list<O: Sink>(out: &mut O, results: &[Done]) -> Result<(), Failed>
    requires { length results.now ≤ JOB_LIMIT }
    ensures { Writes result (stream O.held O.faults out.old out.new) (text results.now) }
{
    for number in 0..results.len() as u32 {
        write_done(out, number, &results[number as usize])?;
    }
    Ok(())
}

/// Writes the line of each result, in the order of the jobs.
pub(crate) fn write_results<O: Sink>(out: &mut O, results: &Results) -> Result<(), Failed>
    requires { length results.now ≤ JOB_LIMIT }
    ensures { Writes result (stream O.held O.faults out.old out.new) (text results.now) }
{
    for number in 0..results.count() as u32 {
        write_done(out, number, results.at(number))?;
    }
    Ok(())
}
