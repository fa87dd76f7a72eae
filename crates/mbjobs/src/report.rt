ghost use Rattle.std.specs.Prelude.{◌≢◌, ℕ, List, []};
ghost use Rattle.mbj_text.specs.Line.{line_of};
ghost use Rattle.mbjobs.specs.Message.{message_of};
ghost use Rattle.mbjobs.specs.Outcome.{Gains};
ghost use Rattle.mbj_io.specs.Streams.{stream};

use crate::cause::Cause;
use mbj_io::Sink;
use mbj_text::{Part, write_all, write_line};

/// Writes a line. A fault of the sink is passed over.
fn tell_line<E: Sink>(err: &mut E, parts: &[Part])
    ensures { Gains (stream E.held E.faults err.old err.new) (line_of parts.now) }
{
    let _ = write_line(err, parts);
}

/// Tells the cause in one line. A fault of the sink is passed over.
pub(crate) fn report<E: Sink>(err: &mut E, cause: Cause)
    ensures { Gains (stream E.held E.faults err.old err.new) (message_of cause) }
{
    match cause {
        Cause::Read => tell_line(err, &[Part::Words("mbjobs: read failed")]),
        Cause::Write => tell_line(err, &[Part::Words("mbjobs: write failed")]),
        Cause::Line { line, field } => tell_line(
            err,
            &[
                Part::Words("mbjobs: line "),
                Part::Number(line as u64),
                Part::Words(": field "),
                Part::Number(field as u64),
            ],
        ),
        Cause::Bytes => tell_line(err, &[Part::Words("mbjobs: input over 16777216 bytes")]),
        Cause::Jobs { line } => tell_line(
            err,
            &[
                Part::Words("mbjobs: line "),
                Part::Number(line as u64),
                Part::Words(": over 65536 jobs"),
            ],
        ),
        Cause::Memory => tell_line(err, &[Part::Words("mbjobs: out of memory")]),
    }
}

/// Tells what is wrong with the words, or the help that they ask for; if the text is empty, that they are no command. A
/// fault of the sink is passed over.
pub(crate) fn report_words<E: Sink>(err: &mut E, text: &String)
    ensures { (told : List ℕ) × (told ≢ []) × Gains (stream E.held E.faults err.old err.new) told }
{
    if text.is_empty() {
        tell_line(err, &[Part::Words("mbjobs: no command")]);
    } else {
        let _ = write_all(err, text.as_bytes());
    }
}
