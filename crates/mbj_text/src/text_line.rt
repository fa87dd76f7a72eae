ghost use Rattle.std.specs.Prelude.{ℕ, List, flat_map};
ghost use Rattle.mbj_io.specs.Streams.{stream};
ghost use Rattle.mbj_text.specs.Flow.{Writes};

use mbj_io::{Failed, Sink};

/// What is written as a line of text.
pub trait TextLine {
    /// The line, with LF at its end.
    ghost text: { Self → List ℕ };

    /// Writes the line. It takes no memory.
    ///
    /// [`Failed`] comes only where the sink's faults rose; the sink has then taken a prefix of the line.
    fn write<O: Sink>(&self, sink: &mut O) -> Result<(), Failed>
        ensures { Writes result (stream O.held O.faults sink.old sink.new) (text self.now) };
}

/// Writes lines one after another. It takes no memory.
///
/// [`Failed`] comes only where the sink's faults rose; the sink has then taken a prefix of their text.
pub fn write_lines<L: TextLine, O: Sink>(sink: &mut O, lines: &[L]) -> Result<(), Failed>
    ensures { Writes result (stream O.held O.faults sink.old sink.new) (flat_map L.text lines.now) }
{
    for line in lines {
        line.write(sink)?;
    }
    Ok(())
}
