ghost use Rattle.mbj_io.specs.Streams.{stream};
ghost use Rattle.mbj_text.specs.Flow.{Writes};

use mbj_io::{Failed, Sink};

/// Writes the whole text: what a write leaves is offered again.
///
/// [`Failed`] comes only where the sink's faults rose; the sink has then taken a prefix of the text.
pub fn write_all<O: Sink>(sink: &mut O, text: &[u8]) -> Result<(), Failed>
    ensures { Writes result (stream O.held O.faults sink.old sink.new) text.now }
{
    let mut rest = text;
    while !rest.is_empty() {
        let taken = sink.write(rest)?;
        let (_, after) = rest.split_at(taken);
        rest = after;
    }
    Ok(())
}
