ghost use Rattle.mbj_io.specs.Streams.{stream};
ghost use Rattle.mbj_text.specs.Flow.{Writes};
ghost use Rattle.mbj_text.specs.Line.{ok_line, invalid_line, done_line};

use crate::line::{Part, write_line};
use mbj_io::{Failed, Sink};
use mbj_types::{Done, Status};

/// Writes the line of result n: `N ok PACKET TAG` of a job that was done, `N invalid-args R` of one
/// that was refused. Bytes are in lower-case hexadecimal, `-` for none, and R is the reason's number.
///
/// [`Failed`] comes only where the sink's faults rose; the sink has then taken a prefix of the
/// line. It takes no memory.
pub fn write_done<O: Sink>(sink: &mut O, n: u32, done: &Done) -> Result<(), Failed>
    ensures { Writes result (stream O.held O.faults sink.old sink.new) (done_line n done.now) }
{
    match done.status {
        Status::Ok => write_ok_line(sink, n, done.packet.as_slice(), done.tag.bytes()),
        Status::InvalidArgs(reason) => write_invalid_line(sink, n, reason.number()),
    }
}

/// Writes `N ok PACKET TAG`.
fn write_ok_line<'a, O: Sink>(
    sink: &mut O,
    n: u32,
    packet: &'a [u8],
    tag: &'a [u8],
) -> Result<(), Failed>
    ensures { Writes result (stream O.held O.faults sink.old sink.new) (ok_line n packet.now tag.now) }
{
    let parts = [
        Part::Number(u64::from(n)),
        Part::Words(" ok "),
        Part::Hex(packet),
        Part::Words(" "),
        Part::Hex(tag),
    ];
    write_line(sink, &parts)
}

/// Writes `N invalid-args R`.
fn write_invalid_line<O: Sink>(sink: &mut O, n: u32, reason: u8) -> Result<(), Failed>
    ensures { Writes result (stream O.held O.faults sink.old sink.new) (invalid_line n reason) }
{
    write_line(
        sink,
        &[
            Part::Number(u64::from(n)),
            Part::Words(" invalid-args "),
            Part::Number(u64::from(reason)),
        ],
    )
}
