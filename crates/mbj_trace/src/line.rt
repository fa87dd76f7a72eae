ghost use Rattle.mbj_trace.specs.Lines.{line_text};

use mbj_io::{Failed, Sink};
use mbj_text::{Part, TextLine, write_line};
use mbj_types::Kind;

/// A line of a trace. It names jobs by their numbers in the file, from 0 on.
#[derive(Clone, Copy, Debug, PartialEq, Eq)]
pub enum TraceLine {
    /// A job was submitted, and this one was given back, or none.
    Submit {
        job: u32,
        given: Option<u32>,
    },
    /// No cell was left for the next job.
    Full,
    /// A finished job was taken back, or there was none.
    Completed(Option<u32>),
    /// A job was flushed, or there was none.
    Flush(Option<u32>),
    /// How many rounds and blocks the full runs of a kind took.
    Rounds {
        kind: Kind,
        rounds: u64,
        blocks: u64,
    },
}

impl TextLine for TraceLine {
    ghost text = { line_text };

    fn write<O: Sink>(&self, sink: &mut O) -> Result<(), Failed> {
        match self {
            TraceLine::Submit { job, given } => write_line(
                sink,
                &[
                    Part::Words("submit "),
                    Part::Number(*job as u64),
                    Part::Words(" "),
                    Part::or_none(*given),
                ],
            ),
            TraceLine::Full => write_line(sink, &[Part::Words("full")]),
            TraceLine::Completed(given) => {
                write_line(sink, &[Part::Words("completed "), Part::or_none(*given)])
            }
            TraceLine::Flush(given) => {
                write_line(sink, &[Part::Words("flush "), Part::or_none(*given)])
            }
            TraceLine::Rounds {
                kind,
                rounds,
                blocks,
            } => write_line(
                sink,
                &[
                    Part::Words("rounds "),
                    Part::Words(kind.name()),
                    Part::Words(" "),
                    Part::Number(*rounds),
                    Part::Words(" "),
                    Part::Number(*blocks),
                ],
            ),
        }
    }
}
