ghost use Rattle.mbj_burst.specs.Lines.{line_text};

use mbj_io::{Failed, Sink};
use mbj_text::{Part, TextLine, write_line};

/// A line of a burst.
#[derive(Clone, Copy, Debug, PartialEq, Eq)]
pub enum BurstLine {
    /// This many jobs were submitted, and this many results were given back.
    Submit { jobs: u32, given: u32 },
    /// No cell was left for the next job.
    Full,
    /// A flush gave back this many results.
    Flush(u32),
}

impl TextLine for BurstLine {
    ghost text = { line_text };

    fn write<O: Sink>(&self, sink: &mut O) -> Result<(), Failed> {
        match self {
            BurstLine::Submit { jobs, given } => write_line(
                sink,
                &[
                    Part::Words("submit "),
                    Part::Number(*jobs as u64),
                    Part::Words(" "),
                    Part::Number(*given as u64),
                ],
            ),
            BurstLine::Full => write_line(sink, &[Part::Words("full")]),
            BurstLine::Flush(given) => {
                write_line(sink, &[Part::Words("flush "), Part::Number(*given as u64)])
            }
        }
    }
}
