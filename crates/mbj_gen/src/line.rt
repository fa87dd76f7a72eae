ghost use Rattle.std.specs.Prelude.{◌≡◌};
ghost use Rattle.mbj_text.specs.Line.{line_of};
ghost use Rattle.mbj_gen.specs.Lines.{line_text};

use mbj_io::{Failed, Sink};
use mbj_text::{Part, TextLine, write_line};

/// A line of a summary.
#[derive(Clone, Copy, Debug, PartialEq, Eq)]
pub enum SummaryLine {
    /// How many jobs there were.
    Jobs(u32),
    /// How many of them were accepted.
    Accepted(u32),
    /// How many of them were refused.
    Invalid(u32),
    /// The length of the result text, in bytes.
    Bytes(u64),
    /// The SHA-256 digest of the result text.
    Sha256([u8; 32]),
}

impl SummaryLine {
    /// The word that the line begins with, and what stands behind it.
    fn parts(&self) -> [Part<'_>; 2]
        ensures { line_of result ≡ line_text self.now }
    {
        match self {
            SummaryLine::Jobs(count) => [Part::Words("jobs "), Part::Number(*count as u64)],
            SummaryLine::Accepted(count) => [Part::Words("ok "), Part::Number(*count as u64)],
            SummaryLine::Invalid(count) => [Part::Words("invalid "), Part::Number(*count as u64)],
            SummaryLine::Bytes(count) => [Part::Words("bytes "), Part::Number(*count)],
            SummaryLine::Sha256(digest) => [Part::Words("sha256 "), Part::Hex(digest)],
        }
    }
}

impl TextLine for SummaryLine {
    ghost text = { line_text };

    fn write<O: Sink>(&self, sink: &mut O) -> Result<(), Failed> {
        write_line(sink, &self.parts())
    }
}
