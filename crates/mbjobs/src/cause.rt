ghost use Rattle.std.specs.Prelude.{◌≡◌};
ghost use Rattle.mbjobs.specs.Message.{status_for};
ghost use Rattle.mbjobs.specs.declared.cause.Cause.TheVariants as variant;

use mbj_io::Failed;
use mbj_text::{INPUT_LIMIT, TextFault};
use std::alloc::AllocError;
use std::error::Error;
use std::fmt;

/// Why a command didn't complete. Lines are counted from 1.
#[derive(Clone, Copy, Debug, PartialEq, Eq)]
pub enum Cause {
    /// A read of the input failed.
    Read,
    /// A write to standard output failed.
    Write,
    /// The first line that is no session line, job line or command. The field is 0 if the line has too few or too many
    /// fields, else the first one that isn't as the file's format has it.
    Line { line: u32, field: u32 },
    /// The input is longer than 16,777,216 bytes.
    Bytes,
    /// The line is one job line more than the 65,536 that a file may have.
    Jobs { line: u32 },
    /// There wasn't memory enough.
    Memory,
}

impl Cause {
    /// The status that the program ends with.
    pub fn status(&self) -> u8
        ensures { result ≡ status_for self.now }
    {
        match self {
            Cause::Read => 3,
            Cause::Write => 4,
            Cause::Line { .. } => 5,
            Cause::Bytes | Cause::Jobs { .. } => 6,
            Cause::Memory => 7,
        }
    }
}

impl fmt::Display for Cause {
    fn fmt<W: fmt::Write>(&self, f: &mut fmt::Formatter<W>) -> fmt::Result {
        match self {
            Cause::Read => f.write_str("a read of the input failed"),
            Cause::Write => f.write_str("a write to standard output failed"),
            Cause::Line { line, field } => TextFault::Line {
                line: *line,
                field: *field,
            }
            .fmt(f),
            Cause::Bytes => write!(f, "the input is longer than {INPUT_LIMIT} bytes"),
            Cause::Jobs { line } => TextFault::Limit { line: *line }.fmt(f),
            Cause::Memory => TextFault::Memory.fmt(f),
        }
    }
}

impl Error for Cause {}

impl From<Failed> for Cause {
    ghost from_gives = { λ _ given. given ≡ variant.Write };

    /// The fault of a sink.
    fn from(_fault: Failed) -> Cause {
        Cause::Write
    }
}

impl From<AllocError> for Cause {
    ghost from_gives = { λ _ given. given ≡ variant.Memory };

    fn from(_e: AllocError) -> Cause {
        Cause::Memory
    }
}
