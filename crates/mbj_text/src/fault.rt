ghost use Rattle.std.specs.Prelude.{◌≡◌};
ghost use Rattle.mbj_text.specs.declared.fault.LineFault.TheVariants as line_fault;
ghost use Rattle.mbj_text.specs.declared.fault.TextFault.TheVariants as text_fault;
ghost use Rattle.mbj_text.specs.Inside.Reading.{fault_at};

use std::alloc::{AllocError, AllocFailed};
use std::error::Error;
use std::fmt;

/// Why a file isn't read. Lines are counted from 1.
#[derive(Clone, Copy, Debug, PartialEq, Eq)]
pub enum TextFault {
    /// The line is the first that is neither a session nor a job, or, behind these lines, no command. The
    /// field is 0 if the line hasn't as many fields as it should, else the number, from 1 on, of the
    /// first field that isn't of its form. It is 1 for a session line that is one more than a file may have.
    Line { line: u32, field: u32 },
    /// The line is one job line more than a file may have.
    Limit { line: u32 },
    /// There wasn't memory enough.
    Memory,
}

impl fmt::Display for TextFault {
    fn fmt<W: fmt::Write>(&self, f: &mut fmt::Formatter<W>) -> fmt::Result {
        match self {
            TextFault::Line { line, field: 0 } => {
                write!(f, "line {line} has a wrong number of fields")
            }
            TextFault::Line { line, field } => {
                write!(f, "field {field} of line {line} isn't of its form")
            }
            TextFault::Limit { line } => {
                write!(f, "line {line} is one job line more than a file may have")
            }
            TextFault::Memory => f.write_str("there wasn't memory enough"),
        }
    }
}

impl Error for TextFault {}

/// Why a line isn't read.
#[derive(Clone, Copy)]
pub(crate) enum LineFault {
    /// The field with this number, as in `TextFault`.
    Field(u32),
    /// It is one job line more than a file may have.
    Limit,
    /// There wasn't memory enough.
    Memory,
}

impl LineFault {
    /// The fault of a file whose line with this number has this fault.
    pub(crate) fn at(self, line: u32) -> TextFault
        ensures { result ≡ fault_at line self }
    {
        match self {
            LineFault::Field(field) => TextFault::Line { line, field },
            LineFault::Limit => TextFault::Limit { line },
            LineFault::Memory => TextFault::Memory,
        }
    }
}

impl<T: Drop> From<AllocFailed<T>> for TextFault {
    ghost from_gives = { λ _ e. e ≡ text_fault.Memory };

    fn from(_e: AllocFailed<T>) -> TextFault {
        TextFault::Memory
    }
}

impl<T: Drop> From<AllocFailed<T>> for LineFault {
    ghost from_gives = { λ _ e. e ≡ line_fault.Memory };

    fn from(_e: AllocFailed<T>) -> LineFault {
        LineFault::Memory
    }
}

impl From<AllocError> for LineFault {
    ghost from_gives = { λ _ e. e ≡ line_fault.Memory };

    fn from(_e: AllocError) -> LineFault {
        LineFault::Memory
    }
}
