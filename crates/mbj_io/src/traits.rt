ghost use Rattle.std.specs.Prelude.{◌≡◌, ℕ, ◌<◌, ◌≤◌, List, Option, length, IfOk, OnOk, OnErr};
ghost use Rattle.std.specs.Io.{ReadsAtMost, WritesAtMost};
ghost use Rattle.std.specs.Io.KnownBytes.{ReadConsumes, WriteAppends};
ghost use Rattle.mbj_io.specs.Faults.{Rose, counted};

use std::error::Error;
use std::fmt;

/// A read or a write that failed. What went wrong is not told, only that the count of faults rose.
#[derive(Clone, Copy, Debug, PartialEq, Eq)]
pub struct Failed;

impl fmt::Display for Failed {
    fn fmt<W: fmt::Write>(&self, f: &mut fmt::Formatter<W>) -> fmt::Result {
        f.write_str("a read or a write failed")
    }
}

impl Error for Failed {}

/// Where bytes come from.
///
/// ```
/// match source.read(buf) {
///     Ok(count) => expected == Ok(&buf[..count]),
///     Err(fault) => expected == Err(fault),
/// }
/// ```
pub trait Source {
    /// The bytes that are not yet read, if the source tells them.
    ghost rest: { Self → Option (List ℕ) };

    /// How often the source has failed.
    ghost faults: { Self → ℕ };

    /// Puts the next bytes into the front of `buf`, and returns how many: at most `buf.len()`.
    ///
    /// `Ok(0)` on a buffer that isn't empty means the end. [`Failed`] counts exactly one fault, unless
    /// the count stands at its last value, and nothing is taken then. Every other call leaves the
    /// count as it was.
    fn read(&mut self, buf: &mut [u8]) -> Result<usize, Failed>
        ensures bound { ReadsAtMost result buf.new }
        ensures bytes { ReadConsumes (rest self.old) (rest self.new) result buf.new }

        ensures never_falls { faults self.old ≤ faults self.new }
        ensures calm { OnOk result (faults self.new ≡ faults self.old) }
        ensures failed { OnErr result (Rose (faults self.old) (faults self.new)) }
        ensures once { OnErr result (faults self.new ≡ counted (faults self.old)) };
}

/// Where bytes go.
pub trait Sink {
    /// The bytes that were taken, if the sink tells them.
    ghost held: { Self → Option (List ℕ) };

    /// How often the sink has failed.
    ghost faults: { Self → ℕ };

    /// Takes bytes off the front of `buf`, and returns how many: at most `buf.len()`, and at least
    /// one if `buf` isn't empty.
    ///
    /// [`Failed`] comes only where the count of faults rose in this call, or stands at its last
    /// value, and nothing is taken then. Every other call leaves the count as it was.
    fn write(&mut self, buf: &[u8]) -> Result<usize, Failed>
        ensures bound { WritesAtMost result buf.now }
        ensures some { IfOk result (λ n. 0 < length buf.now → 0 < n) }
        ensures bytes { WriteAppends (held self.old) (held self.new) result buf.now }

        ensures never_falls { faults self.old ≤ faults self.new }
        ensures calm { OnOk result (faults self.new ≡ faults self.old) }
        ensures failed { OnErr result (Rose (faults self.old) (faults self.new)) };
}
