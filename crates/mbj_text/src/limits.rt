ghost use Rattle.std.specs.Prelude.{◌≡◌};

/// The longest input, in bytes.
pub const INPUT_LIMIT: usize = 16_777_216;

/// The most jobs that a file may have.
pub const JOB_LIMIT: usize = 65_536;

/// A law: an input has at most 16,777,216 bytes, and a file at most 65,536 jobs.
pub fn files_have_these_limits()
    ensures bytes { INPUT_LIMIT ≡ 16777216 }
    ensures jobs { JOB_LIMIT ≡ 65536 }
{}
