//! Which bytes of its packet a job gives back.

ghost use Rattle.std.specs.Prelude.{◌≡◌};
ghost use Rattle.mbj_c.specs.Ranges.{given_range, narrowed, no_range};

use mbj_args::check;
use mbj_types::{Cipher, Job};

/// A range of a packet: `len` bytes from `off` on.
#[derive(Clone, Copy, Debug, PartialEq, Eq)]
pub struct CipherRange {
    /// Where it begins in the packet, in bytes.
    pub off: u32,
    /// Its length, in bytes.
    pub len: u32,
}

impl CipherRange {
    fn empty() -> CipherRange
        ensures { result ≡ no_range }
    {
        CipherRange { off: 0, len: 0 }
    }

    /// The range that a job gives back: the cipher range, and none if the job has no cipher or is refused.
    pub(crate) fn given_by(job: &Job) -> CipherRange
        ensures { result ≡ given_range job.now }
    {
        if check(job).is_some() {
            return CipherRange::empty();
        }
        match job.cipher {
            Cipher::Null => CipherRange::empty(),
            Cipher::Cbc | Cipher::Ctr | Cipher::Gcm | Cipher::Ccm => CipherRange {
                off: job.cipher_off,
                len: job.cipher_len,
            },
        }
    }
}

/// An offset or a length of C's in 32 bits. A number that 32 bits can't hold becomes the greatest one, which is past the end
/// of every packet that is accepted.
pub(crate) fn narrowed(number: u64) -> u32
    ensures { result ≡ narrowed number }
{
    if number < u32::MAX as u64 {
        number as u32
    } else {
        u32::MAX
    }
}
