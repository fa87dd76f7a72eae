ghost use Rattle.std.specs.Prelude.{◌≡◌};
ghost use Rattle.mbj_c.specs.Codes.{code_of, refusal_code};
ghost use Rattle.mbj_c.specs.declared.refusal.Refusal.TheVariants.{Memory};

use std::alloc::AllocError;

/// Why a call is refused. It then changes nothing, but for `WrongTag`, where the text is cleared, and for `NoRoom` of a call that filled its
/// job before, which stays filled.
#[derive(Clone, Copy, Debug, PartialEq, Eq)]
pub(crate) enum Refusal {
    /// The algorithm doesn't take a text of this length.
    TextLength,
    /// The algorithm doesn't take a key of this length.
    KeyLength,
    /// The algorithm doesn't take an IV, or a nonce, of this length.
    IvLength,
    /// The algorithm doesn't give a tag of this length.
    TagLength,
    /// The additional data is too long.
    AadLength,
    /// The bytes are no state of a text that could go on.
    NoState,
    /// The handle has a set of key sessions already.
    HasKeys,
    /// The handle has no set of key sessions.
    NoKeys,
    /// There are more keys than a set has sessions.
    TooManyKeys,
    /// The tag that came with a text isn't that of the text.
    WrongTag,
    /// `CELLS` jobs are submitted and not given back.
    Full,
    /// A code is no cipher, direction, order, authentication or hash.
    Word,
    /// There wasn't memory enough.
    Memory,
    /// The handle has no manager.
    NoManager,
    /// No job is filled that could be submitted.
    NoJob,
    /// There is too little room for what is written.
    NoRoom,
    /// The handle has a manager already.
    HasManager,
    /// The handle has no seat.
    NoSeat,
    /// A handle has a seat already.
    HasSeat,
    /// A front has 1 to 16 submitters and at most 16 workers.
    SeatCount,
    /// The seat is a worker's, which has no jobs of its own.
    NotSubmitter,
}

impl Refusal {
    /// The number that C gets. It is none of those of a job's reasons, which are 0 to 10.
    pub(crate) fn code(self) -> u32
        ensures { result ≡ refusal_code self }
    {
        match self {
            Refusal::TextLength => 11,
            Refusal::KeyLength => 12,
            Refusal::IvLength => 13,
            Refusal::TagLength => 14,
            Refusal::AadLength => 15,
            Refusal::NoState => 16,
            Refusal::HasKeys => 17,
            Refusal::NoKeys => 18,
            Refusal::TooManyKeys => 19,
            Refusal::WrongTag => 20,
            Refusal::Full => 21,
            Refusal::Word => 22,
            Refusal::Memory => 23,
            Refusal::NoManager => 24,
            Refusal::NoJob => 25,
            Refusal::NoRoom => 26,
            Refusal::HasManager => 27,
            Refusal::NoSeat => 32,
            Refusal::HasSeat => 33,
            Refusal::SeatCount => 34,
            Refusal::NotSubmitter => 35,
        }
    }
}

impl From<AllocError> for Refusal {
    ghost from_gives = { λ e r. r ≡ Memory };

    fn from(_error: AllocError) -> Refusal {
        Refusal::Memory
    }
}

/// The number that C gets of a result: 0, or the code of the refusal.
pub(crate) fn code(answer: Result<(), Refusal>) -> u32
    ensures { result ≡ code_of answer }
{
    match answer {
        Ok(()) => 0,
        Err(refusal) => refusal.code(),
    }
}
