ghost use Rattle.std.specs.Prelude.{◌≡◌, ℕ};
ghost use Rattle.mbj_core.specs.Cells.{open_by, hand_of, take_by, word_of};

/// The word of a cell that holds nothing.
pub const FREE: u64 = 0;

/// The word of a cell with a job that no party has claimed.
pub const READY: u64 = 1;

/// The word of a cell with a result.
pub const DONE: u64 = 2;

/// How many words each party has.
const PARTY_WORDS: u64 = 3;

/// The word of a cell that the party fills.
pub(crate) fn open_word(party: u32) -> u64
    ensures { result ≡ word_of {J = ℕ} {D = ℕ} (open_by party) }
{
    3 + PARTY_WORDS * party as u64
}

/// The word of a cell whose job is with the party.
pub(crate) fn hand_word(party: u32) -> u64
    ensures { result ≡ word_of {J = ℕ} {D = ℕ} (hand_of party 0) }
{
    4 + PARTY_WORDS * party as u64
}

/// The word of a cell that the party empties.
pub(crate) fn take_word(party: u32) -> u64
    ensures { result ≡ word_of {J = ℕ} {D = ℕ} (take_by party) }
{
    5 + PARTY_WORDS * party as u64
}
