//! The sizes of AES (FIPS 197, 5 and 5.2). What else has a size of a key, a schedule or a number of rounds makes it of these.

ghost use Rattle.std.specs.Prelude.{◌≡◌, ◌+◌, ◌*◌, ◌-◌, ◌/◌, ◌≤◌};

use mbj_types::BLOCK_BYTES;

/// The bytes of the longest key.
pub const MAX_KEY_BYTES: usize = 32;

/// The bytes of a word of a key or of a schedule.
pub const WORD_BYTES: usize = 4;

/// The words of the round key of one round.
pub const ROUND_WORDS: usize = BLOCK_BYTES / WORD_BYTES;

// How many rounds there are more than words of the key.
const EXTRA_ROUNDS: usize = 6;

/// How many round keys there are more than words of the key: one before the first round, and those of the rounds.
pub const EXTRA_KEYS: usize = EXTRA_ROUNDS + 1;

/// The words of the longest key.
pub const MAX_KEY_WORDS: usize = MAX_KEY_BYTES / WORD_BYTES;

/// The round keys of the longest schedule.
pub const MAX_ROUND_KEYS: usize = MAX_KEY_WORDS + EXTRA_KEYS;

/// The bytes of the longest schedule.
pub const MAX_SCHEDULE_BYTES: usize = BLOCK_BYTES * MAX_ROUND_KEYS;

/// The number of rounds for a key of `key_bytes` bytes, which are 16, 24 or 32 (FIPS 197, 5).
pub fn round_count(key_bytes: usize) -> usize
    ensures { result ≡ key_bytes / 4 + 6 }
{
    key_bytes / WORD_BYTES + EXTRA_ROUNDS
}

/// The bytes of a key for `rounds` rounds, which are 10, 12 or 14.
pub fn key_size(rounds: usize) -> usize
    requires least { 6 ≤ rounds }
    requires most { rounds ≤ 14 }
    ensures { result ≡ 4 * (rounds - 6) }
{
    WORD_BYTES * (rounds - EXTRA_ROUNDS)
}
