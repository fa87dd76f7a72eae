ghost use Rattle.std.specs.Prelude.{◌≡◌, ℕ, ◌+◌, ◌-◌, ◌*◌, ◌/◌, ◌≤◌, List, ◌++◌, length, take, replicate};
ghost use Rattle.mbj_types.specs.Aes.{key_schedule, round_count, round_key, encipher, decipher, aes, aes_inverse};
ghost use Rattle.mbj_aes.specs.Bytes.{IsBytes, IsKeySize, IsRoundCount};

use crate::expansion::expanded_key;
use crate::sizes::{MAX_KEY_BYTES, MAX_SCHEDULE_BYTES, key_size, round_count};
use mbj_types::BLOCK_BYTES;
use std::marker::Model;

/// The round keys of an AES key (FIPS 197, 5.2), which contracts see as the list of their bytes, 16 for each of
/// 10, 12 or 14 rounds and 16 more. It is a plain value of 244 bytes, `Copy`, and owns no memory.
#[derive(Clone, Copy)]
pub struct Schedule {
    bytes: [u8; MAX_SCHEDULE_BYTES],
    rounds: u32,
}

// The size that stands in the documentation.
const _: () = prove!(size_of::<Schedule>() == 244);

impl Model for Schedule {
    ghost use Rattle.std.specs.Prelude.{ℕ, ◌+◌, ◌-◌, ◌*◌, ◌/◌, List, length, take, ◌++◌, replicate};
    ghost use Rattle.mbj_aes.specs.Bytes.{IsBytes, IsRoundCount};
    ghost use Rattle.mbj_aes.specs.Inside.Padding.{IsPadded};
    ghost use Rattle.mbj_aes.specs.Inside.FirstKeys.{IsExpanded};
    ghost use Rattle.mbj_aes.specs.declared.sizes.TheConstants.{MAX_SCHEDULE_BYTES};

    ghost Value = { List ℕ };

    ghost view = { λ s. take (16 * (s.rounds + 1)) s.bytes };

    ghost invariant = { λ s. IsRoundCount s.rounds × IsBytes s.bytes
        × IsPadded MAX_SCHEDULE_BYTES (16 * (s.rounds + 1)) s.bytes × IsExpanded s.rounds s.bytes };

    ghost inverse = { λ w. record {
      bytes = w ++ replicate (MAX_SCHEDULE_BYTES - length w) 0;
      rounds = length w / 16 - 1;
    } };
}

impl Schedule {
    /// The schedule of a key of 16, 24 or 32 bytes: KEYEXPANSION (FIPS 197, 5.2). It takes no memory.
    ///
    /// ```
    /// let schedule = Schedule::expand(&ROUND_KEYS[0].1.to_be_bytes());
    /// for (round, key) in &ROUND_KEYS {
    ///     assert!(rt; has_round_key(&schedule, *round, *key), "{round}");
    /// }
    /// ```
    pub fn expand(key: &[u8]) -> Schedule
        requires { IsKeySize (length key.now) }
        ensures schedule { result ≡ key_schedule key.now }
        ensures length { length result ≡ 16 * (round_count key.now + 1) }
        ensures encipher { (b : List ℕ) → encipher result b ≡ aes key.now b }
        ensures decipher { (b : List ℕ) → decipher result b ≡ aes_inverse key.now b }
    {
        Schedule {
            bytes: expanded_key(key),
            rounds: round_count(key.len()) as u32,
        }
    }

    /// The number of rounds: 10, 12 or 14 for a key of 16, 24 or 32 bytes (FIPS 197, 5).
    pub fn rounds(&self) -> u32
        ensures value { result ≡ length self.now / 16 - 1 }
        ensures count { IsRoundCount result }
        ensures least { 10 ≤ result }
        ensures most { result ≤ 14 }
        ensures length { length self.now ≡ 16 * (result + 1) }
        ensures bytes { IsBytes self.now }
    {
        self.rounds
    }

    /// The round key of round `r`, which is at most `rounds`: the bytes of words `4 * r` to `4 * r + 3`. Round 0
    /// stands for what is added before the first round.
    pub fn round_key(&self, r: u32) -> [u8; 16]
        requires { r ≤ length self.now / 16 - 1 }
        ensures { result ≡ round_key self.now r }
    {
        let start = BLOCK_BYTES * r as usize;
        let mut key = [0; BLOCK_BYTES];
        key.copy_from_slice(&self.bytes[start..start + BLOCK_BYTES]);
        key
    }

    /// The key of which this is the schedule: 16, 24 or 32 bytes, and zeros behind them.
    pub fn key(&self) -> [u8; MAX_KEY_BYTES]
        ensures expansion { key_schedule (take (length self.now / 4 - 28) result) ≡ self.now }
        ensures padded { result ≡ take (length self.now / 4 - 28) result ++ replicate (60 - length self.now / 4) 0 }
    {
        let size = key_size(self.rounds as usize);
        let mut key = [0; MAX_KEY_BYTES];
        key[..size].copy_from_slice(&self.bytes[..size]);
        key
    }
}
