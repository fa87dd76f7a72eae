//! The bytes of a key in an array, as an entry keeps them.
ghost use Rattle.std.specs.Prelude.{◌≡◌, ◌-◌, ◌*◌, ◌/◌, ◌+◌, length};
ghost use Rattle.mbj_types.specs.Aes.{key_schedule, round_count};
ghost use Rattle.mbj_aes.specs.Bytes.{IsKeySize, IsRoundCount};
ghost use Rattle.mbj_aes_lanes.specs.KeyBytes.{IsKeyArray, key_of_array};

use mbj_aes::{MAX_KEY_BYTES, Schedule, key_size};

/// The bytes of a key of 16, 24 or 32 bytes, and zeros behind them.
pub fn bytes_of_key(key: &[u8]) -> [u8; 32]
    requires { IsKeySize (length key.now) }
    ensures rounds { IsRoundCount (round_count key.now) }
    ensures array { IsKeyArray (round_count key.now) result }
    ensures key { key_of_array (round_count key.now) result ≡ key.now }
{
    let mut bytes = [0; MAX_KEY_BYTES];
    bytes[..key.len()].copy_from_slice(key);
    bytes
}

/// The bytes of the key of a schedule, and zeros behind them.
pub fn bytes_of_schedule(key: &Schedule) -> [u8; 32]
    ensures rounds { IsRoundCount (length key.now / 16 - 1) }
    ensures array { IsKeyArray (length key.now / 16 - 1) result }
    ensures schedule { key_schedule (key_of_array (length key.now / 16 - 1) result) ≡ key.now }
{
    let size = key_size(key.rounds() as usize);
    let bytes = key.key();
    bytes_of_key(&bytes[..size])
}

/// The schedule of the key of `rounds` rounds with which an array begins.
pub fn schedule_of_bytes(bytes: &[u8; 32], rounds: usize) -> Schedule
    requires rounds { IsRoundCount rounds }
    requires array { IsKeyArray rounds bytes.now }
    ensures schedule { result ≡ key_schedule (key_of_array rounds bytes.now) }
    ensures length { length result ≡ 16 * (rounds + 1) }
{
    let size = key_size(rounds);
    Schedule::expand(&bytes[..size])
}
