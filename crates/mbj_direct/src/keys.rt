//! The schedules of a key, for a program that keeps them.
ghost use Rattle.std.specs.Prelude.{◌≡◌, ◌-◌, ◌/◌, ◌≤◌, ◌++◌, length, replicate};
ghost use Rattle.mbj_aes.specs.declared.sizes.TheConstants.{MAX_SCHEDULE_BYTES};
ghost use Rattle.mbj_direct.specs.Schedules.{inverse_round_key, inverse_schedule};

use crate::columns::inv_mix_columns;
use mbj_aes::{MAX_SCHEDULE_BYTES, Schedule};
use mbj_blocks::put_block;
use mbj_types::BLOCK_BYTES;

/// The round keys for encryption one after another, from that of round 0 on (FIPS 197, 5.2), and zero bytes behind them: 176, 208
/// or 240 bytes for a key of 16, 24 or 32. They are as secret as the key. It takes no memory.
pub fn encryption_schedule(key: &Schedule) -> [u8; MAX_SCHEDULE_BYTES]
    ensures { result ≡ key.now ++ replicate (MAX_SCHEDULE_BYTES - length key.now) 0 }
{
    let mut bytes = [0; MAX_SCHEDULE_BYTES];
    'rounds: for r in 0..key.rounds() + 1 {
        put_block(&mut bytes, r as usize, &key.round_key(r));
    }
    bytes
}

// Round key `r` of the equivalent inverse cipher.
fn inverse_round_key(key: &Schedule, r: u32) -> [u8; BLOCK_BYTES]
    requires { r ≤ length key.now / 16 - 1 }
    ensures { result ≡ inverse_round_key key.now (length key.now / 16 - 1) r }
{
    let round_key = key.round_key(r);
    if r == 0 || r == key.rounds() {
        round_key
    } else {
        inv_mix_columns(&round_key)
    }
}

/// The round keys of the equivalent inverse cipher (FIPS 197, 5.3.5) one after another, in the order in which it takes them, from
/// that of the last round down to that of round 0, and zero bytes behind them. Those between the first and the last one went
/// through INVMIXCOLUMNS. They are as secret as the key. It takes no memory.
pub fn inverse_schedule(key: &Schedule) -> [u8; MAX_SCHEDULE_BYTES]
    ensures { result ≡ inverse_schedule key.now ++ replicate (MAX_SCHEDULE_BYTES - length key.now) 0 }
{
    let mut bytes = [0; MAX_SCHEDULE_BYTES];
    let rounds = key.rounds();
    'rounds: for r in 0..rounds + 1 {
        put_block(&mut bytes, r as usize, &inverse_round_key(key, rounds - r));
    }
    bytes
}
