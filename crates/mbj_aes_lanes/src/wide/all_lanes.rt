ghost use Rattle.std.specs.Prelude.{◌≡◌, ℕ, ◌<◌, [], length, slice_index_or};
ghost use Rattle.mbj_types.specs.Aes.{encipher, decipher};
ghost use Rattle.mbj_aes_lanes.specs.KeyLanes.{IsFull, schedule_at};

use crate::blocks::{load_state, store_state};
use crate::lane_blocks::Blocks;
use crate::wide::decryption::decrypt;
use crate::wide::lane_keys::LaneKeys;
use crate::wide::lane_schedules::RoundKeys;
use crate::wide::rounds::encrypt;
use mbj_types::AES_LANES;

/// Encrypts the block in each lane under the schedule that was put there: CIPHER (FIPS 197, 5.1). It takes no memory. Only tests and the
/// bench use it.
pub fn encrypt32(keys: &LaneKeys, blocks: &mut [[u8; 16]; AES_LANES])
    requires { IsFull keys.now }
    ensures each { (i : ℕ) → i < AES_LANES → slice_index_or blocks.new i []
        ≡ encipher (schedule_at keys.now i) (slice_index_or blocks.old i []) }
    ensures lengths { (i : ℕ) → i < AES_LANES → length (slice_index_or blocks.new i []) ≡ 16 }
{
    let mut state = load_state(&Blocks { blocks });
    let keys = RoundKeys {
        words: keys.round_keys(),
    };
    encrypt(&keys, &mut state);
    store_state(blocks, &state);
}

/// Decrypts the block in each lane by the schedule that was put there: INVCIPHER (FIPS 197, 5.3). It takes no memory. Only tests and the
/// bench use it.
pub fn decrypt32(keys: &LaneKeys, blocks: &mut [[u8; 16]; AES_LANES])
    requires { IsFull keys.now }
    ensures each { (i : ℕ) → i < AES_LANES → slice_index_or blocks.new i []
        ≡ decipher (schedule_at keys.now i) (slice_index_or blocks.old i []) }
    ensures lengths { (i : ℕ) → i < AES_LANES → length (slice_index_or blocks.new i []) ≡ 16 }
{
    let mut state = load_state(&Blocks { blocks });
    let keys = RoundKeys {
        words: keys.round_keys(),
    };
    decrypt(&keys, &mut state);
    store_state(blocks, &state);
}
