//! What is made of a key or of a block beforehand, and digests: calls without a manager.

ghost use Rattle.std.specs.Prelude.{◌≡◌};
ghost use Rattle.mbj_c.specs.Codes.{code_of};
ghost use Rattle.mbj_c.specs.Direct.{digest_by_code, put_both, checked_schedules, checked_subkeys};
ghost use Rattle.mbj_c.specs.Stored.{put_in, state_by_code, states_by_code};

use crate::refusal::code;
use crate::{direct, stored};

/// Writes the states of a key of HMAC to the front of `out`: the inner state and the outer state behind it, whole, as their
/// words, the highest byte of each first (RFC 2104, 4): 40 bytes for SHA-1, 64 for SHA-224 and SHA-256, 128 for SHA-384 and
/// SHA-512. A key longer than a block is hashed first. `hash` is 0 SHA-1, 1 SHA-224, 2 SHA-256, 3 SHA-384, 4 SHA-512. It needs
/// no manager and takes no memory.
///
/// Returns 0, or the code of a refusal: `Word` exactly where the code is no hash; else `NoRoom` exactly where `out` is shorter
/// than the states. A refused call writes nothing.
#[unsafe(no_mangle)]
pub extern "C" fn mbj_hmac_states(hash: u32, key: &[u8], out: &mut [u8]) -> u32
    ensures answer { result ≡ code_of (put_in (states_by_code hash key.now) out.old).0 }
    ensures written { out.new ≡ (put_in (states_by_code hash key.now) out.old).1 }
{
    code(stored::put_states(hash, key, out))
}

/// Writes the state of a hash behind one block to the front of `out`, whole, as its words, the highest byte of each first (FIPS
/// 180-4, 6): 20 bytes for SHA-1, 32 for SHA-224 and SHA-256, 64 for SHA-384 and SHA-512. `hash` is as `mbj_hmac_states` has
/// it. It needs no manager and takes no memory.
///
/// Returns 0, or the code of a refusal: `Word` exactly where the code is no hash; else `TextLength` exactly where the block
/// hasn't 64 bytes, or 128 for SHA-384 and SHA-512; else `NoRoom` exactly where `out` is shorter than the state. A refused call
/// writes nothing.
#[unsafe(no_mangle)]
pub extern "C" fn mbj_one_block(hash: u32, block: &[u8], out: &mut [u8]) -> u32
    ensures answer { result ≡ code_of (put_in (state_by_code hash block.now) out.old).0 }
    ensures written { out.new ≡ (put_in (state_by_code hash block.now) out.old).1 }
{
    code(stored::put_one_block(hash, block, out))
}

/// Writes the schedules of an AES key to the fronts of `encryption` and `decryption`: 176, 208 or 240 bytes each, for a key of 16, 24
/// or 32. The first is that of FIPS 197, 5.2. The second is that of the equivalent inverse cipher (5.3.5) in the order in which it
/// takes the round keys, from the last round down. They are as secret as the key. It needs no manager and takes no memory.
///
/// Returns 0, or the code of a refusal: `KeyLength` exactly where the key has none of these lengths; else `NoRoom` exactly where a room
/// is shorter than a schedule. A refused call writes nothing.
#[unsafe(no_mangle)]
pub extern "C" fn mbj_aes_keys(key: &[u8], encryption: &mut [u8], decryption: &mut [u8]) -> u32
    ensures answer { result ≡ code_of (put_both (checked_schedules key.now) (encryption.old, decryption.old)).0 }
    ensures written { (encryption.new, decryption.new) ≡ (put_both (checked_schedules key.now) (encryption.old, decryption.old)).1 }
{
    code(direct::put_schedules(key, encryption, decryption))
}

/// Writes the subkeys of a key of CMAC, K1 and K2 (SP 800-38B, 6.1), to the fronts of `first` and `second`: 16 bytes each. They are
/// as secret as the key. It needs no manager and takes no memory.
///
/// Returns 0, or the code of a refusal: `KeyLength` exactly where the key has neither 16 nor 32 bytes; else `NoRoom` exactly where a
/// room is shorter than 16 bytes. A refused call writes nothing.
#[unsafe(no_mangle)]
pub extern "C" fn mbj_cmac_subkeys(key: &[u8], first: &mut [u8], second: &mut [u8]) -> u32
    ensures answer { result ≡ code_of (put_both (checked_subkeys key.now) (first.old, second.old)).0 }
    ensures written { (first.new, second.new) ≡ (put_both (checked_subkeys key.now) (first.old, second.old)).1 }
{
    code(direct::put_subkeys(key, first, second))
}

/// Writes the digest of a text to the front of `out`: 20, 28, 32, 48 or 64 bytes by the hash (FIPS 180-4). `hash` is as
/// `mbj_hmac_states` has it. It needs no manager and takes no memory.
///
/// Returns 0, or the code of a refusal: `Word` exactly where the code is no hash; else `NoRoom` exactly where `out` is shorter than the
/// digest. A refused call writes nothing.
#[unsafe(no_mangle)]
pub extern "C" fn mbj_digest(hash: u32, text: &[u8], out: &mut [u8]) -> u32
    ensures answer { result ≡ code_of (put_in (digest_by_code hash text.now) out.old).0 }
    ensures written { out.new ≡ (put_in (digest_by_code hash text.now) out.old).1 }
{
    code(direct::put_digest(hash, text, out))
}
