//! The states from which HMACs go on, for C that stores them (RFC 2104, 4).

ghost use Rattle.std.specs.Prelude.{◌≡◌, Ok};
ghost use Rattle.mbj_types.specs.Auths.{class_of};
ghost use Rattle.mbj_types.specs.declared.class.AuthClass.TheVariants as class;
ghost use Rattle.mbj_c.specs.Stored.{put_in, state_by_code, states_by_code};

use crate::giving::put_front;
use crate::refusal::Refusal;
use crate::words::hash_at;
use mbj_hmac::{one_block, states};
use mbj_types::{Auth, HashName};

/// HMAC with this hash.
fn hmac_with(hash: HashName) -> Auth
    ensures { class_of result ≡ class.Hmac hash }
{
    match hash {
        HashName::Sha1 => Auth::HmacSha1,
        HashName::Sha224 => Auth::HmacSha224,
        HashName::Sha256 => Auth::HmacSha256,
        HashName::Sha384 => Auth::HmacSha384,
        HashName::Sha512 => Auth::HmacSha512,
    }
}

/// Puts bytes at the front of their room. Returns `NoRoom` exactly where that is shorter; nothing is written then.
pub(crate) fn put(bytes: &[u8], room: &mut [u8]) -> Result<(), Refusal>
    ensures answer { result ≡ (put_in (Ok bytes.now) room.old).0 }
    ensures written { room.new ≡ (put_in (Ok bytes.now) room.old).1 }
{
    if bytes.len() > room.len() {
        return Err(Refusal::NoRoom);
    }
    put_front(room, bytes);
    Ok(())
}

/// Puts the states of a key of HMAC at the front of their room.
pub(crate) fn put_states(hash: u32, key: &[u8], room: &mut [u8]) -> Result<(), Refusal>
    ensures answer { result ≡ (put_in (states_by_code hash key.now) room.old).0 }
    ensures written { room.new ≡ (put_in (states_by_code hash key.now) room.old).1 }
{
    let Some(hash) = hash_at(hash) else {
        return Err(Refusal::Word);
    };
    let made = states(hmac_with(hash), key);
    put(&made[..2 * hash.state_bytes()], room)
}

/// Puts the state of a hash behind one block at the front of its room.
pub(crate) fn put_one_block(hash: u32, block: &[u8], room: &mut [u8]) -> Result<(), Refusal>
    ensures answer { result ≡ (put_in (state_by_code hash block.now) room.old).0 }
    ensures written { room.new ≡ (put_in (state_by_code hash block.now) room.old).1 }
{
    let Some(hash) = hash_at(hash) else {
        return Err(Refusal::Word);
    };
    if block.len() != hash.block_bytes() {
        return Err(Refusal::TextLength);
    }
    put(&one_block(hash, block)[..hash.state_bytes()], room)
}
