//! HMAC of one message by itself. No product calls it: it is what the HMACs in lanes are compared with.
ghost use Rattle.std.specs.Prelude.{◌≡◌, length, IfSome};
ghost use Rattle.mbj_types.specs.Auths.{IsHmac, hash_of, hash_of_name};
ghost use Rattle.mbj_types.specs.Hmac.{hmac};

use crate::digests::digest_of;
use crate::key::{IPAD, OPAD, hash_key, hash_name, padded};
use mbj_types::{Auth, HashName, Tag};

/// HMAC over a hash.
fn hmac_by(hash: HashName, key: &[u8], message: &[u8]) -> Tag
    ensures value { result ≡ hmac (hash_of_name hash) key.now message.now }
    ensures len { length result ≡ (hash_of_name hash).digest_bytes }
{
    let key = hash_key(hash, key);
    let block = hash.block_bytes();
    let inner = digest_of(hash, &padded(&key, IPAD)[..block], message);
    digest_of(hash, &padded(&key, OPAD)[..block], inner.bytes())
}

/// HMAC of a message under a key, in full: 20, 28, 32, 48 or 64 bytes by the hash (RFC 2104, 2).
///
/// It takes no memory. The authentication is one of the five HMACs.
pub fn hmac_plain(auth: Auth, key: &[u8], message: &[u8]) -> Tag
    requires { IsHmac auth }
    ensures value { IfSome (hash_of auth) (λ h. result ≡ hmac h key.now message.now) }
    ensures len { IfSome (hash_of auth) (λ h. length result ≡ h.digest_bytes) }
{
    hmac_by(hash_name(auth), key, message)
}
