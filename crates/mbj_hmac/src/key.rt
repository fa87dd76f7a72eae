ghost use Rattle.std.specs.Prelude.{◌≡◌, ◌-◌, ◌≤◌, ◌++◌, length, replicate, IfSome};
ghost use Rattle.mbj_types.specs.Auths.{IsHmac, class_of, hash_of, hash_of_name};
ghost use Rattle.mbj_types.specs.Hmac.{block_key, padded_key};

use crate::digests::digest_of;
use mbj_types::{Auth, AuthClass, HashName, SHA512_LENGTHS};

/// The longest block of a hash, in bytes: that of SHA-384 and SHA-512.
pub const MAX_BLOCK_BYTES: usize = SHA512_LENGTHS.block;

/// The byte of the inner pad (RFC 2104, 2).
pub(crate) const IPAD: u8 = 0x36;

/// The byte of the outer pad (RFC 2104, 2).
pub(crate) const OPAD: u8 = 0x5c;

/// The hash of an HMAC.
pub(crate) fn hash_name(auth: Auth) -> HashName
    requires { IsHmac auth }
    ensures { class_of auth ≡ AuthClass.Hmac result }
{
    match auth.class() {
        AuthClass::Hmac(hash) => hash,
        AuthClass::Null
        | AuthClass::Cmac(_)
        | AuthClass::Gcm
        | AuthClass::Ccm
        | AuthClass::Plain(_)
        | AuthClass::Gmac
        | AuthClass::States(_) => unreachable!(),
    }
}

/// A key, and zero bytes behind it.
fn filled(key: &[u8]) -> [u8; MAX_BLOCK_BYTES]
    requires { length key.now ≤ MAX_BLOCK_BYTES }
    ensures { result ≡ key.now ++ replicate (MAX_BLOCK_BYTES - length key.now) 0 }
{
    let mut block = [0; MAX_BLOCK_BYTES];
    block[..key.len()].copy_from_slice(key);
    block
}

/// The bytes of a key, each xored with the byte of a pad.
pub(crate) fn padded(key: &[u8; MAX_BLOCK_BYTES], pad: u8) -> [u8; MAX_BLOCK_BYTES]
    ensures { result ≡ padded_key pad key.now }
{
    let mut block = *key;
    for byte in block.iter_mut() {
        *byte ^= pad;
    }
    block
}

/// The key of one block of a hash, and zero bytes behind it. A key longer than a block is hashed first.
pub(crate) fn hash_key(hash: HashName, key: &[u8]) -> [u8; MAX_BLOCK_BYTES]
    ensures { result ≡ block_key (hash_of_name hash) key.now ++ replicate (MAX_BLOCK_BYTES - (hash_of_name hash).block_bytes) 0 }
{
    if key.len() <= hash.block_bytes() {
        filled(key)
    } else {
        filled(digest_of(hash, key, &[]).bytes())
    }
}

/// The key of one block of an HMAC's hash: the key filled with zero bytes, or its digest if it is longer than
/// the block (RFC 2104, 2). The block is the first 64 or 128 bytes, and the bytes behind it are zero.
pub fn pad_key(auth: Auth, key: &[u8]) -> [u8; MAX_BLOCK_BYTES]
    requires { IsHmac auth }
    ensures { IfSome (hash_of auth) (λ h. result ≡ block_key h key.now ++ replicate (MAX_BLOCK_BYTES - h.block_bytes) 0) }
{
    hash_key(hash_name(auth), key)
}
