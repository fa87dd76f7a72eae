ghost use Rattle.std.specs.Prelude.{◌≡◌, IfOk, map};
ghost use Rattle.mbj_text.specs.Inside.Reading.{key_of, key_at, cipher_key_of};

use crate::field::{Field, number};
use mbj_types::{Bytes, is_key_size};
use std::alloc::{AllocError, Global};
use std::marker::Model;

/// The key of a cipher, and the number of the session that it is from, if there is one.
#[derive(Drop)]
pub(crate) struct CipherKey {
    pub(crate) key: Bytes,
    pub(crate) session: Option<u32>,
}

impl Model for CipherKey {
    ghost use Rattle.std.specs.Prelude.{List, ℕ, Option};

    ghost Value = { List ℕ × Option ℕ };

    ghost view = { λ k. (k.key, k.session) };
}

/// The key of a session: bytes of an AES key.
pub(crate) fn session_key(alloc: Global, text: &[u8]) -> Result<Option<Bytes>, AllocError>
    ensures { IfOk result (λ key. key ≡ key_of text.now) }
{
    Ok(Bytes::read(alloc, text)?.filter(|key| is_key_size(key.as_slice().len())))
}

/// The key of a cipher: bytes, or `@N` for the key of session N among these.
pub(crate) fn cipher_key(
    alloc: Global,
    text: &[u8],
    keys: &[Vec<u8>],
) -> Result<Option<CipherKey>, AllocError>
    ensures { IfOk result (λ key. key ≡ cipher_key_of (map (λ k. k.items) keys.now) text.now) }
{
    match text {
        [b'@', digits @ ..] => match number(digits) {
            Some(n) => copy_of(alloc, n, keys),
            None => Ok(None),
        },
        _ => Ok(Bytes::read(alloc, text)?.map(|key| CipherKey { key, session: None })),
    }
}

/// A copy of the key of session N among these.
fn copy_of(alloc: Global, n: u32, keys: &[Vec<u8>]) -> Result<Option<CipherKey>, AllocError>
    ensures { IfOk result (λ key. key ≡ key_at (map (λ k. k.items) keys.now) n) }
{
    match keys.get(n as usize) {
        Some(key) => Ok(Some(CipherKey {
            key: Bytes::from_slice(alloc, key)?,
            session: Some(n),
        })),
        None => Ok(None),
    }
}
