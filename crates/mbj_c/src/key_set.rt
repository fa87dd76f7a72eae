//! Sets of key sessions, which the handles of several threads and the managers there share.
ghost use Rattle.std.specs.Prelude.{◌≡◌, IfOk, IsTrue, length, map};
ghost use Rattle.std.specs.List.{All};
ghost use Rattle.mbj_aes.specs.Bytes.{IsKeySize};
ghost use Rattle.std_alloc.specs.Arc.{arc_value};
ghost use Rattle.mbj_keys.specs.Sessions.{keys_of};
ghost use Rattle.mbj_c.specs.KeySets.{are_keys, bytes_each, keys_refusal};
ghost use Rattle.mbj_c.specs.Inside.Answers.{IsAnswerTo};

use crate::refusal::Refusal;
use mbj_keys::Keys;
use mbj_types::{MAX_SESSIONS, is_key_size};
use std::alloc::{AllocError, Global};
use std::marker::Model;
use std::sync::Arc;

/// Bytes that are read.
#[repr(C)]
#[derive(Clone, Copy)]
pub struct RawBytes<'a> {
    /// A pointer, which isn't null, and a length in bytes.
    pub bytes: &'a [u8],
}

/// A set of key sessions. Contracts see the sessions.
#[derive(Drop)]
pub struct KeySet {
    keys: Arc<Keys>,
}

impl Model for KeySet {
    ghost use Rattle.std.specs.Prelude.{List};
    ghost use Rattle.std_alloc.specs.Arc.{arc_value};
    ghost use Rattle.mbj_keys.specs.Sessions.{Session};

    ghost Value = { List Session };

    ghost view = { λ s. arc_value s.keys };
}

/// Whether each key is one of AES.
fn are_keys(keys: &[RawBytes<'_>]) -> bool
    ensures { result ≡ are_keys (bytes_each keys.now) }
{
    'keys: for key in keys {
        if !is_key_size(key.bytes.len()) {
            return false;
        }
    }
    true
}

/// Copies of the keys, each of which is one of AES.
fn copied(alloc: Global, keys: &[RawBytes<'_>]) -> Result<Vec<Vec<u8>>, AllocError>
    requires { IsTrue (are_keys (bytes_each keys.now)) }
    ensures copies { IfOk result (λ v. map (λ k. k.items) v.items ≡ bytes_each keys.now) }
    ensures sizes { IfOk result (λ v. All (λ k. IsKeySize (length k.items)) v.items) }
{
    let mut copies = Vec::with_capacity(alloc, keys.len())?;
    'keys: for key in keys {
        copies.push_reserved(Vec::from_slice(alloc, key.bytes)?);
    }
    Ok(copies)
}

/// Keys that may have several owners.
///
/// Returns `AllocError` for want of memory.
fn shared(alloc: Global, keys: Keys) -> Result<Arc<Keys>, AllocError>
    ensures { IfOk result (λ k. arc_value k ≡ keys) }
{
    Ok(Arc::new(alloc, keys)?)
}

impl KeySet {
    /// A set of copies of these keys. None is expanded.
    ///
    /// Returns `TooManyKeys` exactly where there are more than `MAX_SESSIONS`, else `KeyLength` exactly where one has neither 16, 24
    /// nor 32 bytes, and `Memory` for want of memory.
    pub(crate) fn new(alloc: Global, keys: &[RawBytes<'_>]) -> Result<KeySet, Refusal>
        ensures answer { IsAnswerTo (keys_refusal (bytes_each keys.now)) result }
        ensures keys { IfOk result (λ s. keys_of s ≡ bytes_each keys.now) }
    {
        if keys.len() > MAX_SESSIONS {
            return Err(Refusal::TooManyKeys);
        }
        if !are_keys(keys) {
            return Err(Refusal::KeyLength);
        }
        let keys = Keys::new(alloc, copied(alloc, keys)?)?;
        Ok(KeySet {
            keys: shared(alloc, keys)?,
        })
    }

    /// The same set for another owner.
    ///
    /// Returns `AllocError` if it has more owners than can be counted.
    pub(crate) fn share(&self) -> Result<KeySet, AllocError>
        ensures { IfOk result (λ s. s ≡ self.now) }
    {
        Ok(KeySet {
            keys: Arc::try_clone(&self.keys)?,
        })
    }

    /// The share of the keys itself.
    pub(crate) fn into_keys(self) -> Arc<Keys>
        ensures { arc_value result ≡ self }
    {
        self.keys
    }

    /// The set's keys.
    pub(crate) fn keys(&self) -> &Keys
        ensures { result.now ≡ self.now }
    {
        &self.keys
    }
}
