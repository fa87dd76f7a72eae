ghost use Rattle.std.specs.Prelude.{◌≡◌, ◌↔◌, IfOk, IsTrue, length};
ghost use Rattle.mbj_aes.specs.Bytes.{IsKeySize};
ghost use Rattle.mbj_keys.specs.Schedules.{IsScheduleOf};

use mbj_aes::{Schedule, are_equal};
use mbj_types::Bytes;
use std::alloc::{AllocError, Global};

/// A key of 16, 24 or 32 bytes, and its schedule. That the schedule is the key's expansion (FIPS 197, 5.2) is part of
/// the type.
#[derive(Drop)]
pub struct KeyEntry {
    /// The key.
    pub key: Bytes,
    /// Its round keys.
    pub schedule: Schedule,
    pub ghost size: { IsKeySize (length key) },
    pub ghost expanded: { IsScheduleOf key schedule },
}

impl KeyEntry {
    /// The entry of a key of 16, 24 or 32 bytes.
    ///
    /// Returns `AllocError` for want of memory.
    pub(crate) fn expand(alloc: Global, key: &[u8]) -> Result<KeyEntry, AllocError>
        requires { IsKeySize (length key.now) }
        ensures { IfOk result (λ e. e.key ≡ key.now) }
    {
        Ok(KeyEntry {
            key: Bytes::from_slice(alloc, key)?,
            schedule: Schedule::expand(key),
        })
    }

    /// Whether the entry is that of a key. If the two keys are of one length every byte of both is looked at, and
    /// neither a branch nor an index depends on one. It takes no memory.
    pub fn has_key(&self, key: &[u8]) -> bool
        ensures { IsTrue result ↔ (self.now.key ≡ key.now) }
    {
        are_equal(self.key.as_slice(), key)
    }
}
