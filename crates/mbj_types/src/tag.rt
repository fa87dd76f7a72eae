ghost use Rattle.std.specs.Prelude.{◌≡◌, ℕ, ◌≤◌, [], List, length, take};
ghost use Rattle.mbj_types.specs.declared.limits.TheConstants.{MAX_TAG_BYTES};

use crate::limits::MAX_TAG_BYTES;
use std::marker::Model;

/// An authentication tag of at most 64 bytes, which contracts see as the list of its bytes.
#[derive(Debug, Drop)]
pub struct Tag {
    bytes: [u8; MAX_TAG_BYTES],
    len: usize,
}

impl Model for Tag {
    ghost use Rattle.std.specs.Prelude.{List, ℕ, ◌≤◌, take};
    ghost use Rattle.mbj_types.specs.declared.limits.TheConstants.{MAX_TAG_BYTES};

    ghost Value = { List ℕ };

    ghost view = { λ t. take t.len t.bytes };

    ghost invariant = { λ t. t.len ≤ MAX_TAG_BYTES };
}

impl Tag {
    /// The tag with these bytes, at most 64.
    pub fn from_slice(bytes: &[u8]) -> Tag
        requires { length bytes.now ≤ MAX_TAG_BYTES }
        ensures { result ≡ bytes.now }
    {
        let mut all = [0; MAX_TAG_BYTES];
        all[..bytes.len()].copy_from_slice(bytes);
        Tag {
            bytes: all,
            len: bytes.len(),
        }
    }

    /// No bytes, in place of those that it has.
    pub fn clear(&mut self)
        ensures { self.new ≡ [] }
    {
        self.len = 0;
    }

    /// The bytes of the tag.
    pub fn bytes(&self) -> &[u8]
        ensures value { result.now ≡ self.now }
        ensures within { length result.now ≤ MAX_TAG_BYTES }
    {
        &self.bytes[..self.len]
    }
}
