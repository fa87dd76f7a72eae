//! What an HMAC takes (RFC 2104, 2, 4 and 5), and a hash.

ghost use Rattle.std.specs.Prelude.{◌≡◌};
ghost use Rattle.mbj_types.specs.Hmac.{takes_key};
ghost use Rattle.mbj_types.specs.Auths.{takes_digest_tag, takes_states};

use crate::class::HashName;

/// The longest key that an HMAC job may have, in bytes.
pub const MAX_HMAC_KEY_BYTES: usize = 1_024;

/// Whether an HMAC takes a key of this many bytes: at most 1,024.
pub fn takes_key(len: usize) -> bool
    ensures { result ≡ takes_key len }
{
    len <= MAX_HMAC_KEY_BYTES
}

/// Whether an HMAC over this hash takes stored states of this many bytes: the inner state and the outer state, together 40 bytes for
/// SHA-1, 64 for SHA-224 and SHA-256, and 128 for SHA-384 and SHA-512.
pub fn takes_states(hash: HashName, len: usize) -> bool
    ensures { result ≡ takes_states hash len }
{
    len == 2 * hash.state_bytes()
}

/// Whether a tag that is a digest of this hash, or an HMAC over it, may have this many bytes: 1 to those of the digest.
pub fn takes_tag(hash: HashName, len: usize) -> bool
    ensures { result ≡ takes_digest_tag hash len }
{
    len > 0 && len <= hash.digest_bytes() as usize
}
