//! The digest of a text by a hash of FIPS 180-4.
ghost use Rattle.std.specs.Prelude.{◌≡◌, length};
ghost use Rattle.mbj_types.specs.Auths.{hash_of_name};

use mbj_types::{HashName, Tag};

/// The digest of a text: 20, 28, 32, 48 or 64 bytes by the hash (FIPS 180-4, figure 1). It takes no memory.
pub fn digest_of(hash: HashName, text: &[u8]) -> Tag
    ensures value { result ≡ (hash_of_name hash).digest text.now }
    ensures len { length result ≡ (hash_of_name hash).digest_bytes }
{
    mbj_hmac::digest_of(hash, text, &[])
}
