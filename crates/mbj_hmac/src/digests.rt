ghost use Rattle.std.specs.Prelude.{◌≡◌, ◌≤◌, ◌++◌, length};
ghost use Rattle.mbj_types.specs.Auths.{hash_of_name};

use mbj_types::{HashName, Tag};
use sha1::Sha1;
use sha2::{Digest, Sha224, Sha256, Sha384, Sha512};

/// The digest of two pieces, taken as one message: 20, 28, 32, 48 or 64 bytes by the hash (FIPS 180-4, 6). It is no longer than a block.
/// It takes no memory.
pub fn digest_of(hash: HashName, first: &[u8], second: &[u8]) -> Tag
    ensures value { result ≡ (hash_of_name hash).digest (first.now ++ second.now) }
    ensures len { length result ≡ (hash_of_name hash).digest_bytes }
    ensures fits { length result ≤ (hash_of_name hash).block_bytes }
{
    macro_rules! digest_by {
        ($hasher:ident) => {{
            let mut hasher = $hasher::new();
            hasher.update(first);
            hasher.update(second);
            Tag::from_slice(&hasher.finalize())
        }};
    }
    match hash {
        HashName::Sha1 => digest_by!(Sha1),
        HashName::Sha224 => digest_by!(Sha224),
        HashName::Sha256 => digest_by!(Sha256),
        HashName::Sha384 => digest_by!(Sha384),
        HashName::Sha512 => digest_by!(Sha512),
    }
}
