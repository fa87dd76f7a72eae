//! What CMAC takes (SP 800-38B, 5.3).

ghost use Rattle.std.specs.Prelude.{◌≡◌};
ghost use Rattle.mbj_types.specs.Cmac.{takes_key, takes_tag};

use crate::block::BLOCK_BYTES;
use crate::class::CmacKey;

/// Whether CMAC takes a key of this many bytes here: 16 or 32.
pub fn takes_key(len: usize) -> bool
    ensures { result ≡ takes_key len }
{
    len == CmacKey::Aes128.bytes() || len == CmacKey::Aes256.bytes()
}

/// Whether a tag of CMAC may have this many bytes: 1 to those of a block.
pub fn takes_tag(len: usize) -> bool
    ensures { result ≡ takes_tag len }
{
    len > 0 && len <= BLOCK_BYTES
}
