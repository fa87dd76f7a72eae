//! What GCM and GMAC take (SP 800-38D, 5.2.1).

ghost use Rattle.std.specs.Prelude.{◌≡◌};
ghost use Rattle.mbj_types.specs.Gcm.{takes_aad, takes_iv, takes_tag};

use crate::block::BLOCK_BYTES;

/// The longest initialization vector that a GCM job may have, in bytes.
pub const MAX_IV_BYTES: usize = 65_535;

/// The longest additional authenticated data that a GCM job may have, in bytes.
pub const MAX_AAD_BYTES: usize = 65_535;

/// Whether GCM and GMAC take an initialization vector of this many bytes: 1 to 65,535.
pub fn takes_iv(len: usize) -> bool
    ensures { result ≡ takes_iv len }
{
    len > 0 && len <= MAX_IV_BYTES
}

/// Whether GCM takes additional authenticated data of this many bytes: at most 65,535.
pub fn takes_aad(len: usize) -> bool
    ensures { result ≡ takes_aad len }
{
    len <= MAX_AAD_BYTES
}

/// Whether a tag of GCM or GMAC may have this many bytes: 1 to those of a block.
pub fn takes_tag(len: usize) -> bool
    ensures { result ≡ takes_tag len }
{
    len > 0 && len <= BLOCK_BYTES
}
