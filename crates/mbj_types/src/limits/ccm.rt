//! What CCM takes (SP 800-38C, A.1 and A.2.2).

ghost use Rattle.std.specs.Prelude.{◌≡◌};
ghost use Rattle.mbj_types.specs.Ccm.{takes_aad, takes_nonce, takes_tag};

use crate::block::BLOCK_BYTES;

/// The longest additional authenticated data that a CCM job may have, in bytes: its length is written in 2 bytes, as it is below
/// 65,280 (SP 800-38C, A.2.2).
pub const MAX_CCM_AAD_BYTES: usize = 65_279;

/// Whether CCM takes a nonce of this many bytes: 7 to 13 (SP 800-38C, A.1).
pub fn takes_nonce(len: usize) -> bool
    ensures { result ≡ takes_nonce len }
{
    7 <= len && len <= 13
}

/// Whether CCM takes additional authenticated data of this many bytes: fewer than 65,280.
pub fn takes_aad(len: usize) -> bool
    ensures { result ≡ takes_aad len }
{
    len <= MAX_CCM_AAD_BYTES
}

/// Whether a tag of CCM may have this many bytes: an even number from 4 to those of a block (SP 800-38C, A.1).
pub fn takes_tag(len: usize) -> bool
    ensures { result ≡ takes_tag len }
{
    4 <= len && len <= BLOCK_BYTES && len.is_multiple_of(2)
}
