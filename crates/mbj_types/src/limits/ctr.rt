//! What CTR takes.

ghost use Rattle.std.specs.Prelude.{◌≡◌};
ghost use Rattle.mbj_types.specs.Modes.{ctr_takes_iv, ctr_takes_text};

use crate::block::BLOCK_BYTES;

/// The length of an initialization vector that a block number follows, in bytes (RFC 3686, 4).
const NONCE_AND_IV_BYTES: usize = 12;

/// Whether CTR takes an initialization vector of this many bytes: 12, behind which a block number stands (RFC 3686, 4), or the whole
/// first counter block (SP 800-38A, 6.5).
pub fn takes_iv(len: usize) -> bool
    ensures { result ≡ ctr_takes_iv len }
{
    len == NONCE_AND_IV_BYTES || len == BLOCK_BYTES
}

/// Whether CTR takes a text of this many bytes: one at least.
pub fn takes_text(len: usize) -> bool
    ensures { result ≡ ctr_takes_text len }
{
    len > 0
}
