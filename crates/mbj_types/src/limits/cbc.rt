//! What CBC takes (SP 800-38A, 5.2 and 5.3).

ghost use Rattle.std.specs.Prelude.{◌≡◌};
ghost use Rattle.mbj_types.specs.Modes.{cbc_takes_iv, cbc_takes_text};

use crate::block::BLOCK_BYTES;

/// Whether CBC takes an initialization vector of this many bytes: a block.
pub fn takes_iv(len: usize) -> bool
    ensures { result ≡ cbc_takes_iv len }
{
    len == BLOCK_BYTES
}

/// Whether CBC takes a text of this many bytes: whole blocks, one at least.
pub fn takes_text(len: usize) -> bool
    ensures { result ≡ cbc_takes_text len }
{
    len > 0 && len.is_multiple_of(BLOCK_BYTES)
}
