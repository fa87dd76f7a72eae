//! CMAC block by block. No product calls it, since one message fills no lanes: tests compare the kernel with it.
ghost use Rattle.std.specs.Prelude.{◌≡◌};
ghost use Rattle.mbj_types.specs.Aes.{encipher};
ghost use Rattle.mbj_types.specs.Cmac.{cmac};

use crate::closing::closed_block;
use mbj_aes::Schedule;
use mbj_aes_lanes::chained;
use mbj_blocks::block_at;
use mbj_types::BLOCK_BYTES;

/// The CMAC of a message of any length, which may be 0 (SP 800-38B, 6.2): its 16 bytes, of which a shorter tag is the
/// leftmost ones.
///
/// ```
/// let found = u128::from_be_bytes(cmac_plain(key, message));
/// expect(rt, "mac", found, wanted);
/// ```
pub fn cmac_plain(key: &Schedule, message: &[u8]) -> [u8; 16]
    ensures { result ≡ cmac (encipher key.now) message.now }
{
    // The last block, whole or not, is apart. The empty message is one empty block.
    let before = message.len().saturating_sub(1) / BLOCK_BYTES;
    let mut chain = [0; BLOCK_BYTES];
    'chaining: for i in 0..before {
        let block = block_at(message, i);
        chain = chained(key, &chain, &block);
    }
    let last = closed_block(key, &message[BLOCK_BYTES * before..]);
    chained(key, &chain, &last)
}
