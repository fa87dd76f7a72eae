//! One block of CBC encryption, on its own. No product calls it, since blocks in lanes take less time: the
//! plain forms of CBC and CMAC do, which tests compare with the kernels.
ghost use Rattle.std.specs.Prelude.{◌≡◌};
ghost use Rattle.mbj_types.specs.Aes.{encipher};
ghost use Rattle.mbj_types.specs.Blocks.{xor_lists};

use crate::narrow::same::encrypt_same;
use mbj_aes::Schedule;
use mbj_types::xor_in_place;

/// The block that follows `chain` in CBC encryption (SP 800-38A, 6.2): `block` xored with `chain`, and enciphered. It
/// takes no memory.
pub fn chained(key: &Schedule, chain: &[u8; 16], block: &[u8; 16]) -> [u8; 16]
    ensures { result ≡ encipher key.now (xor_lists block.now chain.now) }
{
    let mut next = *block;
    xor_in_place(&mut next, chain);
    let mut blocks = [next];
    encrypt_same(key, &mut blocks);
    blocks[0]
}
