ghost use Rattle.std.specs.Prelude.{◌≡◌, ◌≤◌, length};
ghost use Rattle.mbj_types.specs.Aes.{encipher};
ghost use Rattle.mbj_types.specs.Cmac.{doubled_number, doubled, first_subkey, closed_block};
ghost use Rattle.mbj_cmac.specs.Inside.Closing.{closed_by};

use mbj_aes::Schedule;
use mbj_aes_lanes::encrypt_same;
use mbj_blocks::filled_block;
use mbj_types::{BLOCK_BYTES, xor_in_place};

// R of SP 800-38B, 5.3, for blocks of 128 bits: what a bit that is shifted out of a block comes back as.
const REDUCTION: u128 = 0x87;

// What follows a message whose last block isn't whole: a bit 1 and zeros.
const PADDING_BYTE: u8 = 0x80;

// A block, as a string of bits, doubled (SP 800-38B, 6.1).
fn doubled_number(block: u128) -> u128
    ensures { result ≡ doubled_number block }
{
    (block << 1) ^ (block >> 127) * REDUCTION
}

/// A block doubled, as a string of bits (SP 800-38B, 6.1).
pub fn doubled(block: &[u8; 16]) -> [u8; 16]
    ensures { result ≡ doubled block.now }
{
    doubled_number(u128::from_be_bytes(*block)).to_be_bytes()
}

/// The first subkey, K1 (SP 800-38B, 6.1): the enciphered zero block, doubled. It is as secret as the key. The second one, K2, is K1
/// doubled.
pub fn first_subkey(key: &Schedule) -> [u8; 16]
    ensures { result ≡ first_subkey (encipher key.now) }
{
    let mut blocks = [[0; BLOCK_BYTES]];
    encrypt_same(key, &mut blocks);
    doubled(&blocks[0])
}

/// The last block of a message as it goes into CBC (SP 800-38B, 6.2, step 4), by the first subkey, K1: a whole one xored
/// with K1, a shorter one followed by a bit 1 and zeros and xored with K2, which is K1 doubled. `last` has at most 16
/// bytes, and none if the message is empty.
pub fn closed_by(first_subkey: &[u8; 16], last: &[u8]) -> [u8; 16]
    requires { length last.now ≤ 16 }
    ensures { result ≡ closed_by first_subkey.now last.now }
{
    let mut block = filled_block(last);
    if last.len() == BLOCK_BYTES {
        xor_in_place(&mut block, first_subkey);
    } else {
        block[last.len()] = PADDING_BYTE;
        xor_in_place(&mut block, &doubled(first_subkey));
    }
    block
}

/// The last block of a message as it goes into CBC under a key.
pub fn closed_block(key: &Schedule, last: &[u8]) -> [u8; 16]
    requires { length last.now ≤ 16 }
    ensures { result ≡ closed_block (encipher key.now) last.now }
{
    closed_by(&first_subkey(key), last)
}
