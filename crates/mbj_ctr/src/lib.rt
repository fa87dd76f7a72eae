//! CTR with AES (SP 800-38A, 6.5) on a text in place, with counters of 128 bits. No call takes memory.
#![tactic(auto)]

ghost use Rattle.std.specs.Prelude.{◌≡◌, ◌⊎◌, length};
ghost use Rattle.mbj_types.specs.Aes.{encipher};
ghost use Rattle.mbj_types.specs.Modes.{first_counter, ctr_text};

use mbj_aes::Schedule;
use mbj_aes_lanes::xor_counters;
use mbj_types::BLOCK_BYTES;

// The number of the block with which an IV of 12 bytes begins.
const FIRST_BLOCK_NUMBER: u8 = 1;

// The counter of the first block: an IV of 16 bytes, or one of 12 bytes and the 4 bytes of its block number.
fn first_counter(iv: &[u8]) -> u128
    requires { (length iv.now ≡ 12) ⊎ (length iv.now ≡ 16) }
    ensures { result ≡ first_counter iv.now }
{
    let mut first = [0; BLOCK_BYTES];
    first[BLOCK_BYTES - 1] = FIRST_BLOCK_NUMBER;
    first[..iv.len()].copy_from_slice(iv);
    u128::from_be_bytes(first)
}

/// Encrypts or decrypts a text in place by CTR (SP 800-38A, 6.5), which is the same map: each block of 16 bytes is
/// xored with its enciphered counter, and the last one, which may be shorter, with as many bytes of it.
///
/// An IV of 16 bytes is the first counter. One of 12 bytes is followed by the block number 1 in 4 bytes. A counter
/// is a number, its first byte being the highest, and the next one is 1 more modulo 2^128.
///
/// ```
/// let mut text = texts.plaintext;
/// let (front, behind) = text.split_at_mut(len);
/// apply(&texts.key, &texts.iv, front);
/// expect(rt, cut, &*front, &texts.ciphertext[..len]);
/// expect(rt, cut, &*behind, &texts.plaintext[len..]);
/// apply(&texts.key, &texts.iv, front);
/// expect(rt, cut, text, texts.plaintext);
/// ```
pub fn apply(key: &Schedule, iv: &[u8], text: &mut [u8])
    requires { (length iv.now ≡ 12) ⊎ (length iv.now ≡ 16) }
    ensures { text.new ≡ ctr_text (encipher key.now) iv.now text.old }
{
    let counter = first_counter(iv);
    xor_counters(key, counter, text);
}
