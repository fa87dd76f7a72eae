//! The text in counter mode, and what masks the tag (SP 800-38C, 6.1, steps 5 to 8, and A.3).
ghost use Rattle.std.specs.Prelude.{◌≡◌, ◌≤◌, length};
ghost use Rattle.mbj_types.specs.Aes.{encipher};
ghost use Rattle.mbj_types.specs.Ccm.{ccm_text, ccm_mask};

use crate::format::counter_block;
use mbj_aes::Schedule;
use mbj_aes_lanes::{encrypt_same, xor_counters, xor_counters_after};
use mbj_types::MAX_PACKET_BYTES;

// The number of the counter block that masks the tag.
const MASK_NUMBER: usize = 0;

// The number of the counter block of the text's first block.
const FIRST_TEXT_NUMBER: usize = 1;

/// Encrypts or decrypts a text in place, which is the same map (SP 800-38C, 6.1, step 8): each block of 16 bytes is
/// xored with its enciphered counter block, from number 1 on, and the last one, which may be shorter, with as many
/// bytes of it. The nonce, `iv`, has 7 to 13 bytes, and the text 65,535 at most. It takes no memory.
pub fn apply(key: &Schedule, iv: &[u8], text: &mut [u8])
    requires iv_least { 7 ≤ length iv.now }
    requires iv_most { length iv.now ≤ 13 }
    requires fits { length text.old ≤ MAX_PACKET_BYTES }
    ensures { text.new ≡ ccm_text (encipher key.now) iv.now text.old }
{
    let first = u128::from_be_bytes(counter_block(iv, FIRST_TEXT_NUMBER));
    xor_counters(key, first, text);
}

/// What masks the tag: the enciphered counter block of number 0 (SP 800-38C, 6.1, step 8). The tag is the MAC xored
/// with it, of which a shorter tag is the leftmost bytes. The nonce, `iv`, has 7 to 13 bytes. It takes no memory.
pub fn mask(key: &Schedule, iv: &[u8]) -> [u8; 16]
    requires iv_least { 7 ≤ length iv.now }
    requires iv_most { length iv.now ≤ 13 }
    ensures { result ≡ ccm_mask (encipher key.now) iv.now }
{
    let mut blocks = [counter_block(iv, MASK_NUMBER)];
    encrypt_same(key, &mut blocks);
    blocks[0]
}

/// What `apply` makes of a text, and what `mask` returns. The counter block of the mask is enciphered with the first ones of the text.
/// It takes no memory.
///
/// ```
/// let mut tag = apply_and_mask(&key, nonce, text);
/// expect(rt, "mask", mask(&key, nonce), tag);
/// xor_in_place(&mut tag, mac);
/// expect_end(rt, text, &case.ciphertext);
/// assert!(rt; case.tag.len() <= tag.len());
/// expect(rt, "tag", &tag[..case.tag.len()], case.tag.as_slice());
/// ```
pub fn apply_and_mask(key: &Schedule, iv: &[u8], text: &mut [u8]) -> [u8; 16]
    requires iv_least { 7 ≤ length iv.now }
    requires iv_most { length iv.now ≤ 13 }
    requires fits { length text.old ≤ MAX_PACKET_BYTES }
    ensures text { text.new ≡ ccm_text (encipher key.now) iv.now text.old }
    ensures mask { result ≡ ccm_mask (encipher key.now) iv.now }
{
    let first = u128::from_be_bytes(counter_block(iv, MASK_NUMBER));
    xor_counters_after(key, first, text)
}
