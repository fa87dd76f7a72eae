ghost use Rattle.std.specs.Prelude.{◌≡◌, ◌≤◌, true, false, length};
ghost use Rattle.mbj_types.specs.Aes.{encipher};
ghost use Rattle.mbj_types.specs.Gcm.{gcm};

use crate::counter::{SUBKEY, TAG_MASK, first_batch, pre_counter_block, xor_key_stream};
use crate::hash::tag;
use mbj_aes::Schedule;
use mbj_aes_lanes::TextKey;

/// Encrypts a text in place by GCM (SP 800-38D, 7.1) from an IV of 1 to 65,535 bytes, and returns the 16 bytes of tag
/// over `aad` and the ciphertext, of which a shorter tag is the leftmost ones. The text and `aad` may have any number of
/// bytes, and the hash counts their bits modulo 2^64.
///
/// ```
/// let mut text = [0; 16];
/// let tag = seal(&key, &[0; 12], &[], &mut text);
/// expect_block(&rt, "text", text, 0x0388dace60b6a392f328c2b971b2fe78);
/// expect_block(&rt, "tag", tag, 0xab6e47d42cec13bdf53a67b21257bddf);
/// ```
pub fn seal(key: &Schedule, iv: &[u8], aad: &[u8], text: &mut [u8]) -> [u8; 16]
    requires some_iv { 1 ≤ length iv.now }
    requires iv_fits { length iv.now ≤ 65535 }
    ensures text { text.new ≡ (gcm (encipher key.now) iv.now aad.now text.old true).0 }
    ensures tag { result ≡ (gcm (encipher key.now) iv.now aad.now text.old true).1 }
{
    let key = TextKey::new(key);
    let pre_counter = pre_counter_block(&key, iv);
    let outputs = first_batch(&key, &pre_counter, text.len());
    xor_key_stream(&key, &pre_counter, &outputs, text);
    tag(&outputs[SUBKEY], &outputs[TAG_MASK], aad, text)
}

/// Decrypts a text in place by GCM (SP 800-38D, 7.2, steps 2 to 7) from an IV of 1 to 65,535 bytes, and returns the 16 bytes of tag over
/// `aad` and the text as it was, the ciphertext. Nothing is compared: the text is decrypted whatever tag it came with, and the caller
/// compares that tag with the leftmost bytes of the result.
pub fn unseal(key: &Schedule, iv: &[u8], aad: &[u8], text: &mut [u8]) -> [u8; 16]
    requires some_iv { 1 ≤ length iv.now }
    requires iv_fits { length iv.now ≤ 65535 }
    ensures text { text.new ≡ (gcm (encipher key.now) iv.now aad.now text.old false).0 }
    ensures tag { result ≡ (gcm (encipher key.now) iv.now aad.now text.old false).1 }
{
    let key = TextKey::new(key);
    let pre_counter = pre_counter_block(&key, iv);
    let outputs = first_batch(&key, &pre_counter, text.len());
    let computed = tag(&outputs[SUBKEY], &outputs[TAG_MASK], aad, text);
    xor_key_stream(&key, &pre_counter, &outputs, text);
    computed
}
