//! CBC encryption block by block. No product calls it, since one text fills no lanes: tests compare the kernel with it.
ghost use Rattle.std.specs.Prelude.{◌≡◌, ◌%◌, length};
ghost use Rattle.mbj_types.specs.Aes.{encipher};
ghost use Rattle.mbj_types.specs.Modes.{cbc_text};

use mbj_aes::Schedule;
use mbj_aes_lanes::chained;
use mbj_blocks::{block_at, put_block};
use mbj_types::BLOCK_BYTES;

/// Encrypts a text in place by CBC (SP 800-38A, 6.2): each block of 16 bytes is xored with the ciphertext before it,
/// the first one with the IV, and enciphered. The text's length is a multiple of 16 bytes, and may be 0.
///
/// ```
/// let mut text = plaintext;
/// encrypt_in_place(&key, &iv, &mut text);
/// expect(&rt, "encrypted", text, ciphertext);
/// decrypt_in_place(&key, &iv, &mut text);
/// expect(&rt, "decrypted", text, plaintext);
/// ```
pub fn encrypt_in_place(key: &Schedule, iv: &[u8; 16], text: &mut [u8])
    requires { length text.old % 16 ≡ 0 }
    ensures { text.new ≡ cbc_text (encipher key.now) iv.now text.old }
{
    let mut chain = *iv;
    'encrypting: for i in 0..text.len() / BLOCK_BYTES {
        let block = block_at(text, i);
        chain = chained(key, &chain, &block);
        put_block(text, i, &chain);
    }
}
