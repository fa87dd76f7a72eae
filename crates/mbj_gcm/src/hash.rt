ghost use Rattle.std.specs.Prelude.{◌≡◌, [], ◌∷◌, ◌++◌, length};
ghost use Rattle.mbj_types.specs.Blocks.{xor_lists, filled_blocks};
ghost use Rattle.mbj_types.specs.Ghash.{ghash};
ghost use Rattle.mbj_types.specs.Gcm.{bit_length};

use mbj_ghash::Ghash;
use mbj_types::{BLOCK_BYTES, xor_in_place};

// The bits of a byte.
const BYTE_BITS: u64 = 8;

// The bytes of a bit length.
const BIT_LENGTH_BYTES: usize = 8;

// The bit length of a part of this many bytes, modulo 2^64.
fn bit_length(bytes: u64) -> [u8; 8]
    ensures { result ≡ bit_length bytes }
{
    BYTE_BITS.wrapping_mul(bytes).to_be_bytes()
}

/// The block that GHASH takes last: the bit lengths of the additional data and of the ciphertext, each modulo 2^64, by their
/// lengths in bytes (SP 800-38D, 7.1, step 5).
pub fn length_block(aad_bytes: u64, ciphertext_bytes: u64) -> [u8; 16]
    ensures { result ≡ bit_length aad_bytes ++ bit_length ciphertext_bytes }
{
    let mut block = [0; BLOCK_BYTES];
    block[..BIT_LENGTH_BYTES].copy_from_slice(&bit_length(aad_bytes));
    block[BIT_LENGTH_BYTES..].copy_from_slice(&bit_length(ciphertext_bytes));
    block
}

/// GHASH of both parts, each filled with zero bytes to whole blocks, and of the block of their bit lengths (SP 800-38D,
/// 7.1, steps 4 and 5).
pub fn hash_of_parts(subkey: &[u8; 16], aad: &[u8], ciphertext: &[u8]) -> [u8; 16]
    ensures { let lengths = bit_length (length aad.now) ++ bit_length (length ciphertext.now) in
        result ≡ ghash subkey.now (filled_blocks aad.now ++ filled_blocks ciphertext.now ++ lengths ∷ []) }
{
    let mut hash = Ghash::new(*subkey);
    hash.update_padded(aad);
    hash.update_padded(ciphertext);
    hash.update_block(&length_block(aad.len() as u64, ciphertext.len() as u64));
    hash.value()
}

/// The 16 bytes of tag over `aad` and the ciphertext (SP 800-38D, 7.1, steps 4 to 6): their hash under the subkey, xored with
/// the tag's mask.
pub fn tag(subkey: &[u8; 16], mask: &[u8; 16], aad: &[u8], ciphertext: &[u8]) -> [u8; 16]
    ensures { let lengths = bit_length (length aad.now) ++ bit_length (length ciphertext.now) in
        result ≡ xor_lists mask.now (ghash subkey.now (filled_blocks aad.now ++ filled_blocks ciphertext.now ++ lengths ∷ [])) }
{
    let mut tag = *mask;
    xor_in_place(&mut tag, &hash_of_parts(subkey, aad, ciphertext));
    tag
}
