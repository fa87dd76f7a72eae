ghost use Rattle.std.specs.Prelude.{◌≡◌, ◌≤◌, length};
ghost use Rattle.mbj_types.specs.Blocks.{xor_lists};

/// The bytes of a block of AES (FIPS 197, 3.1).
pub const BLOCK_BYTES: usize = 16;

/// Xors each byte of `text` with the byte of `mask` at its place. The mask is as long as the text or longer, and
/// its bytes past the text's end are not used. It takes no memory.
pub fn xor_in_place(text: &mut [u8], mask: &[u8])
    requires { length text.old ≤ length mask.now }
    ensures { text.new ≡ xor_lists text.old mask.now }
{
    for i in 0..text.len() {
        text[i] ^= mask[i];
    }
}
