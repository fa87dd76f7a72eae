//! The messages that the lanes of each hash are tried with.
ghost use Rattle.std.specs.Prelude.{◌≡◌, ◌<◌, ◌≤◌, length};

/// A message of at most 31 bytes with its padding, in a block of at least 64 bytes (FIPS 180-4, 5.1).
fn padded<const BLOCK: usize>(message: &[u8]) -> [u8; BLOCK]
    requires short { length message.now < 32 }
    requires block { 64 ≤ BLOCK }
{
    let mut block = [0; BLOCK];
    block[..message.len()].copy_from_slice(message);
    block[message.len()] = 0x80;
    block[BLOCK - 1] = 8 * message.len() as u8;
    block
}

/// The message of `len` letters: nothing, "a", "ab" and so on.
pub(crate) fn letters(len: usize) -> &'static [u8]
    requires { len < 16 }
    ensures { length result.now ≡ len }
{
    &b"abcdefghijklmno"[..len]
}

/// A block for each lane, that of as many letters as the lane's number.
pub(crate) fn letter_blocks<const BLOCK: usize, const LANES: usize>() -> [[u8; BLOCK]; LANES]
    requires block { 64 ≤ BLOCK }
    requires lanes { LANES ≤ 16 }
{
    let mut blocks = [[0; BLOCK]; LANES];
    for i in 0..LANES {
        blocks[i] = padded(letters(i));
    }
    blocks
}
