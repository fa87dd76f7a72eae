// The words of a stored state.
ghost use Rattle.std.specs.Prelude.{◌≡◌, ◌+◌, ◌*◌, ◌<◌, ◌≤◌, length};
ghost use Rattle.sha2.specs.Sha256 as Sha256;
ghost use Rattle.sha2.specs.Sha512 as Sha512;

/// Word j of some bytes, the highest byte first.
pub(crate) fn word32(bytes: &[u8], j: usize) -> u32
    requires few { j < 8 }
    requires inside { 4 * j + 4 ≤ length bytes.now }
    ensures { result ≡ Sha256.word_at bytes.now (4 * j) }
{
    let at = 4 * j;
    u32::from_be_bytes([bytes[at], bytes[at + 1], bytes[at + 2], bytes[at + 3]])
}

/// Word j of some bytes, the highest byte first.
pub(crate) fn word64(bytes: &[u8], j: usize) -> u64
    requires few { j < 8 }
    requires inside { 8 * j + 8 ≤ length bytes.now }
    ensures { result ≡ Sha512.word_at bytes.now (8 * j) }
{
    let at = 8 * j;
    u64::from_be_bytes([
        bytes[at],
        bytes[at + 1],
        bytes[at + 2],
        bytes[at + 3],
        bytes[at + 4],
        bytes[at + 5],
        bytes[at + 6],
        bytes[at + 7],
    ])
}
