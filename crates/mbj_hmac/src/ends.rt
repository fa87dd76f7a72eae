// The ends of an entry: the blocks that don't stand whole in its packet. They are the inner pad, the message's end with the padding, and the
// outer pad. A digest and an HMAC from states have the message's end alone, at the same place. The block of the inner digest is made in the
// vectors of the lanes, and written nowhere.
ghost use Rattle.std.specs.Prelude.{◌≡◌, ℕ, ◌+◌, ◌-◌, ◌*◌, ◌/◌, ◌^◌, ◌<◌, ◌≤◌, ◌∷◌, ◌++◌, ◌⊎◌, length, replicate, take, drop};
ghost use Rattle.mbj_types.specs.Hmac.{padded_key, ipad, opad};
ghost use Rattle.mbj_types.specs.Rounds.{hash_rounds, hmac_rounds, states_rounds};
ghost use Rattle.mbj_hmac.specs.Inside.Layout.{fill, first_ends, message_end, tail_blocks};

use crate::form::Form;
use crate::key::{IPAD, MAX_BLOCK_BYTES, OPAD, padded};
use crate::lane_hash::LaneHash;

/// The bytes of a message's length at the end of the padding. The higher bytes of the length of SHA-384 and SHA-512 are zeros.
const LENGTH_BYTES: usize = 8;

/// A bit 1 and zeros: the longest start of a padding.
const PADDING: [u8; 144] = [
    0x80, 0, 0, 0, 0, 0, 0, 0, 0, 0, 0, 0, 0, 0, 0, 0, 0, 0, 0, 0, 0, 0, 0, 0, 0, 0, 0, 0, 0, 0, 0,
    0, 0, 0, 0, 0, 0, 0, 0, 0, 0, 0, 0, 0, 0, 0, 0, 0, 0, 0, 0, 0, 0, 0, 0, 0, 0, 0, 0, 0, 0, 0, 0,
    0, 0, 0, 0, 0, 0, 0, 0, 0, 0, 0, 0, 0, 0, 0, 0, 0, 0, 0, 0, 0, 0, 0, 0, 0, 0, 0, 0, 0, 0, 0, 0,
    0, 0, 0, 0, 0, 0, 0, 0, 0, 0, 0, 0, 0, 0, 0, 0, 0, 0, 0, 0, 0, 0, 0, 0, 0, 0, 0, 0, 0, 0, 0, 0,
    0, 0, 0, 0, 0, 0, 0, 0, 0, 0, 0, 0, 0, 0, 0, 0, 0,
];

/// The blocks behind the whole blocks of a message, which its end and its padding fill.
#[inline(always)]
pub(crate) fn tail_blocks<H: LaneHash>(len: usize) -> usize
    requires { len < 2 ^ 32 }
    ensures { result ≡ tail_blocks H.hashing.block_bytes len }
{
    let block = H::block_bytes();
    (len + block / 8) / block + 1 - len / block
}

/// The bytes of the whole blocks of a message.
#[inline(always)]
fn whole_bytes<H: LaneHash>(len: usize) -> usize
    requires { len < 2 ^ 32 }
    ensures value { result ≡ H.hashing.block_bytes * (len / H.hashing.block_bytes) }
    ensures within { result ≤ len }
{
    let block = H::block_bytes();
    block * (len / block)
}

/// The rounds of a digest of a message: one for each block of the padded message.
pub(crate) fn plain_rounds<H: LaneHash>(len: usize) -> u32
    requires { len < 2 ^ 32 }
    ensures value { result ≡ hash_rounds H.hashing.block_bytes len }
    ensures few { result < 2 ^ 31 }
{
    let block = H::block_bytes();
    ((len + block / 8) / block + 1) as u32
}

/// The rounds of an HMAC over a message: that of the inner pad, those of the message, and those of the outer hash.
pub(crate) fn rounds<H: LaneHash>(len: usize) -> u32
    requires { len < 2 ^ 32 }
    ensures { result ≡ hmac_rounds H.hashing.block_bytes len }
{
    1 + plain_rounds::<H>(len) + Form::Keyed.outer_rounds()
}

/// The rounds of an HMAC from states over a message: those of the message, and that of the outer hash.
pub(crate) fn states_rounds<H: LaneHash>(len: usize) -> u32
    requires { len < 2 ^ 32 }
    ensures { result ≡ states_rounds H.hashing.block_bytes len }
{
    plain_rounds::<H>(len) + Form::States.outer_rounds()
}

/// The zero bytes of a message's padding, up to its last 8 bytes.
fn fill<H: LaneHash>(len: usize) -> usize
    requires { len < 2 ^ 32 }
    ensures value { result ≡ fill H.hashing.block_bytes len }
    ensures within { result < 144 }
{
    let block = H::block_bytes();
    block * tail_blocks::<H>(len) - len % block - 1 - LENGTH_BYTES
}

/// A bit 1 and `zeros` zero bytes.
fn padding_start(zeros: usize) -> &'static [u8]
    requires { zeros < 144 }
    ensures { result.now ≡ 0x80 ∷ replicate zeros 0 }
{
    &PADDING[..zeros + 1]
}

/// Writes bytes, and returns the place behind them. What stands behind is not looked at.
pub(crate) fn put(ends: &mut [u8], at: usize, bytes: &[u8]) -> usize
    requires { at + length bytes.now ≤ length ends.old }
    ensures next { result ≡ at + length bytes.now }
    ensures written { take (at + length bytes.now) ends.new ≡ take at ends.old ++ bytes.now }
    ensures len { length ends.new ≡ length ends.old }
{
    ends[at..at + bytes.len()].copy_from_slice(bytes);
    at + bytes.len()
}

/// Writes the padding behind a message of `len` bytes. Before the message `before` bytes are hashed: a block of a pad, or none.
fn put_padding<H: LaneHash>(ends: &mut H::Ends, at: usize, before: usize, len: usize) -> usize
    requires small { len < 2 ^ 32 }
    requires before { (before ≡ 0) ⊎ (before ≡ H.hashing.block_bytes) }
    requires room { at + length (H.hashing.padding (before + len)) ≤ 4 * H.hashing.block_bytes }
    ensures next { result ≡ at + length (H.hashing.padding (before + len)) }
    ensures written { take (at + length (H.hashing.padding (before + len))) (H.ends_bytes ends.new)
        ≡ take at (H.ends_bytes ends.old) ++ H.hashing.padding (before + len) }
    ensures len { length (H.ends_bytes ends.new) ≡ 4 * H.hashing.block_bytes }
{
    let bits = (8 * (before + len) as u64).to_be_bytes();
    let at = H::put(ends, at, padding_start(fill::<H>(len)));
    H::put(ends, at, &bits)
}

/// Writes the end of a message and the padding behind the first block, and returns the place behind them. Before the message `before` bytes
/// are hashed: a block of a pad, or none.
fn put_end<H: LaneHash>(
    ends: &mut H::Ends,
    before: usize,
    packet: &[u8],
    off: usize,
    len: usize,
) -> usize
    requires small { len < 2 ^ 32 }
    requires before { (before ≡ 0) ⊎ (before ≡ H.hashing.block_bytes) }
    requires range { off + len ≤ length packet.now }
    ensures next { result ≡ H.hashing.block_bytes * (tail_blocks H.hashing.block_bytes len + 1) }
    ensures written { take (H.hashing.block_bytes * (tail_blocks H.hashing.block_bytes len + 1)) (H.ends_bytes ends.new)
        ≡ take H.hashing.block_bytes (H.ends_bytes ends.old) ++ message_end H.hashing before packet.now off len }
    ensures len { length (H.ends_bytes ends.new) ≡ 4 * H.hashing.block_bytes }
{
    let at = H::put(
        ends,
        H::block_bytes(),
        &packet[off + whole_bytes::<H>(len)..off + len],
    );
    put_padding::<H>(ends, at, before, len)
}

/// Writes the ends of a new HMAC.
pub(crate) fn put_first_ends<H: LaneHash>(
    ends: &mut H::Ends,
    key: &[u8; MAX_BLOCK_BYTES],
    packet: &[u8],
    off: usize,
    len: usize,
)
    requires small { len < 2 ^ 32 }
    requires range { off + len ≤ length packet.now }
    ensures value { take (H.hashing.block_bytes * (tail_blocks H.hashing.block_bytes len + 2)) (H.ends_bytes ends.new)
        ≡ first_ends H.hashing (take H.hashing.block_bytes (padded_key ipad key.now)) (take H.hashing.block_bytes (padded_key opad key.now))
        packet.now off len }
    ensures length { length (H.ends_bytes ends.new) ≡ 4 * H.hashing.block_bytes }
    ensures pads { length key.now ≡ MAX_BLOCK_BYTES }
{
    let block = H::block_bytes();
    H::put(ends, 0, &padded(key, IPAD)[..block]);
    let at = put_end::<H>(ends, block, packet, off, len);
    H::put(ends, at, &padded(key, OPAD)[..block]);
}

/// Writes the ends of a new digest: the end of the message and its padding. What stands around them is not looked at.
pub(crate) fn put_plain_ends<H: LaneHash>(ends: &mut H::Ends, packet: &[u8], off: usize, len: usize)
    requires small { len < 2 ^ 32 }
    requires range { off + len ≤ length packet.now }
    requires whole { length (H.ends_bytes ends.old) ≡ 4 * H.hashing.block_bytes }
    ensures value { take (H.hashing.block_bytes * tail_blocks H.hashing.block_bytes len) (drop H.hashing.block_bytes (H.ends_bytes ends.new))
        ≡ message_end H.hashing 0 packet.now off len }
    ensures length { length (H.ends_bytes ends.new) ≡ 4 * H.hashing.block_bytes }
{
    put_end::<H>(ends, 0, packet, off, len);
}

/// Writes the ends of a new HMAC from states: the end of the message and its padding, behind a block. What stands around them is not looked
/// at.
pub(crate) fn put_states_ends<H: LaneHash>(
    ends: &mut H::Ends,
    packet: &[u8],
    off: usize,
    len: usize,
)
    requires small { len < 2 ^ 32 }
    requires range { off + len ≤ length packet.now }
    requires whole { length (H.ends_bytes ends.old) ≡ 4 * H.hashing.block_bytes }
    ensures value { take (H.hashing.block_bytes * tail_blocks H.hashing.block_bytes len) (drop H.hashing.block_bytes (H.ends_bytes ends.new))
        ≡ message_end H.hashing H.hashing.block_bytes packet.now off len }
    ensures length { length (H.ends_bytes ends.new) ≡ 4 * H.hashing.block_bytes }
{
    put_end::<H>(ends, H::block_bytes(), packet, off, len);
}
