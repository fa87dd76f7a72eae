// Where the blocks of an entry stand, by the rounds that are left.
ghost use Rattle.std.specs.Prelude.{◌≡◌, ◌+◌, ◌*◌, ◌^◌, ◌<◌, ◌≤◌, length, nat_lt, replicate, if◌then◌else◌};
ghost use Rattle.mbj_hmac.specs.Inside.Layout.{IsPlaced, is_in_packet, place_at};
ghost use Rattle.mbj_hmac.specs.declared.key.TheConstants.{MAX_BLOCK_BYTES};
ghost use Rattle.mbj_hmac.specs.declared.places.TheConstants.{BLANK_BYTES, MAX_PLACES};

use crate::ends::tail_blocks;
use crate::form::Form;
use crate::key::MAX_BLOCK_BYTES;
use crate::lane_hash::LaneHash;

/// Where the blocks of an entry stand. They are counted from the last one, which has the least number of rounds left.
#[derive(Clone, Copy)]
pub(crate) struct Places {
    /// Up to this rest they are made in the vectors of the lanes.
    made: u32,
    /// Above that, and up to this rest, they stand in the entry, behind its first block.
    behind: u32,
    /// Above that, and up to this rest, they stand in the packet. Above this there is the first block of the entry.
    high: u32,
    /// How many stand in the packet.
    whole: u32,
}

impl Places {
    /// Those of an entry over `len` bytes.
    #[inline(always)]
    pub(crate) fn of<H: LaneHash>(form: Form, len: usize) -> Places
        requires { len < 2 ^ 32 }
        ensures { IsPlaced H.hashing.block_bytes form len result }
    {
        let behind = tail_blocks::<H>(len) as u32 + form.outer_rounds();
        let whole = (len / H::block_bytes()) as u32;
        Places {
            made: form.made_rounds(),
            behind,
            high: behind + whole,
            whole,
        }
    }

    /// The block stands in the packet. One comparison tells it: above `high` the difference wraps around.
    #[inline(always)]
    pub(crate) fn is_in_packet(self, rest: u32) -> bool
        requires { self.high ≡ self.behind + self.whole }
        ensures { result ≡ is_in_packet self rest }
    {
        self.high.wrapping_sub(rest) < self.whole
    }

    /// The block stands in the packet or in the entry.
    #[inline(always)]
    pub(crate) fn is_read(self, rest: u32) -> bool
        ensures { result ≡ nat_lt self.made rest }
    {
        self.made < rest
    }

    /// Where the block begins, in the packet or in the entry. A block that is made is one of zeros, wherever it begins. The message is in the
    /// packet from `off` on.
    #[inline(always)]
    pub(crate) fn place(self, rest: u32, off: usize, block: usize) -> usize
        requires whole { self.high ≡ self.behind + self.whole }
        requires off { off < 2 ^ 63 }
        requires block { block ≤ MAX_BLOCK_BYTES }
        requires few { self.behind < MAX_PLACES }
        ensures place { result ≡ place_at block self rest off }
        ensures few { result < 2 ^ 63 + 2 ^ 40 }
    {
        if self.is_in_packet(rest) {
            off + block * (self.high - rest) as usize
        } else {
            block * (self.behind + 1).saturating_sub(rest) as usize
        }
    }
}

/// The bytes in which a block stands: those of the packet, those of the entry, or zeros.
#[inline(always)]
pub(crate) fn source<'a>(
    is_in_packet: bool,
    is_read: bool,
    packet: &'a [u8],
    ends: &'a [u8],
    blank: &'a [u8],
) -> &'a [u8]
    ensures { result.now ≡ if is_in_packet then packet.now else if is_read then ends.now else blank.now }
{
    if is_in_packet {
        packet
    } else if is_read {
        ends
    } else {
        blank
    }
}

/// The places of blocks that don't stand in the packet: the first one, at most two of the message's end, and two of an outer hash.
const MAX_PLACES: u32 = 5;

/// The bytes that stand where a block is made, one for each place and a block behind the last.
const BLANK_BYTES: usize = (MAX_PLACES as usize + 1) * MAX_BLOCK_BYTES;

const BLANK: [u8; BLANK_BYTES] = [0; BLANK_BYTES];

/// Zeros, as many as there are places for.
#[inline(always)]
pub(crate) fn blank_blocks() -> &'static [u8]
    ensures { result.now ≡ replicate BLANK_BYTES 0 }
{
    &BLANK
}

/// A block of zeros.
#[inline(always)]
pub(crate) fn blank_block<H: LaneHash>() -> &'static [u8]
    ensures block { result.now ≡ replicate H.hashing.block_bytes 0 }
    ensures length { length result.now ≡ H.hashing.block_bytes }
{
    &BLANK[..H::block_bytes()]
}
