ghost use Rattle.std.specs.Prelude.{◌≡◌, ℕ, ◌+◌, ◌-◌, ◌*◌, ◌^◌, ◌<◌, ◌≤◌, length, drop, refl};
ghost use Rattle.mbj_types.specs.Aes.{aes, encipher, key_schedule, round_count};
ghost use Rattle.mbj_types.specs.Blocks.{zero_block};
ghost use Rattle.mbj_types.specs.Cmac.{closed_block, cmac};
ghost use Rattle.mbj_types.specs.Result.{range};
ghost use Rattle.mbj_types.specs.Rounds.{cmac_rounds};
ghost use Rattle.mbj_aes.specs.Bytes.{IsKeySize, IsRoundCount};
ghost use Rattle.mbj_aes_lanes.specs.KeyBytes.{IsKeyArray, key_of_array};
ghost use Rattle.mbj_lane.specs.Rounds.{end_of};
ghost use Rattle.mbj_cmac.specs.Inside.Sound.{last_part};
ghost use Rattle.mbj_cmac.specs.Rounds.{CmacState, key_of, rest_of, block_of, chain_of, advanced, kept, round, started};

use crate::closing::{closed_block, closed_by, doubled};
use mbj_aes::Schedule;
use mbj_aes_lanes::{Chained, ChainedEntry, bytes_of_key, bytes_of_schedule, schedule_of_bytes};
use mbj_blocks::block_from;
use mbj_types::BLOCK_BYTES;
use std::marker::Model;

/// An entry of a lane: a CMAC (SP 800-38B, 6.2) over a range of a packet, under a key of `N` rounds. A round chains one block of
/// the message. In slots the last blocks of all entries are closed at once, in the first run in which one of them reaches its last block;
/// a block that isn't closed by then is closed when it is read.
#[derive(Drop)]
pub struct CmacEntry<const N: usize> {
    /// The packet, as it was given.
    pub packet: Vec<u8>,
    /// How many rounds are left.
    pub rest: u32,
    /// The chaining value, of zeros at the start.
    pub chain: [u8; 16],
    key: [u8; 32],
    // the last block, once it is closed
    last: [u8; 16],
    is_closed: bool,
    off: usize,
    len: usize,
}

/// CMACs in `AES_LANES` lanes, under keys of `N` rounds: 10, 12 or 14.
pub type CmacKernel<const N: usize> = Chained<CmacEntry<N>>;

impl<const N: usize> Model for CmacEntry<N> {
    ghost use Rattle.mbj_types.specs.Aes.{key_schedule};
    ghost use Rattle.mbj_aes.specs.Bytes.{IsRoundCount};
    ghost use Rattle.mbj_aes_lanes.specs.KeyBytes.{IsKeyArray, key_of_array};
    ghost use Rattle.mbj_cmac.specs.Rounds.{CmacState};
    ghost use Rattle.mbj_cmac.specs.Inside.Sound.{IsSound};

    ghost Value = { CmacState };

    ghost view = { λ e. record {
      packet = e.packet.items;
      rest = e.rest;
      chain = e.chain;
      key = key_schedule (key_of_array N e.key);
      off = e.off;
      len = e.len;
    } };

    ghost invariant = { λ e. IsRoundCount N × IsKeyArray N e.key × IsSound e.is_closed e.last (record {
      packet = e.packet.items;
      rest = e.rest;
      chain = e.chain;
      key = key_schedule (key_of_array N e.key);
      off = e.off;
      len = e.len;
    }) };
}

/// The rounds of a CMAC over a message of `len` bytes.
#[inline(always)]
fn rounds(len: usize) -> u32
    requires { len < 2 ^ 32 }
    ensures { result ≡ cmac_rounds len }
{
    if len == 0 {
        1
    } else {
        len.div_ceil(BLOCK_BYTES) as u32
    }
}

impl<const N: usize> CmacEntry<N> {
    /// A CMAC of which nothing is done, over `len` bytes of the packet from `off` on. The key has `N` rounds, and the
    /// range lies in the packet. It takes no memory, and the packet moves into the entry.
    ///
    /// At its end the entry has the packet as it was given, and its chaining value is the CMAC.
    pub fn new(key: Schedule, packet: Vec<u8>, off: u32, len: u32) -> CmacEntry<N>
        requires rounds { length key ≡ 16 * (N + 1) }
        requires range { off + len ≤ length packet.items }
        ensures start { result ≡ started key packet.items off len }
        ensures rest { result.rest ≡ cmac_rounds len }
        ensures packet { (end_of round rest_of result).packet ≡ packet.items }
        ensures mac { (end_of round rest_of result).chain ≡ cmac (encipher key) (range off len packet.items) }
    {
        CmacEntry::of_bytes(bytes_of_schedule(&key), packet, off, len)
    }

    /// The same by the bytes of the key, which the lanes expand.
    pub fn new_by_key(key: &[u8], packet: Vec<u8>, off: u32, len: u32) -> CmacEntry<N>
        requires size { IsKeySize (length key.now) }
        requires rounds { round_count key.now ≡ N }
        requires range { off + len ≤ length packet.items }
        ensures start { result ≡ started (key_schedule key.now) packet.items off len }
        ensures rest { result.rest ≡ cmac_rounds len }
        ensures packet { (end_of round rest_of result).packet ≡ packet.items }
        ensures mac { (end_of round rest_of result).chain ≡ cmac (aes key.now) (range off len packet.items) }
    {
        CmacEntry::of_bytes(bytes_of_key(key), packet, off, len)
    }

    /// The same by an array of 32 bytes, which begins with the key.
    fn of_bytes(key: [u8; 32], packet: Vec<u8>, off: u32, len: u32) -> CmacEntry<N>
        requires rounds { IsRoundCount N }
        requires key { IsKeyArray N key }
        requires range { off + len ≤ length packet.items }
        ensures { result ≡ started (key_schedule (key_of_array N key)) packet.items off len }
    {
        let (off, len) = (off as usize, len as usize);
        CmacEntry {
            packet,
            rest: rounds(len),
            chain: [0; BLOCK_BYTES],
            key,
            last: [0; BLOCK_BYTES],
            is_closed: false,
            off,
            len,
        }
    }

    /// The packet, and the CMAC: its 16 bytes, of which a shorter tag is the leftmost ones. No round is left.
    pub fn into_parts(self) -> (Vec<u8>, [u8; 16])
        requires { self.rest ≡ 0 }
        ensures packet { result.0.items ≡ self.entry.packet }
        ensures mac { result.1 ≡ self.entry.chain }
    {
        let chain = self.chain;
        (self.packet, chain)
    }

    /// The last block of the message, as it is before it is closed.
    #[inline(always)]
    fn last_part(&self) -> &[u8]
        ensures part { result.now ≡ last_part self.now }
        ensures length { length result.now ≤ 16 }
    {
        let at = self.off + BLOCK_BYTES * (rounds(self.len) as usize - 1);
        &self.packet[at..self.off + self.len]
    }

    /// The last block closed, anew if it wasn't yet.
    #[inline(always)]
    fn last_block(&self) -> [u8; 16]
        ensures { result ≡ closed_block (encipher self.now.key) (last_part self.now) }
    {
        if self.is_closed {
            self.last
        } else {
            closed_block(&schedule_of_bytes(&self.key, N), self.last_part())
        }
    }
}

impl<const N: usize> ChainedEntry for CmacEntry<N> {
    ghost key_rounds = { N };

    ghost key_of = { key_of };

    ghost rest_of = { rest_of };

    ghost block_of = { block_of };

    ghost chain_of = { chain_of };

    ghost advanced = { advanced };

    ghost kept = { kept };

    #[inline(always)]
    fn rounds(&self) -> usize {
        // Where a field is read, it is known what holds inside an entry: N is 10, 12 or 14.
        let _ = &self.key;
        N
    }

    #[inline(always)]
    fn key_bytes(&self) -> &[u8; 32] {
        &self.key
    }

    #[inline(always)]
    fn rest(&self) -> u32 {
        self.rest
    }

    #[inline(always)]
    fn needs_cmac_l(&self, m: u32) -> bool {
        !self.is_closed && self.rest <= m
    }

    #[inline(always)]
    fn set_cmac_l(&mut self, l: &[u8; 16]) {
        if self.is_closed {
            return;
        }
        let last = closed_by(&doubled(l), self.last_part());
        self.last = last;
        self.is_closed = true;
    }

    #[inline(always)]
    fn block(&self) -> [u8; 16] {
        if self.rest == 1 {
            return self.last_block();
        }
        let at = self.off + BLOCK_BYTES * (rounds(self.len) - self.rest) as usize;
        block_from(&self.packet, at)
    }

    #[inline(always)]
    fn chain(&self) -> &[u8; 16] {
        &self.chain
    }

    #[inline(always)]
    fn advance(&mut self, _chain: &[u8; 16]) {
        self.rest -= 1;
    }

    #[inline(always)]
    fn keep(&mut self, chain: &[u8; 16]) {
        self.chain = *chain;
    }

    ghost takes = { λ e c. refl };

    ghost keeps_own = { λ e. refl };

    ghost keeps_last = { λ e b c. refl };

    ghost advances_rest = { λ e b c l. refl };

    ghost keeps_key = { λ e c. refl };

    ghost keeps_block = { λ e c. refl };

    ghost keeps_rest = { λ e c. refl };

    ghost advances_key = { λ e c. refl };

    ghost falls = { λ e c. refl };
}
