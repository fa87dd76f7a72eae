ghost use Rattle.std.specs.Prelude.{◌≡◌, ℕ, ◌+◌, ◌*◌, ◌%◌, ◌<◌, ◌≤◌, ◌++◌, length, take, drop, refl};
ghost use Rattle.mbj_types.specs.Aes.{aes, encipher, key_schedule, round_count};
ghost use Rattle.mbj_types.specs.Modes.{cbc_text};
ghost use Rattle.mbj_types.specs.Result.{range};
ghost use Rattle.mbj_types.specs.Rounds.{cbc_rounds};
ghost use Rattle.mbj_aes.specs.Bytes.{IsKeySize, IsRoundCount};
ghost use Rattle.mbj_aes_lanes.specs.KeyBytes.{IsKeyArray, key_of_array};
ghost use Rattle.mbj_lane.specs.Rounds.{end_of};
ghost use Rattle.mbj_cbc.specs.Rounds.{CbcState, key_of, rest_of, block_of, chain_of, advanced, kept, next_block_at, round, started};

use mbj_aes::Schedule;
use mbj_aes_lanes::{Chained, ChainedEntry, bytes_of_key, bytes_of_schedule};
use mbj_blocks::block_from;
use mbj_types::BLOCK_BYTES;
use std::marker::Model;

/// An entry of a lane: a CBC encryption (SP 800-38A, 6.2) of a range of a packet, under a key of `N` rounds. A round encrypts
/// one block, in place.
#[derive(Drop)]
pub struct CbcEntry<const N: usize> {
    /// The packet, in whose range the blocks before the next one are encrypted.
    pub packet: Vec<u8>,
    /// How many rounds are left.
    pub rest: u32,
    /// The chaining value: the last block of ciphertext, and the IV at the start.
    pub chain: [u8; 16],
    key: [u8; 32],
    off: usize,
    len: usize,
}

/// CBC encryption in `AES_LANES` lanes, under keys of `N` rounds: 10, 12 or 14.
pub type CbcKernel<const N: usize> = Chained<CbcEntry<N>>;

impl<const N: usize> Model for CbcEntry<N> {
    ghost use Rattle.std.specs.Prelude.{◌≡◌, ◌+◌, ◌*◌, ◌^◌, ◌<◌, ◌≤◌, length};
    ghost use Rattle.mbj_types.specs.Aes.{key_schedule};
    ghost use Rattle.mbj_aes.specs.Bytes.{IsRoundCount};
    ghost use Rattle.mbj_aes_lanes.specs.KeyBytes.{IsKeyArray, key_of_array};
    ghost use Rattle.mbj_cbc.specs.Rounds.{CbcState};

    ghost Value = { CbcState };

    ghost view = { λ e. record {
      packet = e.packet.items;
      rest = e.rest;
      chain = e.chain;
      key = key_schedule (key_of_array N e.key);
      off = e.off;
      len = e.len;
    } };

    ghost invariant = { λ e. IsRoundCount N × IsKeyArray N e.key × (length e.chain ≡ 16)
        × (e.off + e.len ≤ length e.packet.items) × (16 * e.rest ≤ e.len) × (e.len < 2 ^ 32) };
}

impl<const N: usize> CbcEntry<N> {
    /// An encryption of which nothing is done, of `len` bytes of the packet from `off` on. The key has `N` rounds, the
    /// range lies in the packet, and its length is a multiple of 16 bytes and not 0. It takes no memory, and the packet
    /// moves into the entry.
    ///
    /// At its end the entry has the packet with the range encrypted.
    pub fn new(key: Schedule, iv: [u8; 16], packet: Vec<u8>, off: u32, len: u32) -> CbcEntry<N>
        requires rounds { length key ≡ 16 * (N + 1) }
        requires range { off + len ≤ length packet.items }
        requires some { 0 < len }
        requires whole { len % 16 ≡ 0 }
        ensures start { result ≡ started key iv packet.items off len }
        ensures rest { result.rest ≡ cbc_rounds len }
        ensures packet { (end_of round rest_of result).packet
            ≡ take off packet.items ++ cbc_text (encipher key) iv (range off len packet.items) ++ drop (off + len) packet.items }
    {
        let key = bytes_of_schedule(&key);
        CbcEntry::of_bytes(key, iv, packet, off, len)
    }

    /// The same by the bytes of the key, which the lanes expand.
    pub fn new_by_key(key: &[u8], iv: [u8; 16], packet: Vec<u8>, off: u32, len: u32) -> CbcEntry<N>
        requires size { IsKeySize (length key.now) }
        requires rounds { round_count key.now ≡ N }
        requires range { off + len ≤ length packet.items }
        requires some { 0 < len }
        requires whole { len % 16 ≡ 0 }
        ensures start { result ≡ started (key_schedule key.now) iv packet.items off len }
        ensures rest { result.rest ≡ cbc_rounds len }
        ensures packet { (end_of round rest_of result).packet
            ≡ take off packet.items ++ cbc_text (aes key.now) iv (range off len packet.items) ++ drop (off + len) packet.items }
    {
        CbcEntry::of_bytes(bytes_of_key(key), iv, packet, off, len)
    }

    /// The same by an array of 32 bytes, which begins with the key.
    fn of_bytes(key: [u8; 32], iv: [u8; 16], packet: Vec<u8>, off: u32, len: u32) -> CbcEntry<N>
        requires rounds { IsRoundCount N }
        requires key { IsKeyArray N key }
        requires range { off + len ≤ length packet.items }
        requires whole { len % 16 ≡ 0 }
        ensures { result ≡ started (key_schedule (key_of_array N key)) iv packet.items off len }
    {
        CbcEntry {
            packet,
            rest: len / BLOCK_BYTES as u32,
            chain: iv,
            key,
            off: off as usize,
            len: len as usize,
        }
    }

    /// The packet, whose range is encrypted. No round is left.
    pub fn into_packet(self) -> Vec<u8>
        requires { self.rest ≡ 0 }
        ensures { result.items ≡ self.entry.packet }
    {
        self.packet
    }

    /// Where the next block of the text begins in the packet.
    #[inline(always)]
    fn next_block_at(&self) -> usize
        ensures { result ≡ next_block_at self.now }
    {
        self.off + self.len - BLOCK_BYTES * self.rest as usize
    }
}

impl<const N: usize> ChainedEntry for CbcEntry<N> {
    ghost key_rounds = { N };

    ghost key_of = { key_of };

    ghost rest_of = { rest_of };

    ghost block_of = { block_of };

    ghost chain_of = { chain_of };

    ghost advanced = { advanced };

    ghost kept = { kept };

    #[inline(always)]
    fn rounds(&self) -> usize {
        // Where a field is read, it is known what holds inside an entry: N is 10, 12 or 14.
        let _ = &self.key;
        N
    }

    #[inline(always)]
    fn key_bytes(&self) -> &[u8; 32] {
        &self.key
    }

    #[inline(always)]
    fn rest(&self) -> u32 {
        self.rest
    }

    #[inline(always)]
    fn needs_cmac_l(&self, _m: u32) -> bool {
        false
    }

    #[inline(always)]
    fn set_cmac_l(&mut self, _l: &[u8; 16]) {}

    #[inline(always)]
    fn block(&self) -> [u8; 16] {
        block_from(&self.packet, self.next_block_at())
    }

    #[inline(always)]
    fn chain(&self) -> &[u8; 16] {
        &self.chain
    }

    #[inline(always)]
    fn advance(&mut self, chain: &[u8; 16]) {
        let at = self.next_block_at();
        self.packet[at..at + BLOCK_BYTES].copy_from_slice(chain);
        self.rest -= 1;
    }

    #[inline(always)]
    fn keep(&mut self, chain: &[u8; 16]) {
        self.chain = *chain;
    }

    ghost takes = { λ e c. refl };

    ghost keeps_own = { λ e. refl };

    ghost keeps_last = { λ e b c. refl };

    ghost advances_rest = { λ e b c l. refl };

    ghost keeps_key = { λ e c. refl };

    ghost keeps_block = { λ e c. refl };

    ghost keeps_rest = { λ e c. refl };

    ghost advances_key = { λ e c. refl };

    ghost falls = { λ e c. refl };
}
