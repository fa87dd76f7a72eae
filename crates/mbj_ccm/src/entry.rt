ghost use Rattle.std.specs.Prelude.{◌≡◌, ℕ, ◌+◌, ◌-◌, ◌*◌, ◌%◌, ◌<◌, ◌≤◌, [], length, slice_index_or, refl};
ghost use Rattle.mbj_types.specs.Aes.{encipher};
ghost use Rattle.mbj_types.specs.Ccm.{ccm_mac};
ghost use Rattle.mbj_types.specs.Result.{range};
ghost use Rattle.mbj_types.specs.Rounds.{data_rounds, ccm_rounds};
ghost use Rattle.mbj_lane.specs.Rounds.{end_of};
ghost use Rattle.mbj_ccm.specs.Rounds.{CcmState, key_of, rest_of, chain_of, blocks_of, block_of, advanced, kept, round, started};

use crate::format::{data_block, data_rounds, filled_from, first_block};
use mbj_aes::Schedule;
use mbj_aes_lanes::{Chained, ChainedEntry, bytes_of_schedule};
use mbj_types::{BLOCK_BYTES, MAX_CCM_AAD_BYTES, MAX_PACKET_BYTES};
use std::marker::Model;

/// An entry of a lane: the MAC of CCM (SP 800-38C, 6.1, steps 1 to 3) over a nonce, additional data and the plaintext, which is
/// a range of a packet, under a key of `N` rounds. A round chains one block: the first one, those of the additional
/// data, and those of the text.
#[derive(Drop)]
pub struct CcmEntry<const N: usize> {
    /// The packet, as it was given.
    pub packet: Vec<u8>,
    /// How many rounds are left.
    pub rest: u32,
    /// The chaining value, of zeros at the start.
    pub chain: [u8; 16],
    iv: Vec<u8>,
    aad: Vec<u8>,
    key: [u8; 32],
    off: usize,
    len: usize,
    tag_len: u8,
}

/// MACs of CCM in `AES_LANES` lanes, under keys of `N` rounds: 10, 12 or 14.
pub type CcmKernel<const N: usize> = Chained<CcmEntry<N>>;

impl<const N: usize> Model for CcmEntry<N> {
    ghost use Rattle.mbj_types.specs.Aes.{key_schedule};
    ghost use Rattle.mbj_aes.specs.Bytes.{IsRoundCount};
    ghost use Rattle.mbj_aes_lanes.specs.KeyBytes.{IsKeyArray, key_of_array};
    ghost use Rattle.mbj_ccm.specs.Rounds.{CcmState};
    ghost use Rattle.mbj_ccm.specs.Inside.Sound.{IsSound};

    ghost Value = { CcmState };

    ghost view = { λ e. record {
      packet = e.packet.items;
      iv = e.iv.items;
      aad = e.aad.items;
      tag_len = e.tag_len;
      rest = e.rest;
      chain = e.chain;
      key = key_schedule (key_of_array N e.key);
      off = e.off;
      len = e.len;
    } };

    ghost invariant = { λ e. IsRoundCount N × IsKeyArray N e.key × IsSound (record {
      packet = e.packet.items;
      iv = e.iv.items;
      aad = e.aad.items;
      tag_len = e.tag_len;
      rest = e.rest;
      chain = e.chain;
      key = key_schedule (key_of_array N e.key);
      off = e.off;
      len = e.len;
    }) };
}

/// The rounds of a MAC over additional data and a text of these lengths.
#[inline(always)]
fn rounds(aad_len: usize, len: usize) -> u32
    requires aad { aad_len ≤ MAX_CCM_AAD_BYTES }
    requires text { len ≤ MAX_PACKET_BYTES }
    ensures { result ≡ ccm_rounds aad_len len }
{
    (1 + data_rounds(aad_len) + len.div_ceil(BLOCK_BYTES)) as u32
}

impl<const N: usize> CcmEntry<N> {
    /// A MAC of which nothing is done, over the nonce `iv`, the additional data `aad` and `len` bytes of the packet
    /// from `off` on, for a tag of `tag_len` bytes. The key has `N` rounds, the nonce 7 to 13 bytes, the additional
    /// data 65,279 at most, the packet 65,535 at most, and the tag an even number of bytes from 4 to 16. The range lies
    /// in the packet. It takes no memory, and nonce, data and packet move into the entry.
    ///
    /// At its end the entry has all three as they were given, and its chaining value is the MAC.
    pub fn new(
        key: Schedule,
        iv: Vec<u8>,
        aad: Vec<u8>,
        packet: Vec<u8>,
        off: u32,
        len: u32,
        tag_len: u8,
    ) -> CcmEntry<N>
        requires rounds { length key ≡ 16 * (N + 1) }
        requires iv_least { 7 ≤ length iv.items }
        requires iv_most { length iv.items ≤ 13 }
        requires aad_fits { length aad.items ≤ MAX_CCM_AAD_BYTES }
        requires packet_fits { length packet.items ≤ MAX_PACKET_BYTES }
        requires range { off + len ≤ length packet.items }
        requires tag_least { 4 ≤ tag_len }
        requires tag_most { tag_len ≤ 16 }
        requires tag_even { tag_len % 2 ≡ 0 }
        ensures start { result ≡ started key iv.items aad.items packet.items off len tag_len }
        ensures rest { result.rest ≡ ccm_rounds (length aad.items) len }
        ensures some { 1 ≤ result.rest }
        ensures packet { (end_of round rest_of result).packet ≡ packet.items }
        ensures iv { (end_of round rest_of result).iv ≡ iv.items }
        ensures aad { (end_of round rest_of result).aad ≡ aad.items }
        ensures mac { (end_of round rest_of result).chain
            ≡ ccm_mac (encipher key) iv.items aad.items (range off len packet.items) tag_len }
    {
        let (off, len) = (off as usize, len as usize);
        let rest = rounds(aad.len(), len);
        let key = bytes_of_schedule(&key);
        CcmEntry {
            packet,
            rest,
            chain: [0; BLOCK_BYTES],
            iv,
            aad,
            key,
            off,
            len,
            tag_len,
        }
    }

    /// The packet, the nonce, the additional data, and the MAC: its 16 bytes, which the mask of the tag is xored with.
    /// No round is left.
    pub fn into_parts(self) -> (Vec<u8>, Vec<u8>, Vec<u8>, [u8; 16])
        requires { self.rest ≡ 0 }
        ensures packet { result.0.items ≡ self.entry.packet }
        ensures iv { result.1.items ≡ self.entry.iv }
        ensures aad { result.2.items ≡ self.entry.aad }
        ensures mac { result.3 ≡ self.entry.chain }
    {
        let chain = self.chain;
        (self.packet, self.iv, self.aad, chain)
    }

    /// Block `i` of the text, which begins there.
    #[inline(always)]
    fn text_block(&self, i: usize) -> [u8; 16]
        requires { 16 * i < self.now.len }
        ensures { result ≡ slice_index_or (blocks_of self.now) (1 + data_rounds (length self.now.aad) + i) [] }
    {
        let text = &self.packet[self.off..self.off + self.len];
        filled_from(text, BLOCK_BYTES * i)
    }

    /// The block before the text with which `left` of them are left. A call keeps it out of the loop over the others.
    #[inline(never)]
    fn block_before_text(&self, left: usize) -> [u8; 16]
        requires some { 1 ≤ left }
        requires most { left ≤ 1 + data_rounds (length self.now.aad) }
        ensures { result ≡ slice_index_or (blocks_of self.now) (1 + data_rounds (length self.now.aad) - left) [] }
    {
        let of_data = data_rounds(self.aad.len());
        if left <= of_data {
            data_block(&self.aad, of_data - left)
        } else {
            first_block(&self.iv, &self.aad, self.len, self.tag_len)
        }
    }
}

impl<const N: usize> ChainedEntry for CcmEntry<N> {
    ghost key_rounds = { N };

    ghost key_of = { key_of };

    ghost rest_of = { rest_of };

    ghost block_of = { block_of };

    ghost chain_of = { chain_of };

    ghost advanced = { advanced };

    ghost kept = { kept };

    #[inline(always)]
    fn rounds(&self) -> usize {
        // Where a field is read, it is known what holds inside an entry: N is 10, 12 or 14.
        let _ = &self.key;
        N
    }

    #[inline(always)]
    fn key_bytes(&self) -> &[u8; 32] {
        &self.key
    }

    #[inline(always)]
    fn rest(&self) -> u32 {
        self.rest
    }

    #[inline(always)]
    fn needs_cmac_l(&self, _m: u32) -> bool {
        false
    }

    #[inline(always)]
    fn set_cmac_l(&mut self, _l: &[u8; 16]) {}

    #[inline(always)]
    fn block(&self) -> [u8; 16] {
        let of_text = self.len.div_ceil(BLOCK_BYTES);
        let left = self.rest as usize;
        if left <= of_text {
            self.text_block(of_text - left)
        } else {
            self.block_before_text(left - of_text)
        }
    }

    #[inline(always)]
    fn chain(&self) -> &[u8; 16] {
        &self.chain
    }

    #[inline(always)]
    fn advance(&mut self, _chain: &[u8; 16]) {
        self.rest -= 1;
    }

    #[inline(always)]
    fn keep(&mut self, chain: &[u8; 16]) {
        self.chain = *chain;
    }

    ghost takes = { λ e c. refl };

    ghost keeps_own = { λ e. refl };

    ghost keeps_last = { λ e b c. refl };

    ghost advances_rest = { λ e b c l. refl };

    ghost keeps_key = { λ e c. refl };

    ghost keeps_block = { λ e c. refl };

    ghost keeps_rest = { λ e c. refl };

    ghost advances_key = { λ e c. refl };

    ghost falls = { λ e c. refl };
}
