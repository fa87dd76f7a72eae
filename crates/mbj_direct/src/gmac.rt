//! GMAC (SP 800-38D, 3.1) of data that comes in parts.
ghost use Rattle.std.specs.Prelude.{◌≡◌, ℕ, ◌≤◌, List, [], length, IsTrue};
ghost use Rattle.mbj_types.specs.Aes.{aes};
ghost use Rattle.mbj_types.specs.Gcm.{gmac};
ghost use Rattle.mbj_aes.specs.Bytes.{IsKeySize};
ghost use Rattle.mbj_direct.specs.Gmac.{GivesTag, HasTakenData, TakesPart, blank_gmac_state, is_gmac_state};

use crate::counter::enciphered;
use crate::hash::PartHash;
use mbj_aes::Schedule;
use mbj_aes_lanes::TextKey;
use mbj_gcm::pre_counter_block;
use mbj_types::{BLOCK_BYTES, xor_in_place};

// The mark of a state from which data can go on.
const BEGUN: u64 = 1;

/// Data of which the parts so far were taken for its GMAC. It is a plain value of 80 bytes, in the order of C's, and owns no memory: a
/// copy goes on by itself. It holds the hash subkey and the mask of the tag, with which tags can be forged, and is as secret as the key,
/// which it doesn't hold.
///
/// Each pattern of these bytes is a value. `is_state` tells those that data can go on from, which `begin` makes; all zero bytes are no
/// state.
#[repr(C)]
#[derive(Clone, Copy)]
pub struct GmacState {
    begun: u64,
    // the enciphered counter block before the first one, E(J0)
    mask: [u8; BLOCK_BYTES],
    // it takes the data where a text has its ciphertext, with no block before it
    hash: PartHash,
}

// The size that stands in the documentation, and in C's header.
const _: () = prove!(size_of::<GmacState>() == 80);

impl GmacState {
    /// Begins with no data, under a key of 16, 24 or 32 bytes, from an IV of 1 to 65,535 bytes. It takes no memory.
    pub fn begin(key: &[u8], iv: &[u8]) -> GmacState
        requires key { IsKeySize (length key.now) }
        requires some_iv { 1 ≤ length iv.now }
        requires iv_fits { length iv.now ≤ 65535 }
        ensures state { IsTrue (is_gmac_state result) }
        ensures begun { HasTakenData key.now iv.now [] result }
    {
        let text_key = TextKey::new(&Schedule::expand(key));
        let subkey = enciphered(&text_key, &[0; BLOCK_BYTES]);
        let pre_counter = pre_counter_block(&text_key, iv);
        GmacState {
            begun: BEGUN,
            mask: enciphered(&text_key, &pre_counter),
            hash: PartHash::new(&subkey, &[]),
        }
    }

    /// Whether data can go on from it: it was begun, and not finished. C's calls refuse any other.
    pub fn is_state(&self) -> bool
        ensures { result ≡ is_gmac_state self.now }
    {
        self.begun == BEGUN
    }

    /// Takes the next part of the data, of any length. However data is cut into parts, its tag is the same. It expands no key and takes no
    /// memory.
    pub fn update(&mut self, part: &[u8])
        requires { IsTrue (is_gmac_state self.old) }
        ensures state { IsTrue (is_gmac_state self.new) }
        ensures taken { TakesPart part.now self.old self.new }
    {
        self.hash.take(part);
    }

    /// The 16 bytes of tag over the data, of which a shorter tag is the leftmost ones. Nothing is compared. It takes no memory.
    ///
    /// The state becomes all zero bytes, which are no state.
    pub fn finish(&mut self) -> [u8; 16]
        requires { IsTrue (is_gmac_state self.old) }
        ensures cleared { self.new ≡ blank_gmac_state }
        ensures tag { GivesTag self.old result }
    {
        let mut tag = self.mask;
        xor_in_place(&mut tag, &self.hash.value_of_data());
        *self = GmacState::blank();
        tag
    }

    /// All zero bytes, which are no state.
    pub fn blank() -> GmacState
        ensures { result ≡ blank_gmac_state }
    {
        GmacState {
            begun: 0,
            mask: [0; BLOCK_BYTES],
            hash: PartHash::blank(),
        }
    }
}
