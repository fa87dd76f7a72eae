//! GCM (SP 800-38D, 7) of a text that comes in parts.
ghost use Rattle.std.specs.Prelude.{◌≡◌, ℕ, ◌≤◌, Bool, List, [], ◌++◌, length, take, drop, IsTrue};
ghost use Rattle.mbj_types.specs.Aes.{aes, key_schedule};
ghost use Rattle.mbj_types.specs.Gcm.{gcm, gcm_text};
ghost use Rattle.mbj_types.specs.Result.{is_enc};
ghost use Rattle.mbj_aes.specs.Bytes.{IsKeySize};
ghost use Rattle.mbj_direct.specs.Parts.{HasTaken, blank_state, dir_number, is_gcm_state, key_of};

use crate::counter::{enciphered, xor_part};
use crate::hash::PartHash;
use mbj_aes::{MAX_KEY_BYTES, Schedule};
use mbj_aes_lanes::TextKey;
use mbj_gcm::pre_counter_block;
use mbj_types::{BLOCK_BYTES, Dir, is_key_size, xor_in_place};

// The numbers of directions.
const SEALS: u32 = 0;

const OPENS: u32 = 1;

const DIRECTIONS: u32 = 2;

/// A text by GCM of which the parts so far were sealed or opened. It is a plain value of 120 bytes, in the order of C's, and owns no
/// memory. It holds the key, and is as secret.
///
/// Each pattern of these bytes is a value. `is_state` tells those that a text can go on from, which `begin` makes; all zero bytes are no
/// state.
///
/// A text in three parts, and its tag:
///
/// ```
/// state.update(first);
/// state.update(second);
/// state.update(third);
/// let found = state.finish();
/// ```
#[repr(C)]
#[derive(Clone, Copy)]
pub struct GcmState {
    // the key, and any bytes behind it
    key: [u8; MAX_KEY_BYTES],
    key_bytes: u32,
    dir: u32,
    // the counter block before the first one of the text, J0
    pre_counter: [u8; BLOCK_BYTES],
    // the length of the additional data
    aad_bytes: u64,
    hash: PartHash,
}

// The size that stands in the documentation, and in C's header.
const _: () = prove!(size_of::<GcmState>() == 120);

// The number of a direction.
fn dir_number(dir: Dir) -> u32
    ensures { result ≡ dir_number (is_enc dir) }
{
    match dir {
        Dir::Enc => SEALS,
        Dir::Dec => OPENS,
    }
}

// A key, and zero bytes behind it.
fn padded_key(key: &[u8]) -> [u8; MAX_KEY_BYTES]
    requires { length key.now ≤ MAX_KEY_BYTES }
    ensures { take (length key.now) result ≡ key.now }
{
    let mut bytes = [0; MAX_KEY_BYTES];
    bytes[..key.len()].copy_from_slice(key);
    bytes
}

impl GcmState {
    /// Begins a text of which nothing is sealed or opened, under a key of 16, 24 or 32 bytes, from an IV of 1 to 65,535 bytes. The
    /// additional data may have any number of bytes. It takes no memory.
    pub fn begin(dir: Dir, key: &[u8], iv: &[u8], aad: &[u8]) -> GcmState
        requires key { IsKeySize (length key.now) }
        requires some_iv { 1 ≤ length iv.now }
        requires iv_fits { length iv.now ≤ 65535 }
        ensures state { IsTrue (is_gcm_state result) }
        ensures begun { HasTaken key.now iv.now aad.now (is_enc dir) [] result }
    {
        let text_key = TextKey::new(&Schedule::expand(key));
        let subkey = enciphered(&text_key, &[0; BLOCK_BYTES]);
        GcmState {
            key: padded_key(key),
            key_bytes: key.len() as u32,
            dir: dir_number(dir),
            pre_counter: pre_counter_block(&text_key, iv),
            aad_bytes: aad.len() as u64,
            hash: PartHash::new(&subkey, aad),
        }
    }

    /// Whether a text can go on from it: its key has 16, 24 or 32 bytes, and its direction is one. C's calls refuse any other.
    pub fn is_state(&self) -> bool
        ensures { result ≡ is_gcm_state self.now }
    {
        is_key_size(self.key_bytes as usize) && self.dir < DIRECTIONS
    }

    // The key that it holds, expanded.
    fn text_key(&self) -> TextKey
        requires { IsTrue (is_gcm_state self.now) }
        ensures schedule { result ≡ key_schedule (key_of self.now) }
        ensures length { 16 ≤ length result }
    {
        TextKey::new(&Schedule::expand(&self.key[..self.key_bytes as usize]))
    }

    /// Seals or opens the next part of the text, of any length, in place. It takes no memory.
    ///
    /// However a text is cut into parts, they become what the whole text becomes. Each call expands the key anew, and a part that
    /// goes on within a block enciphers that block once more: parts of whole blocks, and long ones, take the least time.
    pub fn update(&mut self, part: &mut [u8])
        requires { IsTrue (is_gcm_state self.old) }
        ensures state { IsTrue (is_gcm_state self.new) }
        ensures taken { (key iv aad text : List ℕ) (sealing : Bool) → HasTaken key iv aad sealing text self.old
            → HasTaken key iv aad sealing (text ++ part.old) self.new }
        ensures part { (key iv aad text : List ℕ) (sealing : Bool) → HasTaken key iv aad sealing text self.old
            → part.new ≡ drop (length text) (gcm_text (aes key) iv (text ++ part.old)) }
    {
        let key = self.text_key();
        let (dir, at) = (self.dir, self.hash.bytes);
        if dir == OPENS {
            self.hash.take(part);
            xor_part(&key, &self.pre_counter, at, part);
            return;
        }
        xor_part(&key, &self.pre_counter, at, part);
        self.hash.take(part);
    }

    /// The 16 bytes of tag over the additional data and the ciphertext, of which a shorter tag is the leftmost ones. Nothing is
    /// compared: a caller that opens a text compares its tag with the leftmost bytes of this one. It takes no memory.
    ///
    /// The state becomes all zero bytes, which are no state.
    pub fn finish(&mut self) -> [u8; 16]
        requires { IsTrue (is_gcm_state self.old) }
        ensures cleared { self.new ≡ blank_state }
        ensures tag { (key iv aad text : List ℕ) (sealing : Bool) → HasTaken key iv aad sealing text self.old
            → result ≡ (gcm (aes key) iv aad text sealing).1 }
    {
        let mut tag = enciphered(&self.text_key(), &self.pre_counter);
        xor_in_place(&mut tag, &self.hash.value(self.aad_bytes));
        *self = GcmState::blank();
        tag
    }

    /// All zero bytes, which are no state.
    pub fn blank() -> GcmState
        ensures { result ≡ blank_state }
    {
        GcmState {
            key: [0; MAX_KEY_BYTES],
            key_bytes: 0,
            dir: 0,
            pre_counter: [0; BLOCK_BYTES],
            aad_bytes: 0,
            hash: PartHash::blank(),
        }
    }
}
