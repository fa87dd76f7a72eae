//! The blocks that CCM makes of its input (SP 800-38C, appendix A): counter blocks, and the blocks that the MAC is
//! over. The nonce and the additional data are no secrets.
ghost use Rattle.std.specs.Prelude.{◌≡◌, ℕ, ◌+◌, ◌-◌, ◌*◌, ◌<◌, ◌≤◌, [], ◌∷◌, ◌++◌, length, take, drop, slice_index_or};
ghost use Rattle.std.specs.Int.{bytes_high_first};
ghost use Rattle.mbj_types.specs.Blocks.{filled_block, filled_blocks};
ghost use Rattle.mbj_types.specs.Ccm.{length_bytes, data_flag, first_block, encoded_data, counter_block};
ghost use Rattle.mbj_types.specs.Rounds.{data_rounds};

use mbj_blocks::{block_from, filled_block};
use mbj_types::{BLOCK_BYTES, MAX_CCM_AAD_BYTES};

// The bit of the flags that says that there is additional data (A.2.1).
const DATA_FLAG: u8 = 0x40;

// What the field of the flags for the tag's length is worth: its lowest bit is bit 3 (A.2.1).
const TAG_FIELD: u8 = 8;

// The bytes in which the length of additional data is written, which is below 65,280 (A.2.2).
const DATA_LENGTH_BYTES: usize = 2;

// In how many bytes the text's length and the counters are written: what a block has left beside the flags and the
// nonce (A.1).
fn length_bytes(nonce: &[u8]) -> usize
    requires { length nonce.now ≤ 13 }
    ensures { result ≡ length_bytes nonce.now }
{
    BLOCK_BYTES - 1 - nonce.len()
}

// Flags, the nonce, and a number in the bytes that are left, the highest first (A.2.1, A.3).
fn numbered_block(flags: u8, nonce: &[u8], number: usize) -> [u8; 16]
    requires { length nonce.now ≤ 13 }
    ensures { result ≡ flags ∷ nonce.now ++ bytes_high_first (length_bytes nonce.now) number }
{
    let mut block = (number as u128).to_be_bytes();
    block[0] = flags;
    block[1..1 + nonce.len()].copy_from_slice(nonce);
    block
}

/// Counter block `i` (SP 800-38C, A.3). The nonce has 7 to 13 bytes.
#[tactic(auto, unfolding(mbj_types::specs::Ccm::counter_block))]
pub fn counter_block(nonce: &[u8], i: usize) -> [u8; 16]
    requires { length nonce.now ≤ 13 }
    ensures { result ≡ counter_block nonce.now i }
{
    let flags = length_bytes(nonce) - 1;
    numbered_block(flags as u8, nonce, i)
}

// The bit of the flags for the additional data.
fn data_flag(aad: &[u8]) -> u8
    ensures value { result ≡ data_flag aad.now }
    ensures most { result ≤ 64 }
{
    if aad.is_empty() { 0 } else { DATA_FLAG }
}

/// The first block that the MAC is over (SP 800-38C, A.2.1): the flags, the nonce, and the length of the text. The
/// nonce has 7 to 13 bytes, and the tag 4 to 16.
pub fn first_block(nonce: &[u8], aad: &[u8], text_len: usize, tag_len: u8) -> [u8; 16]
    requires nonce { length nonce.now ≤ 13 }
    requires tag_least { 4 ≤ tag_len }
    requires tag_most { tag_len ≤ 16 }
    ensures { result ≡ first_block nonce.now aad.now text_len tag_len }
{
    let flags = data_flag(aad) + TAG_FIELD * ((tag_len - 2) / 2) + (length_bytes(nonce) - 1) as u8;
    numbered_block(flags, nonce, text_len)
}

/// How many blocks additional data of `len` bytes takes: none, or those of its length and of the data.
#[inline(always)]
pub fn data_rounds(len: usize) -> usize
    requires { len ≤ MAX_CCM_AAD_BYTES }
    ensures { result ≡ data_rounds len }
{
    if len == 0 {
        0
    } else {
        (len + DATA_LENGTH_BYTES).div_ceil(BLOCK_BYTES)
    }
}

/// The 16 bytes of a text from `start` on, and zero bytes for those behind its end.
#[inline(always)]
pub fn filled_from(text: &[u8], start: usize) -> [u8; 16]
    requires { start ≤ length text.now }
    ensures { result ≡ filled_block (take 16 (drop start text.now)) }
{
    if text.len() - start >= BLOCK_BYTES {
        block_from(text, start)
    } else {
        filled_block(&text[start..])
    }
}

// The first block of additional data: its length, and its first bytes.
fn first_data_block(aad: &[u8]) -> [u8; 16]
    requires { length aad.now ≤ MAX_CCM_AAD_BYTES }
    ensures { result ≡ filled_block (bytes_high_first 2 (length aad.now) ++ take 14 aad.now) }
{
    let here = aad.len().min(BLOCK_BYTES - DATA_LENGTH_BYTES);
    let mut block = [0; BLOCK_BYTES];
    block[..DATA_LENGTH_BYTES].copy_from_slice(&(aad.len() as u16).to_be_bytes());
    block[DATA_LENGTH_BYTES..DATA_LENGTH_BYTES + here].copy_from_slice(&aad[..here]);
    block
}

/// Block `i` of additional data, which isn't empty, with its length in 2 bytes before it and zero bytes behind it (SP
/// 800-38C, A.2.2).
pub fn data_block(aad: &[u8], i: usize) -> [u8; 16]
    requires fits { length aad.now ≤ MAX_CCM_AAD_BYTES }
    requires inside { i < data_rounds (length aad.now) }
    ensures { result ≡ slice_index_or (filled_blocks (encoded_data aad.now)) i [] }
{
    if i == 0 {
        first_data_block(aad)
    } else {
        filled_from(aad, BLOCK_BYTES * i - DATA_LENGTH_BYTES)
    }
}
