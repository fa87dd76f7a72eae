//! GHASH (SP 800-38D, 6.4) over additional data and a ciphertext that comes in parts, or over data alone that does, and the block of
//! their lengths.
ghost use Rattle.std.specs.Prelude.{◌≡◌, ℕ, ◌+◌, ◌-◌, ◌/◌, ◌%◌, ◌^◌, ◌≤◌, List, [], ◌∷◌, ◌++◌, length, take, drop};
ghost use Rattle.mbj_types.specs.Blocks.{xor_lists, filled_blocks, first_blocks, zero_block};
ghost use Rattle.mbj_types.specs.Ghash.{block_product, ghash, ghash_from};
ghost use Rattle.mbj_types.specs.Gcm.{bit_length};
ghost use Rattle.mbj_ghash.specs.State.{HashState};
ghost use Rattle.mbj_direct.specs.Hashed.{IsHashed};

use crate::counter::open_room;
use mbj_blocks::filled_block;
use mbj_gcm::length_block;
use mbj_ghash::Ghash;
use mbj_types::{BLOCK_BYTES, xor_in_place};

// Puts a part of a block into its place.
fn put_at(block: &mut [u8; 16], at: usize, part: &[u8])
    requires { at + length part.now ≤ 16 }
    ensures { block.new ≡ take at block.old ++ part.now ++ drop (at + length part.now) block.old }
{
    block[at..at + part.len()].copy_from_slice(part);
}

// A hash that has the value `value` and takes a block more. One that has taken nothing has the zero block: it takes the sum of
// both.
fn resumed(subkey: &[u8; 16], value: &[u8; 16], block: &[u8; 16]) -> Ghash
    ensures { result ≡ record { subkey = subkey.now; value = block_product (xor_lists value.now block.now) subkey.now } }
{
    let mut sum = *value;
    xor_in_place(&mut sum, block);
    let mut hash = Ghash::new(*subkey);
    hash.update_block(&sum);
    hash
}

// The value after a block more.
fn after_block(subkey: &[u8; 16], value: &[u8; 16], block: &[u8; 16]) -> [u8; 16]
    ensures { result ≡ block_product (xor_lists value.now block.now) subkey.now }
{
    resumed(subkey, value, block).value()
}

// The value after blocks more.
fn after_blocks(subkey: &[u8; 16], value: &[u8; 16], blocks: &[[u8; 16]]) -> [u8; 16]
    ensures { result ≡ ghash_from subkey.now value.now blocks.now }
{
    if blocks.is_empty() {
        return *value;
    }
    let mut hash = resumed(subkey, value, &blocks[0]);
    hash.update_blocks(&blocks[1..]);
    hash.value()
}

/// The hash of a ciphertext of which parts are still to come.
#[repr(C)]
#[derive(Clone, Copy)]
pub struct PartHash {
    /// The hash subkey, H.
    pub(crate) subkey: [u8; 16],
    /// GHASH of the blocks of the additional data and of the whole blocks of the ciphertext.
    value: [u8; 16],
    /// The bytes of the ciphertext behind its whole blocks, and any behind them.
    last: [u8; 16],
    /// The ciphertext's length, modulo 2^64.
    pub(crate) bytes: u64,
}

impl PartHash {
    /// The hash of the additional data, and of no ciphertext.
    pub(crate) fn new(subkey: &[u8; 16], aad: &[u8]) -> PartHash
        ensures subkey { result.subkey ≡ subkey.now }
        ensures hashed { IsHashed (filled_blocks aad.now) [] result }
    {
        let mut hash = Ghash::new(*subkey);
        hash.update_padded(aad);
        PartHash {
            subkey: *subkey,
            value: hash.value(),
            last: [0; BLOCK_BYTES],
            bytes: 0,
        }
    }

    /// All zero bytes.
    pub(crate) fn blank() -> PartHash
        ensures { result ≡ record { subkey = zero_block; value = zero_block; last = zero_block; bytes = 0 } }
    {
        PartHash {
            subkey: [0; BLOCK_BYTES],
            value: [0; BLOCK_BYTES],
            last: [0; BLOCK_BYTES],
            bytes: 0,
        }
    }

    // The value once the last block has `end` bytes, which may be all.
    fn value_at(&self, end: usize) -> [u8; 16]
        requires { end ≤ 16 }
        ensures { result ≡ ghash_from self.now.subkey self.now.value (first_blocks (end / 16) self.now.last) }
    {
        if end < BLOCK_BYTES {
            return self.value;
        }
        after_block(&self.subkey, &self.value, &self.last)
    }

    // Takes ciphertext that the last block has room for.
    fn take_open(&mut self, part: &[u8])
        requires { length part.now ≤ (16 - self.old.bytes % 16) % 16 }
        ensures subkey { self.new.subkey ≡ self.old.subkey }
        ensures bytes { self.new.bytes ≡ (self.old.bytes + length part.now) % 2 ^ 64 }
        ensures hashed { (xs : List (List ℕ)) (c : List ℕ) → IsHashed xs c self.old → IsHashed xs (c ++ part.now) self.new }
    {
        let used = (self.bytes % BLOCK_BYTES as u64) as usize;
        put_at(&mut self.last, used, part);
        self.value = self.value_at(used + part.len());
        self.bytes = self.bytes.wrapping_add(part.len() as u64);
    }

    // Takes ciphertext that begins a block.
    fn take_blocks(&mut self, part: &[u8])
        requires { self.old.bytes % 16 ≡ 0 }
        ensures subkey { self.new.subkey ≡ self.old.subkey }
        ensures bytes { self.new.bytes ≡ (self.old.bytes + length part.now) % 2 ^ 64 }
        ensures hashed { (xs : List (List ℕ)) (c : List ℕ) → IsHashed xs c self.old → IsHashed xs (c ++ part.now) self.new }
    {
        let (blocks, rest) = part.as_chunks::<BLOCK_BYTES>();
        self.value = after_blocks(&self.subkey, &self.value, blocks);
        self.last = filled_block(rest);
        self.bytes = self.bytes.wrapping_add(part.len() as u64);
    }

    /// Takes more of the ciphertext.
    pub(crate) fn take(&mut self, part: &[u8])
        ensures subkey { self.new.subkey ≡ self.old.subkey }
        ensures bytes { self.new.bytes ≡ (self.old.bytes + length part.now) % 2 ^ 64 }
        ensures hashed { (xs : List (List ℕ)) (c : List ℕ) → IsHashed xs c self.old → IsHashed xs (c ++ part.now) self.new }
    {
        let (open, rest) = part.split_at(open_room(self.bytes).min(part.len()));
        self.take_open(open);
        if rest.is_empty() {
            return;
        }
        self.take_blocks(rest);
    }

    // GHASH of all of the ciphertext, its last block filled with zero bytes.
    fn closed(&self) -> [u8; 16]
        ensures { (xs : List (List ℕ)) (c : List ℕ) → IsHashed xs c self.now → result ≡ ghash self.now.subkey (xs ++ filled_blocks c) }
    {
        let used = (self.bytes % BLOCK_BYTES as u64) as usize;
        if used == 0 {
            return self.value;
        }
        after_block(&self.subkey, &self.value, &filled_block(&self.last[..used]))
    }

    /// GHASH of both parts, each filled with zero bytes to whole blocks, and of the block of their bit lengths (SP 800-38D, 7.1, steps
    /// 4 and 5). The additional data has `aad_bytes`, modulo 2^64.
    pub(crate) fn value(&self, aad_bytes: u64) -> [u8; 16]
        ensures { (xs : List (List ℕ)) (c : List ℕ) → IsHashed xs c self.now
            → result ≡ ghash self.now.subkey (xs ++ filled_blocks c ++ (bit_length aad_bytes ++ bit_length (length c)) ∷ []) }
    {
        after_block(
            &self.subkey,
            &self.closed(),
            &length_block(aad_bytes, self.bytes),
        )
    }

    /// The same if all bytes that were taken are additional data, as GMAC has it, and there is no ciphertext.
    pub(crate) fn value_of_data(&self) -> [u8; 16]
        ensures { (aad : List ℕ) → IsHashed [] aad self.now
            → result ≡ ghash self.now.subkey (filled_blocks aad ++ (bit_length (length aad) ++ bit_length 0) ∷ []) }
    {
        let closed = self.closed();
        after_block(&self.subkey, &closed, &length_block(self.bytes, 0))
    }
}
