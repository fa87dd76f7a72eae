ghost use Rattle.std.specs.Prelude.{◌≡◌, ℕ, ◌≤◌, List, [], ◌∷◌, ◌++◌, length};
ghost use Rattle.mbj_types.specs.Blocks.{xor_lists, filled_blocks};
ghost use Rattle.mbj_types.specs.Ghash.{block_product, ghash, ghash_from};
ghost use Rattle.mbj_ghash.specs.State.{HashState, state_after};

use crate::horner::{after_block, after_blocks};
use crate::rows::Rows;
use mbj_blocks::filled_block;
use mbj_types::BLOCK_BYTES;
use std::marker::Model;

/// A hash that takes one block after another. Contracts see it as a `HashState`: the hash subkey and the value so
/// far, as lists of 16 bytes. It owns no memory.
///
/// ```
/// let mut hash = Ghash::new(SUBKEY.to_be_bytes());
/// expect_value(&rt, "fresh", &hash, 0);
/// hash.update_block(&0x0388dace60b6a392f328c2b971b2fe78u128.to_be_bytes());
/// expect_value(&rt, "ciphertext", &hash, 0x5e2ec746917062882c85b0685353deb7);
/// hash.update_block(&0x80u128.to_be_bytes());
/// expect_value(&rt, "lengths", &hash, 0xf38cbb1ad69223dcc3457ae5b6b0f885);
/// ```
#[derive(Drop)]
pub struct Ghash {
    subkey: [u8; 16],
    rows: Rows,
    value: [u8; 16],
}

impl Model for Ghash {
    ghost use Rattle.mbj_ghash.specs.State.{HashState};
    ghost use Rattle.mbj_ghash.specs.Inside.{AreRowsOf};

    ghost Value = { HashState };

    ghost view = { λ g. record { subkey = g.subkey; value = g.value } };

    ghost invariant = { λ g. AreRowsOf g.subkey g.rows };
}

impl Ghash {
    /// The hash under the hash subkey `h` that has taken no block: its value is the zero block (SP 800-38D, 6.4,
    /// step 2).
    pub fn new(h: [u8; 16]) -> Ghash
        ensures { result ≡ state_after h [] }
    {
        Ghash {
            subkey: h,
            rows: Rows::new(&h),
            value: [0; BLOCK_BYTES],
        }
    }

    /// Takes one block: the next value is the product of the value so far, xored with the block, and the hash
    /// subkey (SP 800-38D, 6.4, step 3).
    pub fn update_block(&mut self, block: &[u8; 16])
        ensures next { self.new ≡ record self.old {
          value = block_product (xor_lists self.old.value block.now) self.old.subkey;
        } }
        ensures so_far { (h : List ℕ) (xs : List (List ℕ)) → self.old ≡ state_after h xs
            → self.new ≡ state_after h (xs ++ block.now ∷ []) }
    {
        self.value = after_block(&self.value, &self.rows, block);
    }

    /// Takes blocks, the first one first, as `update_block` takes each (SP 800-38D, 6.4, step 3). Of many blocks four
    /// are multiplied at once.
    pub fn update_blocks(&mut self, blocks: &[[u8; 16]])
        ensures next { self.new ≡ record self.old {
          value = ghash_from self.old.subkey self.old.value blocks.now;
        } }
        ensures so_far { (h : List ℕ) (xs : List (List ℕ)) → self.old ≡ state_after h xs
            → self.new ≡ state_after h (xs ++ blocks.now) }
    {
        self.value = after_blocks(&self.value, &self.subkey, &self.rows, blocks);
    }

    /// Takes the blocks of a part, the last one filled with zero bytes to 16, as GCM hashes its parts (SP 800-38D, 7.1,
    /// steps 4 and 5). A part of no bytes has no block.
    pub fn update_padded(&mut self, bytes: &[u8])
        ensures next { self.new ≡ record self.old {
          value = ghash_from self.old.subkey self.old.value (filled_blocks bytes.now);
        } }
        ensures so_far { (h : List ℕ) (xs : List (List ℕ)) → self.old ≡ state_after h xs
            → self.new ≡ state_after h (xs ++ filled_blocks bytes.now) }
    {
        let (blocks, rest) = bytes.as_chunks::<BLOCK_BYTES>();
        self.update_blocks(blocks);
        if !rest.is_empty() {
            self.update_block(&filled_block(rest));
        }
    }

    /// The value so far, a block: GHASH of the blocks that were taken.
    pub fn value(&self) -> [u8; 16]
        ensures value { result ≡ self.now.value }
        ensures so_far { (h : List ℕ) (xs : List (List ℕ)) → self.now ≡ state_after h xs
            → result ≡ ghash h xs }
    {
        self.value
    }
}
