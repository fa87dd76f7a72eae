//! The value of a hash after blocks (SP 800-38D, 6.4, step 3). One block after another is added and multiplied by the subkey, which is
//! Horner's rule. If there are many, four blocks are multiplied by four powers of the subkey, and the sum of the products is reduced
//! once.
ghost use Rattle.std.specs.Prelude.{◌≡◌, ℕ, List, [], ◌∷◌};
ghost use Rattle.std.specs.List.{flat_map};
ghost use Rattle.mbj_types.specs.Blocks.{xor_lists};
ghost use Rattle.mbj_types.specs.Ghash.{block_product, ghash_from};
ghost use Rattle.mbj_ghash.specs.Inside.{AreRowsOf, ArePowers};

use crate::product_sum::Sum;
use crate::rows::Rows;
use std::simd::u8x16;

// The fewest blocks that are taken by fours, since the tables of the powers take time. From about this number on fours are faster, with
// vectors of 128 bits as with those of 256.
const MANY_BLOCKS: usize = 16;

// The sum of two blocks.
#[inline(always)]
fn xored(a: &[u8; 16], b: &[u8; 16]) -> [u8; 16]
    ensures { result ≡ xor_lists a.now b.now }
{
    (u8x16::from_array(*a) ^ u8x16::from_array(*b)).to_array()
}

// The product of a block and the subkey of the tables.
#[inline(always)]
fn product(block: &[u8; 16], rows: &Rows) -> [u8; 16]
    ensures { (h : List ℕ) → AreRowsOf h rows.now → result ≡ block_product block.now h }
{
    let mut sum = Sum::new();
    sum.add(block, rows);
    sum.reduced()
}

/// The value after one block more.
#[inline(always)]
pub fn after_block(value: &[u8; 16], rows: &Rows, block: &[u8; 16]) -> [u8; 16]
    ensures { (h : List ℕ) → AreRowsOf h rows.now → result ≡ block_product (xor_lists value.now block.now) h }
{
    product(&xored(value, block), rows)
}

/// The tables of the second, third and fourth power of a subkey.
#[derive(Drop)]
pub struct Powers {
    pub second: Rows,
    pub third: Rows,
    pub fourth: Rows,
}

impl Powers {
    // The powers of a subkey, of which the tables are given.
    #[inline(always)]
    fn new(subkey: &[u8; 16], rows: &Rows) -> Powers
        ensures { AreRowsOf subkey.now rows.now → ArePowers subkey.now result }
    {
        let second = product(subkey, rows);
        let third = product(&second, rows);
        let fourth = product(&third, rows);
        Powers {
            second: Rows::new(&second),
            third: Rows::new(&third),
            fourth: Rows::new(&fourth),
        }
    }
}

// The value after four blocks more. The block that the value is added to comes last, since the others need not wait for the value.
#[inline(always)]
fn after_four(
    value: &[u8; 16],
    rows: &Rows,
    powers: &Powers,
    a: &[u8; 16],
    b: &[u8; 16],
    c: &[u8; 16],
    d: &[u8; 16],
) -> [u8; 16]
    ensures { (h : List ℕ) → AreRowsOf h rows.now → ArePowers h powers.now
        → result ≡ ghash_from h value.now (a.now ∷ b.now ∷ c.now ∷ d.now ∷ []) }
{
    let mut sum = Sum::new();
    sum.add(d, rows);
    sum.add(c, &powers.second);
    sum.add(b, &powers.third);
    sum.add(&xored(value, a), &powers.fourth);
    sum.reduced()
}

// The value after fours of blocks more.
#[inline(never)]
fn after_fours(
    value: &[u8; 16],
    subkey: &[u8; 16],
    rows: &Rows,
    fours: &[[[u8; 16]; 4]],
) -> [u8; 16]
    ensures { AreRowsOf subkey.now rows.now
        → result ≡ ghash_from subkey.now value.now (flat_map (λ four. four) fours.now) }
{
    let powers = Powers::new(subkey, rows);
    let mut sum = *value;
    for four in fours {
        sum = after_four(&sum, rows, &powers, &four[0], &four[1], &four[2], &four[3]);
    }
    sum
}

// The value after blocks more, one by one.
#[inline(never)]
fn after_each(value: &[u8; 16], rows: &Rows, blocks: &[[u8; 16]]) -> [u8; 16]
    ensures { (h : List ℕ) → AreRowsOf h rows.now → result ≡ ghash_from h value.now blocks.now }
{
    let mut sum = *value;
    for block in blocks {
        sum = after_block(&sum, rows, block);
    }
    sum
}

/// The value after blocks more.
pub fn after_blocks(
    value: &[u8; 16],
    subkey: &[u8; 16],
    rows: &Rows,
    blocks: &[[u8; 16]],
) -> [u8; 16]
    ensures { AreRowsOf subkey.now rows.now → result ≡ ghash_from subkey.now value.now blocks.now }
{
    if blocks.len() < MANY_BLOCKS {
        return after_each(value, rows, blocks);
    }
    let (fours, rest) = blocks.as_chunks::<4>();
    after_each(&after_fours(value, subkey, rows, fours), rows, rest)
}
