//! MIXCOLUMNS and INVMIXCOLUMNS (FIPS 197, 5.1.3 and 5.3.3), and ADDROUNDKEY, of states in layouts.
ghost use Rattle.std.specs.Prelude.{◌≡◌, ℕ, ◌<◌};
ghost use Rattle.mbj_aes.specs.BlockWords.{block_byte};
ghost use Rattle.mbj_aes_lanes.specs.Inside.Layouts.{place, mixed_at, inv_mixed_at};

use crate::narrow::layouts::{LAYOUTS, NEXT_ROW, ROW_AFTER_NEXT};
use mbj_aes::BlockWord;
use mbj_aes::inverse_substitution::InverseMultiples;
use mbj_aes::substitution::WithDouble;

/// Mixes the columns of bytes, given twice as much of each, and adds a key, all in layout `r`: `2 a + 3 b + c + d` of a column is
/// `(2 a + c) + (2 b + d) + b`.
#[tactic(auto, using(crate::proofs::LayoutPlaces::tabled_lt))]
#[inline(always)]
pub fn mixed<V: BlockWord>(of: WithDouble<V>, key: V, r: usize) -> V
    ensures { (b j : ℕ) → b < V.BLOCKS → j < 16 → block_byte V.lane result b (place r j)
        ≡ mixed_at (λ i. block_byte V.lane of.once b (place r i)) (λ i. block_byte V.lane of.twice b (place r i))
        (λ i. block_byte V.lane key b (place r i)) j }
{
    let two = of.twice.xored(of.once.placed(&ROW_AFTER_NEXT[r % LAYOUTS]));
    two.xored(key)
        .xored(two.xored(of.once).placed(&NEXT_ROW[r % LAYOUTS]))
}

/// Undoes MIXCOLUMNS, given multiples of each byte, and adds a key, all in layout `r`.
#[tactic(auto, using(crate::proofs::LayoutPlaces::tabled_lt))]
#[inline(always)]
pub fn inv_mixed<V: BlockWord>(of: InverseMultiples<V>, key: V, r: usize) -> V
    ensures { (b j : ℕ) → b < V.BLOCKS → j < 16 → block_byte V.lane result b (place r j)
        ≡ inv_mixed_at (λ i. block_byte V.lane of.nine b (place r i)) (λ i. block_byte V.lane of.eleven b (place r i))
        (λ i. block_byte V.lane of.thirteen b (place r i)) (λ i. block_byte V.lane of.fourteen b (place r i))
        (λ i. block_byte V.lane key b (place r i)) j }
{
    let next = &NEXT_ROW[r % LAYOUTS];
    let two = of.nine.placed(next).xored(of.thirteen);
    let three = two.placed(next).xored(of.eleven);
    three.placed(next).xored(of.fourteen).xored(key)
}
