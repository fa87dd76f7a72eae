//! INVMIXCOLUMNS (FIPS 197, 5.3.3) in all lanes, of plain bytes: its matrix is that of MIXCOLUMNS times the circulant one with the first row
//! 05 00 04 00.
ghost use Rattle.std.specs.Prelude.{◌≡◌, ℕ, ◌<◌, bit_xor};
ghost use Rattle.mbj_types.specs.Aes.{xtime, times, mixed_byte, mixed_column, inv_mixed_column, inv_mix_columns};
ghost use Rattle.mbj_aes_lanes.specs.Inside.Wide.{word_lane, state_lane};

use crate::wide::state::{State, Word};
use mbj_types::Lane8;

// The highest bit of a byte.
const HIGHEST_BIT: u32 = 7;

// What that bit stands for once it is moved out of the byte: x^8 in the field (4.2).
const REDUCTIONS: [u8; 16] = [
    0x00, 0x1b, 0x00, 0x00, 0x00, 0x00, 0x00, 0x00, 0x00, 0x00, 0x00, 0x00, 0x00, 0x00, 0x00, 0x00,
];

// XTIMES (4.2): twice each byte.
#[inline(always)]
fn xtime<V: Lane8>(x: V) -> V
    ensures { (i : ℕ) → i < V.LANES → V.lane result i ≡ xtime (V.lane x i) }
{
    let reduction = x.shr(HIGHEST_BIT).looked_up(&REDUCTIONS);
    x.shl(1).xored(reduction)
}

// 5 times the one byte and 4 times the other.
#[inline(always)]
fn five_and_four<V: Lane8>(a: V, b: V) -> V
    ensures { (i : ℕ) → i < V.LANES → V.lane result i ≡ bit_xor (times 5 (V.lane a i)) (times 4 (V.lane b i)) }
{
    a.xored(xtime(xtime(a.xored(b))))
}

// The first byte of a column that is mixed.
#[inline(always)]
fn mixed_byte<V: Lane8>(a: V, b: V, c: V, d: V) -> V
    ensures { (i : ℕ) → i < V.LANES → V.lane result i ≡ mixed_byte (V.lane a i) (V.lane b i) (V.lane c i) (V.lane d i) }
{
    xtime(a.xored(b)).xored(b).xored(c.xored(d))
}

// MIXCOLUMNS of a column.
#[inline(always)]
fn mixed_column<V: Lane8>(w: Word<V>) -> Word<V>
    ensures { (i : ℕ) → i < V.LANES → word_lane V.lane result i ≡ mixed_column (word_lane V.lane w i) 0 }
{
    Word(
        mixed_byte(w.0, w.1, w.2, w.3),
        mixed_byte(w.1, w.2, w.3, w.0),
        mixed_byte(w.2, w.3, w.0, w.1),
        mixed_byte(w.3, w.0, w.1, w.2),
    )
}

// INVMIXCOLUMNS of a column.
#[inline(always)]
fn unmixed<V: Lane8>(w: Word<V>) -> Word<V>
    ensures { (i : ℕ) → i < V.LANES → word_lane V.lane result i ≡ inv_mixed_column (word_lane V.lane w i) 0 }
{
    mixed_column(Word(
        five_and_four(w.0, w.2),
        five_and_four(w.1, w.3),
        five_and_four(w.2, w.0),
        five_and_four(w.3, w.1),
    ))
}

/// INVMIXCOLUMNS.
#[inline(always)]
#[tactic(auto, unfolding(crate::specs::Inside::Wide::state_lane))]
pub fn unmixed_columns<V: Lane8>(s: State<V>) -> State<V>
    ensures { (i : ℕ) → i < V.LANES → state_lane V.lane result i ≡ inv_mix_columns (state_lane V.lane s i) }
{
    State(unmixed(s.0), unmixed(s.1), unmixed(s.2), unmixed(s.3))
}
