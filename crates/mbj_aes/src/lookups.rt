//! The byte in each lane by lookups of its halves, in tables that stand in registers: no address and no branch depends on it.
ghost use Rattle.std.specs.Prelude.{◌≡◌, ℕ, ◌/◌, ◌%◌, ◌<◌, bit_xor};
ghost use Rattle.mbj_types.specs.Lanes.{IsTableIndex, table_byte};
ghost use Rattle.mbj_aes.specs.Tower.{by_halves, first_quotient, second_quotient};

use crate::tables::{INVERSES, SCALED_INVERSES};
use mbj_types::Lane8;

// The bits of the low half of a byte, and how many they are.
const LOW_HALF: u8 = 0x0f;

const HALF_BITS: u32 = 4;

/// The low half of each byte.
#[inline(always)]
pub fn low_half<V: Lane8>(x: V) -> V
    ensures { (i : ℕ) → i < V.LANES → V.lane result i ≡ V.lane x i % 16 }
{
    x.anded(V::splat(LOW_HALF))
}

/// The high half of each byte.
#[inline(always)]
pub fn high_half<V: Lane8>(x: V) -> V
    ensures { (i : ℕ) → i < V.LANES → V.lane result i ≡ V.lane x i / 16 }
{
    x.shr(HALF_BITS)
}

/// The sum of what two tables have at the halves of each byte: a linear map of the byte.
#[inline(always)]
pub fn by_halves<V: Lane8>(low: &[u8; 16], high: &[u8; 16], x: V) -> V
    ensures { (i : ℕ) → i < V.LANES → V.lane result i ≡ by_halves low.now high.now (V.lane x i) }
{
    low_half(x)
        .looked_up(low)
        .xored(high_half(x).looked_up(high))
}

/// The two quotients in the subfield of 16 elements of which the inverse of a byte is made.
#[derive(Clone, Copy)]
pub struct Quotients<V> {
    pub first: V,
    pub second: V,
}

/// The quotients of each byte, which is in the tower's basis.
#[inline(always)]
pub fn quotients_of<V: Lane8>(x: V) -> Quotients<V>
    ensures first { (i : ℕ) → i < V.LANES → V.lane result.first i ≡ first_quotient (V.lane x i) }
    ensures second { (i : ℕ) → i < V.LANES → V.lane result.second i ≡ second_quotient (V.lane x i) }
    ensures first_index { (i : ℕ) → i < V.LANES → IsTableIndex (V.lane result.first i) }
    ensures second_index { (i : ℕ) → i < V.LANES → IsTableIndex (V.lane result.second i) }
{
    let low = low_half(x);
    let high = high_half(x);
    let sum = high.xored(low);
    let scaled = low.looked_up(&SCALED_INVERSES);
    let high_denominator = high.looked_up(&INVERSES).xored(scaled);
    let sum_denominator = sum.looked_up(&INVERSES).xored(scaled);
    Quotients {
        first: high_denominator.looked_up(&INVERSES).xored(sum),
        second: sum_denominator.looked_up(&INVERSES).xored(high),
    }
}

/// The sum of what two tables have at the quotients of each byte: a linear map of its inverse.
#[inline(always)]
pub fn by_quotients<V: Lane8>(first: &[u8; 16], second: &[u8; 16], of: Quotients<V>) -> V
    requires first { (i : ℕ) → i < V.LANES → IsTableIndex (V.lane of.first i) }
    requires second { (i : ℕ) → i < V.LANES → IsTableIndex (V.lane of.second i) }
    ensures { (i : ℕ) → i < V.LANES → V.lane result i
        ≡ bit_xor (table_byte first.now (V.lane of.first i)) (table_byte second.now (V.lane of.second i)) }
{
    of.first.looked_up(first).xored(of.second.looked_up(second))
}
