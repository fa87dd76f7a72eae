//! SBOX (FIPS 197, 5.1.1) of the byte in each lane, by lookups in registers.
ghost use Rattle.std.specs.Prelude.{◌≡◌, ℕ, ◌<◌};
ghost use Rattle.mbj_types.specs.Aes.{times, sub_byte, sub_bytes};
ghost use Rattle.mbj_types.specs.Lanes.{lane_at, lane_list};
ghost use Rattle.mbj_aes.specs.Tower.{from_tower, bare_sub_byte};

use crate::lookups::{by_halves, by_quotients, quotients_of};
use crate::tables::{
    SBOX_CONSTANT, SUB_FIRST, SUB_PLAIN_FIRST, SUB_PLAIN_SECOND, SUB_SECOND, SUB_TWICE_FIRST,
    SUB_TWICE_SECOND, TO_TOWER_HIGH, TO_TOWER_LOW,
};
use mbj_types::Lane8;
use std::simd::u8x16;

/// What SBOX gives without its constant, and twice as much in the field.
#[derive(Clone, Copy)]
pub struct WithDouble<V> {
    pub once: V,
    pub twice: V,
}

/// SBOX without its constant of each byte, and twice as much, from the tower's basis to the tower's basis.
#[inline(always)]
pub fn substituted_in_tower<V: Lane8>(x: V) -> WithDouble<V>
    ensures once { (i : ℕ) → i < V.LANES → from_tower (V.lane result.once i) ≡ bare_sub_byte (from_tower (V.lane x i)) }
    ensures twice { (i : ℕ) → i < V.LANES
        → from_tower (V.lane result.twice i) ≡ times 2 (bare_sub_byte (from_tower (V.lane x i))) }
{
    let quotients = quotients_of(x);
    WithDouble {
        once: by_quotients(&SUB_FIRST, &SUB_SECOND, quotients),
        twice: by_quotients(&SUB_TWICE_FIRST, &SUB_TWICE_SECOND, quotients),
    }
}

/// SBOX without its constant of each byte, from the tower's basis to plain bytes.
#[inline(always)]
pub fn substituted_from_tower<V: Lane8>(x: V) -> V
    ensures { (i : ℕ) → i < V.LANES → V.lane result i ≡ bare_sub_byte (from_tower (V.lane x i)) }
{
    by_quotients(&SUB_PLAIN_FIRST, &SUB_PLAIN_SECOND, quotients_of(x))
}

/// SBOX of each byte.
#[inline(always)]
pub fn substituted<V: Lane8>(x: V) -> V
    ensures { (i : ℕ) → i < V.LANES → V.lane result i ≡ sub_byte (V.lane x i) }
{
    let bare = substituted_from_tower(by_halves(&TO_TOWER_LOW, &TO_TOWER_HIGH, x));
    bare.xored(V::splat(SBOX_CONSTANT))
}

// The lanes of a vector.
#[inline(always)]
fn bytes_of(x: u8x16) -> [u8; 16]
    ensures { result ≡ lane_list (lane_at 8) 16 x }
{
    x.to_array()
}

/// SUBWORD (FIPS 197, 5.2).
pub fn sub_word(word: &[u8; 4]) -> [u8; 4]
    ensures { result ≡ sub_bytes word.now }
{
    let [a, b, c, d] = *word;
    let lanes = u8x16::from_array([a, b, c, d, 0, 0, 0, 0, 0, 0, 0, 0, 0, 0, 0, 0]);
    let bytes = bytes_of(substituted(lanes));
    [bytes[0], bytes[1], bytes[2], bytes[3]]
}
