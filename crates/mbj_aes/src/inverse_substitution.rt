//! INVSBOX (FIPS 197, 5.3.2) of the byte in each lane, by lookups in registers.
ghost use Rattle.std.specs.Prelude.{◌≡◌, ℕ, ◌<◌};
ghost use Rattle.mbj_types.specs.Aes.{times, inv_sub_byte};
ghost use Rattle.mbj_aes.specs.Tower.{from_decryption, inv_sub_of};

use crate::lookups::{by_halves, by_quotients, quotients_of};
use crate::tables::{
    INV_SUB_ELEVEN_FIRST, INV_SUB_ELEVEN_SECOND, INV_SUB_FOURTEEN_FIRST, INV_SUB_FOURTEEN_SECOND,
    INV_SUB_NINE_FIRST, INV_SUB_NINE_SECOND, INV_SUB_PLAIN_FIRST, INV_SUB_PLAIN_SECOND,
    INV_SUB_THIRTEEN_FIRST, INV_SUB_THIRTEEN_SECOND, SBOX_CONSTANT, TO_DECRYPTION_HIGH,
    TO_DECRYPTION_LOW,
};
use mbj_types::Lane8;

/// What INVSBOX gives, times each entry of the matrix of INVMIXCOLUMNS (FIPS 197, 5.3.3).
#[derive(Clone, Copy)]
pub struct InverseMultiples<V> {
    pub nine: V,
    pub eleven: V,
    pub thirteen: V,
    pub fourteen: V,
}

/// A byte in the basis of decryption.
#[inline(always)]
pub fn in_decryption<V: Lane8>(x: V) -> V
    ensures { (i : ℕ) → i < V.LANES → from_decryption (V.lane result i) ≡ V.lane x i }
{
    by_halves(&TO_DECRYPTION_LOW, &TO_DECRYPTION_HIGH, x)
}

/// INVSBOX of each byte with the constant of SBOX added, times 9, 11, 13 and 14, from the basis of decryption to the basis of
/// decryption.
#[inline(always)]
pub fn inverse_multiples<V: Lane8>(x: V) -> InverseMultiples<V>
    ensures nine { (i : ℕ) → i < V.LANES → from_decryption (V.lane result.nine i) ≡ times 9 (inv_sub_of (V.lane x i)) }
    ensures eleven { (i : ℕ) → i < V.LANES → from_decryption (V.lane result.eleven i) ≡ times 11 (inv_sub_of (V.lane x i)) }
    ensures thirteen { (i : ℕ) → i < V.LANES → from_decryption (V.lane result.thirteen i) ≡ times 13 (inv_sub_of (V.lane x i)) }
    ensures fourteen { (i : ℕ) → i < V.LANES → from_decryption (V.lane result.fourteen i) ≡ times 14 (inv_sub_of (V.lane x i)) }
{
    let quotients = quotients_of(x);
    InverseMultiples {
        nine: by_quotients(&INV_SUB_NINE_FIRST, &INV_SUB_NINE_SECOND, quotients),
        eleven: by_quotients(&INV_SUB_ELEVEN_FIRST, &INV_SUB_ELEVEN_SECOND, quotients),
        thirteen: by_quotients(&INV_SUB_THIRTEEN_FIRST, &INV_SUB_THIRTEEN_SECOND, quotients),
        fourteen: by_quotients(&INV_SUB_FOURTEEN_FIRST, &INV_SUB_FOURTEEN_SECOND, quotients),
    }
}

/// INVSBOX of each byte with the constant of SBOX added, from the basis of decryption to plain bytes.
#[inline(always)]
pub fn inverse_from_decryption<V: Lane8>(x: V) -> V
    ensures { (i : ℕ) → i < V.LANES → V.lane result i ≡ inv_sub_of (V.lane x i) }
{
    by_quotients(&INV_SUB_PLAIN_FIRST, &INV_SUB_PLAIN_SECOND, quotients_of(x))
}

/// INVSBOX of each byte.
#[inline(always)]
pub fn inverse_substituted<V: Lane8>(x: V) -> V
    ensures { (i : ℕ) → i < V.LANES → V.lane result i ≡ inv_sub_byte (V.lane x i) }
{
    inverse_from_decryption(in_decryption(x.xored(V::splat(SBOX_CONSTANT))))
}
