//! Round keys as the rounds take them: in the basis of the rounds, each in the layout of the state that it is added to, and from the
//! second one on with the constant of SBOX added, which the rounds leave out.
ghost use Rattle.std.specs.Prelude.{◌≡◌, ℕ, ◌+◌, ◌-◌, ◌/◌, ◌<◌, ◌≤◌, length, slice_index};
ghost use Rattle.mbj_types.specs.Aes.{round_key, mix_columns};
ghost use Rattle.mbj_aes.specs.BlockWords.{block_byte, block_at};
ghost use Rattle.mbj_aes.specs.declared.sizes.TheConstants.{MAX_ROUND_KEYS};
ghost use Rattle.mbj_aes_lanes.specs.Inside.Layouts.{tower_state, tower_key, last_key, inverse_key};
ghost use Rattle.mbj_aes_lanes.specs.Inside.LaidKeys.{laid_schedule};

use crate::narrow::directions::Direction;
use crate::narrow::layouts::{LAYOUTS, PLACES};
use crate::narrow::mixing::inv_mixed;
use crate::wide::key_states::to_tower_byte;
use mbj_aes::inverse_substitution::{in_decryption, inverse_multiples};
use mbj_aes::substitution::substituted;
use mbj_aes::tables::SBOX_CONSTANT;
use mbj_aes::{BlockWord, MAX_ROUND_KEYS, Schedule};
use mbj_types::BLOCK_BYTES;
use std::simd::u8x16;

/// The first round key, in the tower's basis.
#[inline(always)]
pub fn first_key<V: BlockWord>(key: V) -> V
    ensures { (b : ℕ) → b < V.BLOCKS → tower_state 0 (block_byte V.lane result b) ≡ block_at V.lane key b }
{
    to_tower_byte(key)
}

/// The key of a round `r` between the first and the last.
#[tactic(auto, using(crate::proofs::LayoutPlaces::tabled_lt))]
#[inline(always)]
pub fn key_between<V: BlockWord>(key: V, r: usize) -> V
    ensures { (b : ℕ) → b < V.BLOCKS → tower_key r (block_byte V.lane result b) ≡ block_at V.lane key b }
{
    let with_constant = key.xored(V::splat(SBOX_CONSTANT));
    to_tower_byte(with_constant).placed(&PLACES[(LAYOUTS - r % LAYOUTS) % LAYOUTS])
}

/// The last round key, of plain bytes.
#[inline(always)]
pub fn last_key<V: BlockWord>(key: V) -> V
    ensures { (b : ℕ) → b < V.BLOCKS → last_key (block_byte V.lane result b) ≡ block_at V.lane key b }
{
    key.xored(V::splat(SBOX_CONSTANT))
}

/// The key of a round `r` between the first and the last in decryption: a round makes INVMIXCOLUMNS of what SBOX gives for it.
#[tactic(auto, using(crate::proofs::LayoutPlaces::tabled_lt))]
#[inline(always)]
pub fn inverse_key_between<V: BlockWord>(key: V, r: usize) -> V
    ensures { (b : ℕ) → b < V.BLOCKS → mix_columns (inverse_key r (block_byte V.lane result b)) ≡ block_at V.lane key b }
{
    let constant = V::splat(SBOX_CONSTANT);
    let boxed = in_decryption(substituted(key).xored(constant));
    inv_mixed(inverse_multiples(boxed), in_decryption(constant), 0).placed(
        &PLACES[(LAYOUTS - r % LAYOUTS) % LAYOUTS],
    )
}

/// The last round key in decryption.
#[inline(always)]
pub fn inverse_last_key<V: BlockWord>(key: V) -> V
    ensures { (b : ℕ) → b < V.BLOCKS → inverse_key 0 (block_byte V.lane result b) ≡ block_at V.lane key b }
{
    in_decryption(key.xored(V::splat(SBOX_CONSTANT)))
}

// A block in a register, and back.
#[inline(always)]
fn register_of(block: &[u8; 16]) -> u8x16
    ensures { block_at ⟦<u8x16 as BlockWord>⟧.lane result 0 ≡ block.now }
{
    u8x16::load(&[*block])
}

#[inline(always)]
fn block_of(register: u8x16) -> [u8; 16]
    ensures { result ≡ block_at ⟦<u8x16 as BlockWord>⟧.lane register 0 }
{
    let mut blocks = [[0; BLOCK_BYTES]];
    register.store(&mut blocks);
    blocks[0]
}

// A round key, laid out.
fn laid_key<D: Direction>(key: &[u8; 16], r: usize, rounds: usize) -> [u8; 16]
    requires { r ≤ rounds }
    ensures { D.laid rounds r (slice_index result) ≡ key.now }
{
    block_of(D::laid_key(register_of(key), r, rounds))
}

/// The round keys of a schedule as the rounds of a direction take them.
pub fn laid_keys<D: Direction>(key: &Schedule) -> [[u8; 16]; MAX_ROUND_KEYS]
    ensures length { length result ≡ MAX_ROUND_KEYS }
    ensures schedule { laid_schedule D.laid (length key.now / 16 - 1) result ≡ key.now }
{
    let rounds = key.rounds();
    let mut keys = [[0; BLOCK_BYTES]; MAX_ROUND_KEYS];
    'keys: for r in 0..rounds + 1 {
        keys[r as usize] = laid_key::<D>(&key.round_key(r), r as usize, rounds as usize);
    }
    keys
}
