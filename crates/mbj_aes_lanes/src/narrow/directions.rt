//! The two directions of AES (FIPS 197, 5.1 and 5.3): how they take their round keys, and their rounds on the blocks of a register.
ghost use Rattle.std.specs.Prelude.{◌≡◌, ℕ, ◌+◌, ◌-◌, ◌*◌, ◌<◌, ◌≤◌, List, length};
ghost use Rattle.mbj_types.specs.Aes.{round_key, encipher, decipher};
ghost use Rattle.mbj_aes.specs.BlockWords.{block_byte, block_at};
ghost use Rattle.mbj_aes_lanes.specs.Inside.LaidKeys.{laid_key, inverse_laid_key};
ghost use Rattle.mbj_aes_lanes.specs.Inside.Held.{IsHeld, is_enciphered, is_deciphered};

use crate::narrow::laid_keys::{
    first_key, inverse_key_between, inverse_last_key, key_between, last_key,
};
use crate::narrow::layouts::{LAYOUTS, PLACES};
use crate::narrow::mixing::{inv_mixed, mixed};
use crate::wide::key_states::to_tower_byte;
use mbj_aes::BlockWord;
use mbj_aes::inverse_substitution::{in_decryption, inverse_from_decryption, inverse_multiples};
use mbj_aes::substitution::{substituted_from_tower, substituted_in_tower};

/// A direction of AES. Its rounds are counted from 0 to `n`, as the round keys are: at one end the key alone is added.
pub trait Direction {
    /// What it makes of a block, under a schedule.
    ghost change: { List ℕ → List ℕ → List ℕ };

    /// Round key r of n rounds that bytes stand for.
    ghost laid: { ℕ → ℕ → (ℕ → ℕ) → List ℕ };

    /// The round key of each of n rounds.
    ghost key_of: { ℕ → ℕ → ℕ };

    /// Under a schedule of n rounds, bytes are the state of a block after some of them, but not all.
    ghost is_after: { List ℕ → List ℕ → ℕ → ℕ → (ℕ → ℕ) → Type 0 };

    /// The key of round `r` of `rounds` in each block, laid out.
    fn laid_key<V: BlockWord>(key: V, r: usize, rounds: usize) -> V
        requires { r ≤ rounds }
        ensures { (b : ℕ) → b < V.BLOCKS → laid rounds r (block_byte V.lane result b) ≡ block_at V.lane key b };

    /// The number of the key of round `k` of `n`.
    fn key_index(k: usize, n: usize) -> usize
        requires { k ≤ n }
        ensures value { result ≡ key_of n k }
        ensures most { result ≤ n };

    /// Round `k` of `n`.
    fn round<V: BlockWord>(s: V, key: V, k: usize, n: usize) -> V
        requires least { 1 ≤ n }
        requires most { k ≤ n }
        ensures { (b : ℕ) (w block : List ℕ) → b < V.BLOCKS → length w ≡ 16 * (n + 1)
            → laid n (key_of n k) (block_byte V.lane key b) ≡ round_key w (key_of n k)
            → IsHeld change is_after w block n k (block_byte V.lane s b) → IsHeld change is_after w block n (k + 1) (block_byte V.lane result b) };

    /// Sixteen bytes count.
    ghost same: { (n r : ℕ) (f g : ℕ → ℕ) → ((j : ℕ) → j < 16 → f j ≡ g j) → laid n r f ≡ laid n r g };

    /// A key has as many.
    ghost sized: { (n r : ℕ) (f : ℕ → ℕ) → length (laid n r f) ≡ 16 };
}

/// Encryption. After round `k` the state is in layout `k`, in the tower's basis, until the last round makes plain bytes.
pub struct Encryption;

impl Direction for Encryption {
    ghost use Rattle.mbj_aes_lanes.specs.Inside.LaidLaws.{laid_key-same, length-laid_key};

    ghost change = { encipher };

    ghost laid = { laid_key };

    ghost key_of = { λ n k. k };

    ghost is_after = { is_enciphered };

    #[inline(always)]
    fn laid_key<V: BlockWord>(key: V, r: usize, rounds: usize) -> V {
        if r == 0 {
            first_key(key)
        } else if r == rounds {
            last_key(key)
        } else {
            key_between(key, r)
        }
    }

    #[inline(always)]
    fn key_index(k: usize, _n: usize) -> usize {
        k
    }

    #[tactic(auto, using(crate::proofs::LayoutPlaces::tabled_lt))]
    #[inline(always)]
    fn round<V: BlockWord>(s: V, key: V, k: usize, n: usize) -> V {
        if k == 0 {
            to_tower_byte(s).xored(key)
        } else if k == n {
            substituted_from_tower(s)
                .placed(&PLACES[k % LAYOUTS])
                .xored(key)
        } else {
            mixed(substituted_in_tower(s), key, k)
        }
    }

    ghost same = { laid_key-same };

    ghost sized = { length-laid_key };
}

/// Decryption. The layouts go backwards: after round `k` of `n` the state is in layout `n - k`, in the basis of decryption.
/// INVMIXCOLUMNS was made of the keys beforehand.
pub struct Decryption;

impl Direction for Decryption {
    ghost use Rattle.mbj_aes_lanes.specs.Inside.LaidLaws.{inverse_laid_key-same, length-inverse_laid_key};

    ghost change = { decipher };

    ghost laid = { inverse_laid_key };

    ghost key_of = { λ n k. n - k };

    ghost is_after = { is_deciphered };

    #[inline(always)]
    fn laid_key<V: BlockWord>(key: V, r: usize, rounds: usize) -> V {
        if r == 0 {
            key
        } else if r == rounds {
            inverse_last_key(key)
        } else {
            inverse_key_between(key, r)
        }
    }

    #[inline(always)]
    fn key_index(k: usize, n: usize) -> usize {
        n - k
    }

    #[tactic(auto, using(crate::proofs::LayoutPlaces::tabled_lt))]
    #[inline(always)]
    fn round<V: BlockWord>(s: V, key: V, k: usize, n: usize) -> V {
        if k == 0 {
            in_decryption(s)
                .xored(key)
                .placed(&PLACES[(LAYOUTS - n % LAYOUTS) % LAYOUTS])
        } else if k == n {
            inverse_from_decryption(s).xored(key)
        } else {
            inv_mixed(inverse_multiples(s), key, n - k)
        }
    }

    ghost same = { inverse_laid_key-same };

    ghost sized = { length-inverse_laid_key };
}
