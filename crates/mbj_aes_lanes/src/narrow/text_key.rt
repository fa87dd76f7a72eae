ghost use Rattle.std.specs.Prelude.{◌≡◌, ℕ, ◌<◌, ◌≤◌, List, [], length, slice_index_or};
ghost use Rattle.mbj_types.specs.Aes.{encipher, decipher};

use crate::narrow::by_fours::change_each;
use crate::narrow::cipher::change_all;
use crate::narrow::directions::{Decryption, Direction, Encryption};
use crate::narrow::laid_keys::laid_keys;
use crate::narrow::schedules::Schedules;
use mbj_aes::{BlockWord, MAX_ROUND_KEYS, Schedule};
use std::marker::{Model, PhantomData};
use std::simd::u8x32;

/// The schedule of a text's key, whose round keys are laid out as the rounds of a direction take them, and which contracts see as the list
/// of its bytes. It is a plain value of 244 bytes, and owns no memory.
#[derive(Drop)]
pub struct LaidKey<D: Direction> {
    keys: [[u8; 16]; MAX_ROUND_KEYS],
    rounds: u32,
    direction: PhantomData<D>,
}

/// The schedule of a text's key for encryption.
pub type TextKey = LaidKey<Encryption>;

/// The schedule of a text's key for decryption.
pub type DecryptionKey = LaidKey<Decryption>;

// The size that stands in the documentation.
const _: () = prove!(size_of::<TextKey>() == 244);

impl<D: Direction> Model for LaidKey<D> {
    ghost use Rattle.std.specs.Prelude.{◌≡◌, ℕ, List, length};
    ghost use Rattle.mbj_aes.specs.Bytes.{IsRoundCount};
    ghost use Rattle.mbj_aes_lanes.specs.Inside.LaidKeys.{laid_schedule};
    ghost use Rattle.mbj_aes.specs.declared.sizes.TheConstants.{MAX_ROUND_KEYS};

    ghost Value = { List ℕ };

    ghost view = { λ k. laid_schedule D.laid k.rounds k.keys };

    ghost invariant = { λ k. IsRoundCount k.rounds × (length k.keys ≡ MAX_ROUND_KEYS) };
}

impl<V: BlockWord, D: Direction> Schedules<V, D> for LaidKey<D> {
    ghost use Rattle.std.specs.Prelude.{◌-◌, ◌/◌, ◌^◌, length};

    ghost rounds_of = { λ k. length k / 16 - 1 };

    ghost count_of = { λ k. 2 ^ 64 };

    ghost schedule_of = { λ k i b. k };

    #[inline(always)]
    fn rounds(&self) -> usize {
        self.rounds as usize
    }

    #[inline(always)]
    fn round_key(&self, r: usize, _i: usize) -> V {
        let keys = &self.keys;
        V::in_each_block(&keys[r])
    }
}

impl<D: Direction> LaidKey<D> {
    /// The schedule, whose round keys are laid out once. It takes no memory.
    pub fn new(key: &Schedule) -> LaidKey<D>
        ensures { result ≡ key.now }
    {
        LaidKey {
            keys: laid_keys::<D>(key),
            rounds: key.rounds(),
            direction: PhantomData,
        }
    }

    /// Changes the first two blocks, in one register.
    #[inline(never)]
    pub(crate) fn change_two(&self, blocks: &mut [[u8; 16]])
        requires { 2 ≤ length blocks.old }
        ensures first { (i : ℕ) → i < 2 → slice_index_or blocks.new i [] ≡ D.change self.now (slice_index_or blocks.old i []) }
        ensures others { (i : ℕ) → 2 ≤ i → slice_index_or blocks.new i [] ≡ slice_index_or blocks.old i [] }
    {
        let mut s = [u8x32::load(blocks)];
        change_all(self, &mut s);
        s[0].store(blocks);
    }

    /// Changes the first four blocks, in two registers side by side.
    #[inline(never)]
    pub(crate) fn change_four(&self, blocks: &mut [[u8; 16]])
        requires { 4 ≤ length blocks.old }
        ensures first { (i : ℕ) → i < 4 → slice_index_or blocks.new i [] ≡ D.change self.now (slice_index_or blocks.old i []) }
        ensures others { (i : ℕ) → 4 ≤ i → slice_index_or blocks.new i [] ≡ slice_index_or blocks.old i [] }
    {
        let mut s = [u8x32::load(blocks), u8x32::load(&blocks[2..])];
        change_all(self, &mut s);
        s[0].store(blocks);
        s[1].store(&mut blocks[2..]);
    }
}

impl LaidKey<Encryption> {
    /// Encrypts each block: CIPHER (FIPS 197, 5.1). Blocks go four at a time, and no more of them than there are. It takes no memory.
    pub fn encrypt(&self, blocks: &mut [[u8; 16]])
        ensures each { (i : ℕ) → i < length blocks.old
            → slice_index_or blocks.new i [] ≡ encipher self.now (slice_index_or blocks.old i []) }
        ensures lengths { (i : ℕ) → i < length blocks.old → length (slice_index_or blocks.new i []) ≡ 16 }
    {
        let _ = &self.keys;
        change_each(self, blocks);
    }
}

impl LaidKey<Decryption> {
    /// Decrypts each block: INVCIPHER (FIPS 197, 5.3). Blocks go four at a time, and no more of them than there are. It takes no memory.
    pub fn decrypt(&self, blocks: &mut [[u8; 16]])
        ensures each { (i : ℕ) → i < length blocks.old
            → slice_index_or blocks.new i [] ≡ decipher self.now (slice_index_or blocks.old i []) }
        ensures lengths { (i : ℕ) → i < length blocks.old → length (slice_index_or blocks.new i []) ≡ 16 }
    {
        let _ = &self.keys;
        change_each(self, blocks);
    }
}
