//! The round keys of registers side by side.
ghost use Rattle.std.specs.Prelude.{◌≡◌, ℕ, ◌+◌, ◌-◌, ◌*◌, ◌/◌, ◌<◌, ◌≤◌, List, length};
ghost use Rattle.mbj_types.specs.Aes.{round_key};
ghost use Rattle.mbj_aes.specs.BlockWords.{block_byte};
ghost use Rattle.mbj_aes.specs.declared.sizes.TheConstants.{MAX_ROUND_KEYS};
ghost use Rattle.mbj_aes_lanes.specs.Inside.BusyKeys.{few_schedule};

use crate::narrow::directions::{Direction, Encryption};
use mbj_aes::{BlockWord, MAX_ROUND_KEYS};
use std::simd::u8x32;

/// The whole blocks of a register of 32 bytes.
pub const REGISTER_BLOCKS: usize = 2;

/// A schedule for each block of each register, all of as many rounds.
pub trait Schedules<V: BlockWord, D: Direction> {
    /// How many rounds each has.
    ghost rounds_of: { Self → ℕ };

    /// How many registers have schedules.
    ghost count_of: { Self → ℕ };

    /// The schedule of block b of register i.
    ghost schedule_of: { Self → ℕ → ℕ → List ℕ };

    /// How many rounds each has.
    fn rounds(&self) -> usize
        ensures value { result ≡ rounds_of self.now }
        ensures least { 1 ≤ result }
        ensures sizes { (i b : ℕ) → i < count_of self.now → b < V.BLOCKS → length (schedule_of self.now i b) ≡ 16 * (result + 1) };

    /// The keys of round `r` for register `i`, laid out.
    fn round_key(&self, r: usize, i: usize) -> V
        requires round { r ≤ rounds_of self.now }
        requires register { i < count_of self.now }
        ensures { (b : ℕ) → b < V.BLOCKS
            → D.laid (rounds_of self.now) r (block_byte V.lane result b) ≡ round_key (schedule_of self.now i b) r };
}

/// A schedule for each of some blocks, which stand one after another in registers, two in each: their round keys, laid out.
#[derive(Drop)]
pub struct EachKeys<'a> {
    pub keys: &'a [[[u8; 16]; MAX_ROUND_KEYS]],
    pub rounds: usize,
    pub ghost least: { 1 ≤ rounds },
    pub ghost most: { rounds < MAX_ROUND_KEYS },
}

impl Schedules<u8x32, Encryption> for EachKeys<'_> {
    ghost rounds_of = { λ s. s.rounds };

    ghost count_of = { λ s. length s.keys.now / 2 };

    ghost schedule_of = { λ s i b. few_schedule s.rounds s.keys.now (2 * i + b) };

    #[inline(always)]
    fn rounds(&self) -> usize {
        self.rounds
    }

    #[inline(always)]
    fn round_key(&self, r: usize, i: usize) -> u8x32 {
        let first = REGISTER_BLOCKS * i;
        u8x32::load(&[self.keys[first][r], self.keys[first + 1][r]])
    }
}
