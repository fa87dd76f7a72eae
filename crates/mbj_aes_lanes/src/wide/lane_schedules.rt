//! The schedule in each lane, round key by round key.
ghost use Rattle.std.specs.Prelude.{◌≡◌, ℕ, ◌+◌, ◌-◌, ◌*◌, ◌/◌, ◌%◌, ◌<◌, ◌≤◌, List, length};
ghost use Rattle.mbj_types.specs.Aes.{round_key};
ghost use Rattle.mbj_aes_lanes.specs.Inside.WideKeys.{key_in, schedule_in};

use crate::wide::state::State;
use crate::wide::words::state_at;
use mbj_types::{BLOCK_BYTES, Lane8};

/// A schedule in each lane, each of as many rounds.
pub trait LaneSchedules<V: Lane8> {
    /// How many round keys each has: one more than rounds.
    ghost count_of: { Self → ℕ };

    /// The schedule in a lane.
    ghost schedule_of: { Self → ℕ → List ℕ };

    /// The rounds of each.
    fn rounds(&self) -> usize
        ensures value { count_of self.now ≡ result + 1 }
        ensures least { 2 ≤ result }
        ensures sizes { (i : ℕ) → i < V.LANES → length (schedule_of self.now i) ≡ 16 * (result + 1) };

    /// Round key `r` of each.
    fn round_key(&self, r: usize) -> State<V>
        requires { r < count_of self.now }
        ensures { (i : ℕ) → i < V.LANES
            → key_in V.lane (count_of self.now - 1) r result i ≡ round_key (schedule_of self.now i) r };
}

/// Round keys that are laid out for the rounds, 16 lane words for each.
#[derive(Drop)]
pub struct RoundKeys<'a, V> {
    pub words: &'a [V],
    pub ghost whole: { length words.now % 16 ≡ 0 },
    pub ghost least: { 48 ≤ length words.now },
}

impl<V: Lane8> LaneSchedules<V> for RoundKeys<'_, V> {
    ghost count_of = { λ s. length s.words.now / 16 };

    ghost schedule_of = { λ s i. schedule_in V.lane s.words.now i };

    #[inline(always)]
    fn rounds(&self) -> usize {
        self.words.len() / BLOCK_BYTES - 1
    }

    #[inline(always)]
    fn round_key(&self, r: usize) -> State<V> {
        state_at(self.words, r)
    }
}
