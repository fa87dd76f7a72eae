//! Vectors of words, and hash values in their lanes.
ghost use Rattle.std.specs.Prelude.{◌<◌};

use std::simd::{u32x4, u32x8, u64x2, u64x4};

/// Words side by side, one in each lane.
pub trait Vector: Copy {
    /// The word in each lane.
    fn of(word: u64) -> Self;

    /// The word in one of the first two lanes.
    fn word(self, lane: usize) -> u64
        requires { lane < 2 };
}

/// The lower half of a word of 64 bits.
fn low(word: u64) -> u32 {
    (word & 0xffff_ffff) as u32
}

impl Vector for u32x4 {
    fn of(word: u64) -> u32x4 {
        u32x4::splat(low(word))
    }

    fn word(self, lane: usize) -> u64 {
        self.to_array()[lane] as u64
    }
}

impl Vector for u32x8 {
    fn of(word: u64) -> u32x8 {
        u32x8::splat(low(word))
    }

    fn word(self, lane: usize) -> u64 {
        self.to_array()[lane] as u64
    }
}

impl Vector for u64x2 {
    fn of(word: u64) -> u64x2 {
        u64x2::splat(word)
    }

    fn word(self, lane: usize) -> u64 {
        self.to_array()[lane]
    }
}

impl Vector for u64x4 {
    fn of(word: u64) -> u64x4 {
        u64x4::splat(word)
    }

    fn word(self, lane: usize) -> u64 {
        self.to_array()[lane]
    }
}

/// Fills vectors with a hash value in each lane.
pub fn fill<V: Vector>(states: &mut [V], words: &[u64; 8]) {
    for i in 0..states.len().min(8) {
        states[i] = V::of(words[i]);
    }
}

/// The hash value in a lane.
pub fn value_in<V: Vector>(states: &[V], lane: usize) -> [u64; 8]
    requires { lane < 2 }
{
    let mut words = [0; 8];
    for i in 0..states.len().min(8) {
        words[i] = states[i].word(lane);
    }
    words
}
