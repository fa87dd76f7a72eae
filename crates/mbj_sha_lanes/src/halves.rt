//! One half of 16 lanes, with words of 32 bits: if only one has blocks, it is compressed by itself, at half the cost.
ghost use Rattle.std.specs.Prelude.{◌≡◌, ℕ, ◌+◌, ◌<◌, length};
ghost use Rattle.mbj_types.specs.Lanes.{lane_at, lane_of};
ghost use Rattle.mbj_sha_lanes.specs.Halves.{first_of};
ghost use Rattle.mbj_sha_lanes.specs.Words.{words32};

use crate::blocks::Blocks;
use crate::load32::{both, group_words};
use std::simd::{u32x8, u32x16};

/// A half of 16 lanes.
#[derive(Clone, Copy)]
pub enum Half {
    /// Lanes 0 to 7.
    Lower,
    /// Lanes 8 to 15.
    Upper,
}

// The first lane of a half.
#[inline(always)]
fn first_of(half: Half) -> usize
    ensures { result ≡ first_of half }
{
    match half {
        Half::Lower => 0,
        Half::Upper => 8,
    }
}

/// One half of a vector.
#[inline(always)]
pub fn part_of(vector: u32x16, half: Half) -> u32x8
    ensures { (i : ℕ) → i < 8 → lane_at 32 result i ≡ lane_at 32 vector (first_of half + i) }
{
    match half {
        Half::Lower => vector.extract::<0, 8>(),
        Half::Upper => vector.extract::<8, 8>(),
    }
}

// A vector with another half.
#[inline(always)]
#[tactic(auto, using(crate::proofs::Groups::first_lane, crate::proofs::Groups::second_lane))]
fn with_part(vector: u32x16, half: Half, part: u32x8) -> u32x16
    ensures { (i : ℕ) → i < 8 → lane_at 32 result (first_of half + i) ≡ lane_at 32 part i }
{
    match half {
        Half::Lower => both(part, part_of(vector, Half::Upper)),
        Half::Upper => both(part_of(vector, Half::Lower), part),
    }
}

/// The words of the blocks of one half, by word.
#[inline(always)]
pub fn half_words<B: Blocks>(blocks: &B, half: Half) -> [u32x8; 16]
    requires size { B.block_bytes ≡ 64 }
    requires lent { (i : ℕ) → i < 8 → B.lends blocks.now (first_of half + i) }
    ensures vectors { length result ≡ 16 }
    ensures lanes { (i : ℕ) → i < 8 → words32 (B.block blocks.now (first_of half + i)) ≡ lane_of (lane_at 32) result i }
{
    group_words(blocks, first_of(half))
}

/// One half of each vector becomes a part.
#[inline(always)]
pub fn take_half(parts: &mut [u32x8], vectors: &[u32x16], half: Half)
    requires { length parts.old ≡ length vectors.now }
    ensures length { length parts.new ≡ length parts.old }
    ensures lanes { (i : ℕ) → i < 8 → lane_of (lane_at 32) parts.new i ≡ lane_of (lane_at 32) vectors.now (first_of half + i) }
{
    'vectors: for k in 0..vectors.len() {
        parts[k] = part_of(vectors[k], half);
    }
}

/// Each part becomes one half of a vector.
#[inline(always)]
pub fn put_half(vectors: &mut [u32x16], half: Half, parts: &[u32x8])
    requires { length parts.now ≡ length vectors.old }
    ensures { (i : ℕ) → i < 8 → lane_of (lane_at 32) vectors.new (first_of half + i) ≡ lane_of (lane_at 32) parts.now i }
{
    'vectors: for k in 0..parts.len() {
        vectors[k] = with_part(vectors[k], half, parts[k]);
    }
}
