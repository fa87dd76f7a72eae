// The rests of all lanes in vectors.
ghost use Rattle.std.specs.Prelude.{◌≡◌, ℕ, ◌<◌, ◌≤◌, ◌^◌, ◌==◌, if◌then◌else◌, false, min, take, drop};
ghost use Rattle.std.specs.Simd.Lanes.{zip2};
ghost use Rattle.mbj_types.specs.Lanes.{lane_at};
ghost use Rattle.mbj_sha_lanes.specs.Halves.{IsWithin};
ghost use Rattle.mbj_hmac.specs.Inside.InLanes.{idle, lowered, most_lanes, never, outer_left, reach_at};

use crate::lane_word::LaneWord;
use mbj_sha_lanes::{Half, part_of};
use std::simd::{u32x4, u32x8, u32x16, u64x8};

/// The rest of an idle lane. No entry has this many rounds.
pub(crate) const IDLE: u32 = 0x8000_0000;

/// More rounds than any entry has.
pub(crate) const NEVER: u32 = u32::MAX;

/// The numbers of the lanes.
const NUMBERS_32: [u32; 16] = [0, 1, 2, 3, 4, 5, 6, 7, 8, 9, 10, 11, 12, 13, 14, 15];

const NUMBERS_64: [u64; 8] = [0, 1, 2, 3, 4, 5, 6, 7];

/// A vector with another word in a lane. It is blended, since a word that is written into a vector in memory delays its next load.
#[inline(always)]
pub(crate) fn with_word32(words: u32x16, i: usize, word: u32) -> u32x16
    requires { i < 16 }
    ensures { (j : ℕ) → j < 16 → lane_at 32 result j ≡ if j == i then word else lane_at 32 words j }
{
    u32x16::from_array(NUMBERS_32)
        .simd_eq(u32x16::splat(i as u32))
        .select(u32x16::splat(word), words)
}

/// A vector with another word in a lane, blended too.
#[inline(always)]
pub(crate) fn with_word64(words: u64x8, i: usize, word: u64) -> u64x8
    requires { i < 8 }
    ensures { (j : ℕ) → j < 8 → lane_at 64 result j ≡ if j == i then word else lane_at 64 words j }
{
    u64x8::from_array(NUMBERS_64)
        .simd_eq(u64x8::splat(i as u64))
        .select(u64x8::splat(word), words)
}

/// The word of a lane.
#[inline(always)]
pub(crate) fn word_of(words: &u32x16, i: usize) -> u32
    requires { i < 16 }
    ensures { result ≡ lane_at 32 words.now i }
{
    words.as_array()[i]
}

/// The lesser number.
#[inline(always)]
pub(crate) fn least(a: u32, b: u32) -> u32
    ensures { result ≡ min a b }
{
    if a < b { a } else { b }
}

/// The lesser lanes of both halves.
#[inline(always)]
fn lesser_half(words: u32x16) -> u32x8
    ensures { result ≡ zip2 min (take 8 words) (drop 8 words) }
{
    words.extract::<0, 8>().simd_min(words.extract::<8, 8>())
}

/// The lesser lanes of both halves.
#[inline(always)]
fn lesser_quarter(words: u32x8) -> u32x4
    ensures { result ≡ zip2 min (take 4 words) (drop 4 words) }
{
    words.extract::<0, 4>().simd_min(words.extract::<4, 4>())
}

/// The least lane.
#[inline(always)]
pub(crate) fn least_lane(words: u32x16) -> u32
    ensures below { (i : ℕ) → i < most_lanes → result ≤ lane_at 32 words i }
    ensures met { (i : ℕ) × (i < most_lanes) × (result ≡ lane_at 32 words i) }
{
    let [a, b, c, d] = lesser_quarter(lesser_half(words)).to_array();
    least(least(a, b), least(c, d))
}

/// The rests after `m` rounds.
#[inline(always)]
pub(crate) fn lowered(rests: u32x16, m: u32) -> u32x16
    requires { (i : ℕ) → i < most_lanes → lane_at 32 rests i < idle → m ≤ lane_at 32 rests i }
    ensures { (i : ℕ) → i < most_lanes → lane_at 32 rests i ≤ idle → lane_at 32 result i ≡ lowered m (lane_at 32 rests i) }
{
    let is_idle = rests.simd_eq(u32x16::splat(IDLE));
    is_idle.select(rests, rests - u32x16::splat(m))
}

/// How many rounds each lane has before its outer hash starts, or has at all.
#[inline(always)]
pub(crate) fn reaches(rests: u32x16, turns: u32x16) -> u32x16
    ensures { (i : ℕ) → i < most_lanes → lane_at 32 result i ≡ reach_at (lane_at 32 rests i) (lane_at 32 turns i) }
{
    rests.simd_gt(turns).select(rests - turns, rests)
}

/// Whether two vectors have the same number in a lane.
#[inline(always)]
pub(crate) fn has_equal(a: u32x16, b: u32x16) -> bool
    ensures { result ≡ false → (i : ℕ) → i < most_lanes → lane_at 32 a i ≡ lane_at 32 b i → ⊥ }
{
    a.simd_eq(b).any()
}

/// How many rounds the HMACs have left. A digest has 0 here.
#[inline(always)]
pub(crate) fn outer_left(rests: u32x16, turns: u32x16) -> u32x16
    ensures { (i : ℕ) → i < most_lanes → lane_at 32 result i ≡ outer_left (lane_at 32 rests i) (lane_at 32 turns i) }
{
    u32x16::where_equal(turns, u32x16::splat(NEVER), u32x16::splat(0), rests)
}

/// Whether a lane is busy.
#[inline(always)]
fn has_busy_lane(rests: u32x16) -> bool
    ensures { result ≡ false → (i : ℕ) → i < most_lanes → lane_at 32 rests i < idle → ⊥ }
{
    rests.simd_lt(u32x16::splat(IDLE)).any()
}

/// Whether a busy lane has another number than its word of `counts`.
#[inline(always)]
pub(crate) fn has_other(rests: u32x16, counts: u32x16, number: u32) -> bool
    ensures { result ≡ false → (i : ℕ) → i < most_lanes → lane_at 32 rests i < idle → lane_at 32 counts i ≡ number }
{
    has_busy_lane(u32x16::where_equal(counts, u32x16::splat(number), u32x16::splat(IDLE), rests))
}

/// Whether one of eight lanes is busy.
#[inline(always)]
fn has_busy(rests: u32x8) -> bool
    ensures { result ≡ false → (i : ℕ) → i < 8 → lane_at 32 rests i < idle → ⊥ }
{
    rests.simd_lt(u32x8::splat(IDLE)).any()
}

/// The half that has every busy lane, if one has.
#[inline(always)]
pub(crate) fn busy_half(rests: u32x16) -> Option<Half>
    ensures { (i : ℕ) → i < most_lanes → lane_at 32 rests i < idle → IsWithin result i }
{
    if !has_busy(part_of(rests, Half::Upper)) {
        Some(Half::Lower)
    } else if !has_busy(part_of(rests, Half::Lower)) {
        Some(Half::Upper)
    } else {
        None
    }
}
