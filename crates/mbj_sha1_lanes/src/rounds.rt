// The 80 rounds, each in all lanes.
ghost use Rattle.std.specs.Prelude.{◌≡◌, ℕ, ◌+◌, ◌%◌, ◌<◌, ◌≤◌, List, length, slice_set};
ghost use Rattle.std.specs.Int.{w32, rotate_left};
ghost use Rattle.sha1.specs.Sha1.{first_words, parity, round, round_constant, round_fn, rounds, schedule, window_word};
ghost use Rattle.mbj_types.specs.Lanes.{lane_of};
ghost use Rattle.mbj_sha1_lanes.specs.Inside.Lanes.{IsLaneAt, working_lane};

use mbj_sha_lanes::words::{Words32, choice, majority};
use mbj_types::Lane32;

/// The working variables of each lane (FIPS 180-4, 6.1.2).
#[derive(Clone, Copy)]
pub(crate) struct Working<V> {
    pub(crate) a: V,
    pub(crate) b: V,
    pub(crate) c: V,
    pub(crate) d: V,
    pub(crate) e: V,
}

// Each word rotated left (3.2) by 1 to 31 bits.
#[inline(always)]
fn rotated_left<V: Lane32>(x: V, by: u32) -> V
    requires above { 0 < by }
    requires below { by < 32 }
    ensures { (i : ℕ) → i < V.LANES → V.lane result i ≡ rotate_left w32 (V.lane x i) by }
{
    x.shl(by).xored(x.shr(32 - by))
}

// Parity (4.1.1).
#[inline(always)]
fn parity<V: Lane32>(x: V, y: V, z: V) -> V
    ensures { (i : ℕ) → i < V.LANES → V.lane result i ≡ parity (V.lane x i) (V.lane y i) (V.lane z i) }
{
    x.xored(y).xored(z)
}

// The function of round t (4.1.1).
#[inline(always)]
fn function_at<V: Lane32>(t: usize, x: V, y: V, z: V) -> V
    ensures { (i : ℕ) → i < V.LANES → V.lane result i ≡ round_fn t (V.lane x i) (V.lane y i) (V.lane z i) }
{
    if t < 20 {
        choice::<V, Words32>(x, y, z)
    } else if t < 40 {
        parity(x, y, z)
    } else if t < 60 {
        majority::<V, Words32>(x, y, z)
    } else {
        parity(x, y, z)
    }
}

// The constant of round t (4.2.1).
#[inline(always)]
fn constant_at(t: usize) -> u32
    ensures { result ≡ round_constant t }
{
    if t < 20 {
        0x5a82_7999
    } else if t < 40 {
        0x6ed9_eba1
    } else if t < 60 {
        0x8f1b_bcdc
    } else {
        0xca62_c1d6
    }
}

#[inline(always)]
fn round<V: Lane32>(v: Working<V>, mixed: V, constant: u32, word: V) -> Working<V>
    ensures { (i : ℕ) → i < V.LANES → working_lane V.lane result i
        ≡ round (working_lane V.lane v i) (V.lane mixed i) constant (V.lane word i) }
{
    let sum = rotated_left(v.a, 5)
        .plus(mixed)
        .plus(v.e)
        .plus(V::splat(constant))
        .plus(word);
    Working {
        a: sum,
        b: v.a,
        c: rotated_left(v.b, 30),
        d: v.c,
        e: v.d,
    }
}

// Word t of the schedule, put at the place of word t - 16.
#[inline(always)]
fn next_word<V: Lane32>(words: &mut [V], t: usize) -> V
    requires ring { length words.old ≡ 16 }
    requires high { t < 80 }
    ensures value { (i : ℕ) → i < V.LANES → V.lane result i ≡ window_word (lane_of V.lane words.old i) t }
    ensures window { words.new ≡ slice_set words.old (t % 16) result }
{
    let word = rotated_left(
        words[(t + 13) % 16]
            .xored(words[(t + 8) % 16])
            .xored(words[(t + 2) % 16])
            .xored(words[t % 16]),
        1,
    );
    words[t % 16] = word;
    word
}

// One of the first 16 rounds, whose words are the block's.
#[inline(always)]
fn first_step<V: Lane32>(words: &[V], v: Working<V>, t: usize) -> Working<V>
    requires ring { length words.now ≡ 16 }
    requires high { t < 16 }
    ensures { (i : ℕ) (b h : List ℕ) → i < V.LANES → first_words b 16 ≡ lane_of V.lane words.now i
        → working_lane V.lane v i ≡ rounds h (schedule b 64) t
        → working_lane V.lane result i ≡ rounds h (schedule b 64) (t + 1) }
{
    let mixed = choice::<V, Words32>(v.b, v.c, v.d);
    round(v, mixed, 0x5a82_7999, words[t])
}

/// Four of the first 16 rounds, from round t on.
#[inline(always)]
pub(crate) fn first_four_steps<V: Lane32>(words: &[V], v: Working<V>, t: usize) -> Working<V>
    requires ring { length words.now ≡ 16 }
    requires high { t + 4 ≤ 16 }
    ensures { (i : ℕ) (b h : List ℕ) → i < V.LANES → first_words b 16 ≡ lane_of V.lane words.now i
        → working_lane V.lane v i ≡ rounds h (schedule b 64) t
        → working_lane V.lane result i ≡ rounds h (schedule b 64) (t + 4) }
{
    let v = first_step(words, v, t);
    let v = first_step(words, v, t + 1);
    let v = first_step(words, v, t + 2);
    first_step(words, v, t + 3)
}

// Round t, for t from 16, with its schedule word.
#[inline(always)]
fn step<V: Lane32>(words: &mut [V], v: Working<V>, t: usize) -> Working<V>
    requires ring { length words.old ≡ 16 }
    requires low { 16 ≤ t }
    requires high { t < 80 }
    ensures { (i : ℕ) (b h : List ℕ) → i < V.LANES → IsLaneAt V.lane i b h words.old v t
        → IsLaneAt V.lane i b h words.new result (t + 1) }
{
    let word = next_word(words, t);
    let mixed = function_at(t, v.b, v.c, v.d);
    round(v, mixed, constant_at(t), word)
}

/// Four rounds from round t on, for t from 16. A caller that gives t as a literal has the places of
/// the words, the functions and the constants fixed when the code is compiled.
#[inline(always)]
pub(crate) fn four_steps<V: Lane32>(words: &mut [V], v: Working<V>, t: usize) -> Working<V>
    requires ring { length words.old ≡ 16 }
    requires low { 16 ≤ t }
    requires high { t + 4 ≤ 80 }
    ensures { (i : ℕ) (b h : List ℕ) → i < V.LANES → IsLaneAt V.lane i b h words.old v t
        → IsLaneAt V.lane i b h words.new result (t + 4) }
{
    let v = step(words, v, t);
    let v = step(words, v, t + 1);
    let v = step(words, v, t + 2);
    step(words, v, t + 3)
}
