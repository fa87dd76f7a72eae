//! A round of SHA-2 on the working variables (FIPS 180-4, 6.2.2 and 6.4.2, step 3), and a word of its schedule (step 1).
ghost use Rattle.std.specs.Prelude.{◌≡◌, ℕ, ◌<◌, length};
ghost use Rattle.mbj_types.specs.Lanes.{lane_of};
ghost use Rattle.mbj_sha_lanes.specs.Sha2.{AreAmounts, add_state, big_sigma, round, schedule_word, small_sigma, temp1, temp2, working_lane};
ghost use mir.Val.{bits};

use crate::standard::Sha2;
use crate::words::{Words, choice, majority};

/// The working variables of each lane.
#[derive(Clone, Copy)]
pub struct Working<V> {
    pub a: V,
    pub b: V,
    pub c: V,
    pub d: V,
    pub e: V,
    pub f: V,
    pub g: V,
    pub h: V,
}

// An upper case sigma, by the amounts of its rotations.
#[inline(always)]
fn big_sigma<V: Copy, W: Words<V>>(x: V, amounts: [u32; 3]) -> V
    requires { AreAmounts (bits W.width) amounts }
    ensures { (i : ℕ) → i < W.LANES → W.lane result i ≡ big_sigma W.width amounts (W.lane x i) }
{
    let first = W::rotated_right(x, amounts[0]);
    let second = W::rotated_right(x, amounts[1]);
    let third = W::rotated_right(x, amounts[2]);
    W::xored(W::xored(first, second), third)
}

// A lower case sigma, whose last amount is that of a shift.
#[inline(always)]
fn small_sigma<V: Copy, W: Words<V>>(x: V, amounts: [u32; 3]) -> V
    requires { AreAmounts (bits W.width) amounts }
    ensures { (i : ℕ) → i < W.LANES → W.lane result i ≡ small_sigma W.width amounts (W.lane x i) }
{
    let first = W::rotated_right(x, amounts[0]);
    let second = W::rotated_right(x, amounts[1]);
    W::xored(W::xored(first, second), W::shr(x, amounts[2]))
}

// T1 of a round.
#[inline(always)]
fn first_sum<V: Copy, W: Words<V>, H: Sha2<V, W>>(v: Working<V>, constant: V, word: V) -> V
    ensures { (i : ℕ) → i < W.LANES
        → W.lane result i ≡ temp1 W.width H.standard (working_lane W.lane v i) (W.lane constant i) (W.lane word i) }
{
    let sum = W::plus(v.h, big_sigma::<V, W>(v.e, H::sigmas()[1]));
    let sum = W::plus(sum, choice::<V, W>(v.e, v.f, v.g));
    W::plus(W::plus(sum, constant), word)
}

// T2 of a round.
#[inline(always)]
fn second_sum<V: Copy, W: Words<V>, H: Sha2<V, W>>(v: Working<V>) -> V
    ensures { (i : ℕ) → i < W.LANES → W.lane result i ≡ temp2 W.width H.standard (working_lane W.lane v i) }
{
    let sum = big_sigma::<V, W>(v.a, H::sigmas()[0]);
    W::plus(sum, majority::<V, W>(v.a, v.b, v.c))
}

/// A round, with its constant and its word.
#[inline(always)]
pub(crate) fn round<V: Copy, W: Words<V>, H: Sha2<V, W>>(
    v: Working<V>,
    constant: V,
    word: V,
) -> Working<V>
    ensures { (i : ℕ) → i < W.LANES
        → working_lane W.lane result i ≡ round W.width H.standard (working_lane W.lane v i) (W.lane constant i) (W.lane word i) }
{
    let first = first_sum::<V, W, H>(v, constant, word);
    let second = second_sum::<V, W, H>(v);
    Working {
        a: W::plus(first, second),
        b: v.a,
        c: v.b,
        d: v.c,
        e: W::plus(v.d, first),
        f: v.e,
        g: v.f,
        h: v.g,
    }
}

/// The word of a schedule that follows on those 2, 7, 15 and 16 places before it.
#[inline(always)]
pub(crate) fn schedule_word<V: Copy, W: Words<V>, H: Sha2<V, W>>(w2: V, w7: V, w15: V, w16: V) -> V
    ensures { (i : ℕ) → i < W.LANES
        → W.lane result i ≡ schedule_word W.width H.standard (W.lane w2 i) (W.lane w7 i) (W.lane w15 i) (W.lane w16 i) }
{
    let sum = W::plus(small_sigma::<V, W>(w2, H::sigmas()[3]), w7);
    let sum = W::plus(sum, small_sigma::<V, W>(w15, H::sigmas()[2]));
    W::plus(sum, w16)
}

/// Hash values as working variables.
#[inline(always)]
#[tactic(auto, using(crate::proofs::EightWords::eight_read))]
pub(crate) fn working_of<V: Copy, W: Words<V>>(states: &[V]) -> Working<V>
    requires { length states.now ≡ 8 }
    ensures { (i : ℕ) → working_lane W.lane result i ≡ lane_of W.lane states.now i }
{
    Working {
        a: states[0],
        b: states[1],
        c: states[2],
        d: states[3],
        e: states[4],
        f: states[5],
        g: states[6],
        h: states[7],
    }
}

/// The working variables are added to hash values (step 4).
#[inline(always)]
pub(crate) fn add_working<V: Copy, W: Words<V>>(states: &mut [V], v: Working<V>)
    requires { length states.old ≡ 8 }
    ensures { (i : ℕ) → i < W.LANES
        → lane_of W.lane states.new i ≡ add_state W.width (lane_of W.lane states.old i) (working_lane W.lane v i) }
{
    let start = working_of::<V, W>(states);
    states[0] = W::plus(start.a, v.a);
    states[1] = W::plus(start.b, v.b);
    states[2] = W::plus(start.c, v.c);
    states[3] = W::plus(start.d, v.d);
    states[4] = W::plus(start.e, v.e);
    states[5] = W::plus(start.f, v.f);
    states[6] = W::plus(start.g, v.g);
    states[7] = W::plus(start.h, v.h);
}
