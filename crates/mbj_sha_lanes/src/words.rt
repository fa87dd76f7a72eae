//! Words of 32 and of 64 bits in lanes, and the functions on them that the hashes share, each lane by itself.
ghost use Rattle.std.specs.Prelude.{◌≡◌, ℕ, ◌+◌, ◌/◌, ◌%◌, ◌^◌, ◌<◌, bit_and, bit_xor};
ghost use Rattle.std.specs.Int.{Width, rotate_right, w32, w64};
ghost use Rattle.sha2.specs.Sha256.{maj};
ghost use Rattle.mbj_sha_lanes.specs.Sha2.{ch};
ghost use mir.Val.{bits};

use mbj_types::{Lane32, Lane64};

/// Words of one length, in the lanes of a type.
pub trait Words<V: Copy> {
    ghost LANES: { ℕ };

    ghost lane: { V → ℕ → ℕ };

    ghost width: { Width };

    /// The bits in which two words differ.
    fn xored(x: V, y: V) -> V
        ensures { (i : ℕ) → i < LANES → lane result i ≡ bit_xor (lane x i) (lane y i) };

    /// The bits that are set in both words.
    fn anded(x: V, y: V) -> V
        ensures { (i : ℕ) → i < LANES → lane result i ≡ bit_and (lane x i) (lane y i) };

    /// The sum of two words.
    fn plus(x: V, y: V) -> V
        ensures { (i : ℕ) → i < LANES → lane result i ≡ (lane x i + lane y i) % 2 ^ bits width };

    /// Each word rotated right (FIPS 180-4, 3.2) by one bit at least.
    fn rotated_right(x: V, by: u32) -> V
        requires above { 0 < by }
        requires below { by < bits width }
        ensures { (i : ℕ) → i < LANES → lane result i ≡ rotate_right width (lane x i) by };

    /// Each word moved down; what leaves it is dropped.
    fn shr(x: V, by: u32) -> V
        requires { by < bits width }
        ensures { (i : ℕ) → i < LANES → lane result i ≡ lane x i / 2 ^ by };

    // a lane holds a word
    ghost fits: { (x : V) (i : ℕ) → lane x i < 2 ^ bits width };
}

/// Words of 32 bits.
pub struct Words32;

impl<V: Lane32> Words<V> for Words32 {
    ghost LANES = { V.LANES };

    ghost lane = { V.lane };

    ghost width = { w32 };

    #[inline(always)]
    fn xored(x: V, y: V) -> V {
        x.xored(y)
    }

    #[inline(always)]
    fn anded(x: V, y: V) -> V {
        x.anded(y)
    }

    #[inline(always)]
    fn plus(x: V, y: V) -> V {
        x.plus(y)
    }

    #[inline(always)]
    fn rotated_right(x: V, by: u32) -> V {
        x.shl(32 - by).xored(x.shr(by))
    }

    #[inline(always)]
    fn shr(x: V, by: u32) -> V {
        x.shr(by)
    }

    ghost fits = { V.fits };
}

/// Words of 64 bits.
pub struct Words64;

impl<V: Lane64> Words<V> for Words64 {
    ghost LANES = { V.LANES };

    ghost lane = { V.lane };

    ghost width = { w64 };

    #[inline(always)]
    fn xored(x: V, y: V) -> V {
        x.xored(y)
    }

    #[inline(always)]
    fn anded(x: V, y: V) -> V {
        x.anded(y)
    }

    #[inline(always)]
    fn plus(x: V, y: V) -> V {
        x.plus(y)
    }

    #[inline(always)]
    fn rotated_right(x: V, by: u32) -> V {
        x.shl(64 - by).xored(x.shr(by))
    }

    #[inline(always)]
    fn shr(x: V, by: u32) -> V {
        x.shr(by)
    }

    ghost fits = { V.fits };
}

/// Ch (FIPS 180-4, 4.1), in one operation fewer than the standard's form.
#[inline(always)]
#[tactic(auto, using(crate::proofs::ShortForms::choice_is))]
pub fn choice<V: Copy, W: Words<V>>(x: V, y: V, z: V) -> V
    ensures { (i : ℕ) → i < W.LANES → W.lane result i ≡ ch W.width (W.lane x i) (W.lane y i) (W.lane z i) }
{
    W::xored(z, W::anded(x, W::xored(y, z)))
}

/// Maj (FIPS 180-4, 4.1). In SHA-2 the bits in which x and y differ are those in which y and z differ a round later, so they are computed
/// once.
#[inline(always)]
#[tactic(auto, using(crate::proofs::ShortForms::majority_is))]
pub fn majority<V: Copy, W: Words<V>>(x: V, y: V, z: V) -> V
    ensures { (i : ℕ) → i < W.LANES → W.lane result i ≡ maj (W.lane x i) (W.lane y i) (W.lane z i) }
{
    W::xored(y, W::anded(W::xored(x, y), W::xored(y, z)))
}
