ghost use Rattle.std.specs.Prelude.{◌≡◌, ℕ, ◌<◌, [], length, slice_index_or};
ghost use Rattle.mbj_types.specs.Lanes.{lane_at, lane_of};
ghost use Rattle.mbj_types.specs.declared.kind.TheConstants.{SHA512_LANES};

use mbj_sha_lanes::load64;
use mbj_types::{SHA512_LANES, Sha512Word};

/// Hash values as vectors: hash value i is in lane i.
#[inline(always)]
pub fn gathered(states: &[[u64; 8]; SHA512_LANES]) -> [Sha512Word; 8]
    ensures lanes { (i : ℕ) → i < SHA512_LANES → lane_of (lane_at 64) result i ≡ slice_index_or states.now i [] }
    ensures length { length result ≡ 8 }
{
    load64::gathered(states)
}

/// The hash value in lane `i`.
#[inline(always)]
pub fn scattered(states: &[Sha512Word; 8], i: usize) -> [u64; 8]
    requires { i < SHA512_LANES }
    ensures { result ≡ lane_of (lane_at 64) states.now i }
{
    load64::scattered(states, i)
}
