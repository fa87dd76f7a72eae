ghost use Rattle.std.specs.Prelude.{◌≡◌, ℕ, ◌<◌, [], length, slice_index_or};
ghost use Rattle.mbj_types.specs.Lanes.{lane_at, lane_of};
ghost use Rattle.mbj_types.specs.declared.kind.TheConstants.{SHA1_LANES};

use mbj_sha_lanes::load32;
use mbj_types::{SHA1_LANES, Sha1Word};

/// Hash values as vectors: hash value i is in lane i.
#[inline(always)]
pub fn gathered(states: &[[u32; 5]; SHA1_LANES]) -> [Sha1Word; 5]
    ensures lanes { (i : ℕ) → i < SHA1_LANES → lane_of (lane_at 32) result i ≡ slice_index_or states.now i [] }
    ensures length { length result ≡ 5 }
{
    load32::gathered(states)
}

/// The hash value in lane `i`.
#[inline(always)]
pub fn scattered(states: &[Sha1Word; 5], i: usize) -> [u32; 5]
    requires { i < SHA1_LANES }
    ensures { result ≡ lane_of (lane_at 32) states.now i }
{
    load32::scattered(states, i)
}
