ghost use Rattle.std.specs.Prelude.{◌≡◌, ℕ, ◌<◌, [], length, slice_index_or};
ghost use Rattle.mbj_types.specs.Lanes.{lane_at, lane_of};
ghost use Rattle.mbj_types.specs.declared.kind.TheConstants.{SHA256_LANES};

use mbj_sha_lanes::load32;
use mbj_types::{SHA256_LANES, Sha256Word};

/// Hash values as vectors: hash value i is in lane i.
#[inline(always)]
pub fn gathered(states: &[[u32; 8]; SHA256_LANES]) -> [Sha256Word; 8]
    ensures lanes { (i : ℕ) → i < SHA256_LANES → lane_of (lane_at 32) result i ≡ slice_index_or states.now i [] }
    ensures length { length result ≡ 8 }
{
    load32::gathered(states)
}

/// The hash value in lane `i`.
#[inline(always)]
pub fn scattered(states: &[Sha256Word; 8], i: usize) -> [u32; 8]
    requires { i < SHA256_LANES }
    ensures { result ≡ lane_of (lane_at 32) states.now i }
{
    load32::scattered(states, i)
}
