// The hash values of all lanes, advanced by the next blocks of their entries.
ghost use Rattle.std.specs.Prelude.{◌≡◌, ℕ, ◌-◌, ◌<◌, ◌≤◌};
ghost use Rattle.mbj_types.specs.Lanes.{lane_at};
ghost use Rattle.mbj_lane.specs.Rounds.{after};
ghost use Rattle.mbj_sha_lanes.specs.Halves.{IsWithin};
ghost use Rattle.mbj_hmac.specs.Rounds.{compressed_once, block_before};
ghost use Rattle.mbj_hmac.specs.Inside.InLanes.{AreTied, HasDigest, entry_in, idle, most_lanes, never, seen_at};

use crate::entry::HmacEntry;
use crate::lane_hash::LaneHash;
use crate::lanes::Rests;
use crate::rests::{has_equal, has_other, outer_left};
use crate::view::LaneEntries;
use mbj_sha_lanes::Half;
use std::simd::u32x16;

/// The hash values advance by the block that comes after `done` others of each entry. All busy lanes are in the half that is named. The
/// blocks of inner digests are made here, and nothing is read if each lane has one.
#[inline(always)]
fn pass<H: LaneHash>(
    entries: &[HmacEntry<H>],
    done: u32,
    half: Option<Half>,
    rests: &Rests,
    inner: &H::States,
    states: &mut H::States,
    schedule: &mut H::Schedule,
)
    requires few { done < never }
    requires tied { AreTied rests.now.left rests.now.turns entries.now }
    requires digests { (i : ℕ) → i < most_lanes → lane_at 32 rests.now.left i < idle
        → HasDigest H.hashing (lane_at 32 rests.now.bits i) (entry_in entries.now i) }
    requires half { (i : ℕ) → i < H.LANES → lane_at 32 rests.now.left i < idle → IsWithin half i }
    requires rests { (i : ℕ) → i < most_lanes → lane_at 32 rests.now.left i < idle → done < lane_at 32 rests.now.left i }
    ensures { (i : ℕ) → i < H.LANES → lane_at 32 rests.now.left i < idle → H.lane states.new i
        ≡ H.hashing.compress (H.lane states.old i)
        (block_before H.hashing (seen_at (H.lane states.old) (H.lane inner.now) entries.now i) ((entry_in entries.now i).rest - done)) }
{
    let counts = outer_left(rests.left, rests.turns);
    let last = done + 1;
    if !has_equal(counts, u32x16::splat(last)) {
        H::compress(states, schedule, &LaneEntries { entries, done }, half);
    } else if has_other(rests.left, counts, last) {
        let blocks = LaneEntries { entries, done };
        H::compress_mixed(
            states, schedule, &blocks, half, inner, rests.bits, counts, last,
        );
    } else {
        H::compress_digests(states, schedule, inner, rests.bits, half);
    }
}

/// The hash values advance by the next `m` blocks of their entries. All busy lanes are in the half that is named.
pub(crate) fn compressed<H: LaneHash>(
    entries: &[HmacEntry<H>],
    m: u32,
    half: Option<Half>,
    rests: &Rests,
    inner: &H::States,
    states: &mut H::States,
    schedule: &mut H::Schedule,
)
    requires tied { AreTied rests.now.left rests.now.turns entries.now }
    requires digests { (i : ℕ) → i < most_lanes → lane_at 32 rests.now.left i < idle
        → HasDigest H.hashing (lane_at 32 rests.now.bits i) (entry_in entries.now i) }
    requires half { (i : ℕ) → i < H.LANES → lane_at 32 rests.now.left i < idle → IsWithin half i }
    requires rests { (i : ℕ) → i < most_lanes → lane_at 32 rests.now.left i < idle → m ≤ lane_at 32 rests.now.left i }
    ensures { (i : ℕ) → i < H.LANES → lane_at 32 rests.now.left i < idle
        → H.lane states.new i ≡ (after (compressed_once H.hashing) m (seen_at (H.lane states.old) (H.lane inner.now) entries.now i)).chain }
{
    'passes: for done in 0..m {
        pass::<H>(entries, done, half, rests, inner, states, schedule);
    }
}
