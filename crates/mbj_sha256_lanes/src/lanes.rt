//! The compression in lanes of any number, with its schedule made in a window. The kernel of HMAC calls it for one half of its lanes,
//! and has the whole schedule made first for all of them.
ghost use Rattle.std.specs.Prelude.{◌≡◌, ℕ, ◌<◌, List, length};
ghost use Rattle.sha2.specs.Sha256.{compress, first_words};
ghost use Rattle.mbj_types.specs.Lanes.{lane_of};

use crate::functions::Sha256;
use mbj_sha_lanes::compress_windowed;
use mbj_sha_lanes::words::Words32;
use mbj_types::Lane32;

/// Compresses one block into one hash value in each lane. `states` has 8 lane words, the words of the hash values; `words` has 16, the
/// words of the blocks, and is used up: its contents are unspecified afterwards.
#[tactic(auto, unfolding(sha2::specs::Sha256::compress))]
pub fn compress_lanes<V: Lane32>(states: &mut [V], words: &mut [V])
    requires states { length states.old ≡ 8 }
    requires words { length words.old ≡ 16 }
    ensures { (i : ℕ) (b : List ℕ) → i < V.LANES → first_words b 16 ≡ lane_of V.lane words.old i
        → lane_of V.lane states.new i ≡ compress (lane_of V.lane states.old i) b }
{
    compress_windowed::<V, Words32, Sha256>(states, words);
}
