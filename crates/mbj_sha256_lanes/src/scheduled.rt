ghost use Rattle.std.specs.Prelude.{◌≡◌, ℕ, ◌<◌, List, length};
ghost use Rattle.sha2.specs.Sha256.{compress, first_words};
ghost use Rattle.mbj_types.specs.Lanes.{lane_at, lane_of};
ghost use Rattle.mbj_types.specs.declared.kind.TheConstants.{SHA256_LANES};

use crate::constants::ROUNDS;
use crate::functions::Sha256;
use mbj_sha_lanes::words::Words32;
use mbj_types::Sha256Word;

/// Compresses one block into one hash value in each lane of the product's vectors, as `compress_lanes` does, with the whole
/// schedule made first. `states` are the words of the hash values, `words` those of the blocks. The words of the schedule
/// are made in `schedule`, where what stood before is not looked at.
///
/// The words of a round fill more registers than a processor without AVX-512 has, and there this is faster.
#[inline(always)]
#[tactic(auto, unfolding(sha2::specs::Sha256::compress))]
pub fn compress_scheduled(
    states: &mut [Sha256Word; 8],
    words: &[Sha256Word; 16],
    schedule: &mut [Sha256Word; ROUNDS],
)
    ensures each { (i : ℕ) (b : List ℕ) → i < SHA256_LANES → first_words b 16 ≡ lane_of (lane_at 32) words.now i
        → lane_of (lane_at 32) states.new i ≡ compress (lane_of (lane_at 32) states.old i) b }
    ensures length { length states.new ≡ 8 }
{
    mbj_sha_lanes::compress_scheduled::<Sha256Word, Words32, Sha256>(states, words, schedule);
}
