//! The compression over arrays of hash values and blocks. No product calls it: the kernels of HMAC keep their hash values in
//! vectors, and read blocks where they stand.
ghost use Rattle.std.specs.Prelude.{◌≡◌, ℕ, ◌<◌, [], slice_index_or};
ghost use Rattle.sha1.specs.Sha1.{compress};
ghost use Rattle.mbj_types.specs.declared.kind.TheConstants.{SHA1_LANES};

use crate::{compress_lanes, gathered};
use mbj_sha_lanes::{Load32, load32};
use mbj_types::{SHA1_LANES, Sha1Word};

/// Compresses each of `SHA1_LANES` blocks into the hash value of the same number.
///
/// ```
/// let mut states = [INITIAL; SHA1_LANES];
/// compress(&mut states, &letter_blocks());
/// for i in 0..SHA1_LANES {
///     expect(&rt, "digest", states[i], DIGESTS[i]);
/// }
/// ```
#[tactic(auto, using(crate::proofs::BlockWords::first_words_is))]
pub fn compress(states: &mut [[u32; 5]; SHA1_LANES], blocks: &[[u8; 64]; SHA1_LANES])
    ensures { (i : ℕ) → i < SHA1_LANES → slice_index_or states.new i []
        ≡ compress (slice_index_or states.old i []) (slice_index_or blocks.now i []) }
{
    let mut words = Sha1Word::block_words(blocks);
    let mut lanes = gathered(states);
    compress_lanes(&mut lanes, &mut words);
    *states = load32::scattered_all(&lanes);
}
