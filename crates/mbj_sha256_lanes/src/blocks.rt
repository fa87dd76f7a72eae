//! The compression over arrays of hash values and blocks. No product calls it: the kernels of HMAC keep their hash values in
//! vectors, and read blocks where they stand.
ghost use Rattle.std.specs.Prelude.{◌≡◌, ℕ, ◌<◌, [], slice_index_or};
ghost use Rattle.sha2.specs.Sha256.{compress};
ghost use Rattle.mbj_types.specs.declared.kind.TheConstants.{SHA256_LANES};

use crate::{ROUNDS, compress_scheduled, gathered};
use mbj_sha_lanes::{Load32, load32};
use mbj_types::{SHA256_LANES, Sha256Word};

/// Compresses each of `SHA256_LANES` blocks into the hash value of the same number.
///
/// ```
/// let mut states = [INITIAL; SHA256_LANES];
/// compress(&mut states, &letter_blocks());
/// for i in 0..SHA256_LANES {
///     expect(&rt, "digest", states[i], DIGESTS[i]);
/// }
/// ```
#[tactic(auto, using(crate::proofs::BlockWords::first_words_is))]
pub fn compress(states: &mut [[u32; 8]; SHA256_LANES], blocks: &[[u8; 64]; SHA256_LANES])
    ensures { (i : ℕ) → i < SHA256_LANES → slice_index_or states.new i []
        ≡ compress (slice_index_or states.old i []) (slice_index_or blocks.now i []) }
{
    let words = Sha256Word::block_words(blocks);
    let mut schedule = [Sha256Word::splat(0); ROUNDS];
    let mut lanes = gathered(states);
    compress_scheduled(&mut lanes, &words, &mut schedule);
    *states = load32::scattered_all(&lanes);
}
