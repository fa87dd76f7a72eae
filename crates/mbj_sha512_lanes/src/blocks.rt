//! The compression over arrays of hash values and blocks. No product calls it: the kernels of HMAC keep their hash values in
//! vectors, and read blocks where they stand.
ghost use Rattle.std.specs.Prelude.{◌≡◌, ℕ, ◌<◌, [], slice_index_or};
ghost use Rattle.sha2.specs.Sha512.{compress};
ghost use Rattle.mbj_types.specs.declared.kind.TheConstants.{SHA512_LANES};

use crate::{ROUNDS, compress_scheduled, gathered};
use mbj_sha_lanes::{Load64, load64};
use mbj_types::{SHA512_LANES, Sha512Word};

/// Compresses each of `SHA512_LANES` blocks into the hash value of the same number.
///
/// ```
/// let mut states = [INITIAL; SHA512_LANES];
/// compress(&mut states, &letter_blocks());
/// for i in 0..SHA512_LANES {
///     expect(&rt, "digest", states[i], by_sha2(letters(i)));
/// }
/// ```
#[tactic(auto, using(crate::proofs::BlockWords::first_words_is))]
pub fn compress(states: &mut [[u64; 8]; SHA512_LANES], blocks: &[[u8; 128]; SHA512_LANES])
    ensures { (i : ℕ) → i < SHA512_LANES → slice_index_or states.new i []
        ≡ compress (slice_index_or states.old i []) (slice_index_or blocks.now i []) }
{
    let words = Sha512Word::block_words(blocks);
    let mut schedule = [Sha512Word::splat(0); ROUNDS];
    let mut lanes = gathered(states);
    compress_scheduled(&mut lanes, &words, &mut schedule);
    *states = load64::scattered_all(&lanes);
}
