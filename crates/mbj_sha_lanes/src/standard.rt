ghost use Rattle.std.specs.Prelude.{◌≡◌, ℕ, ◌<◌, slice_index};
ghost use Rattle.mbj_sha_lanes.specs.Sha2.{IsSha2, Sha2Standard};

use crate::words::Words;

/// What the standard gives a hash of SHA-2 of its own, with words in the lanes of a type (FIPS 180-4, 4.1.2, 4.2.2 and
/// 6.2.2; 4.1.3, 4.2.3 and 6.4.2).
pub trait Sha2<V: Copy, W: Words<V>> {
    ghost standard: { Sha2Standard };

    ghost ROUNDS: { ℕ };

    /// How many rounds there are.
    const ROUNDS: usize;

    /// By how many bits the sigmas rotate a word: the upper case 0 and 1, and the lower case ones, whose last amount is that of a shift.
    fn sigmas() -> [[u32; 3]; 4]
        ensures { result ≡ standard.sigmas };

    /// The constant of round t, in every lane.
    fn constant(t: usize) -> V
        requires { t < standard.count }
        ensures { (i : ℕ) → i < W.LANES → W.lane result i ≡ slice_index standard.constants t };

    /// Amounts, schedule and rounds are the standard's.
    ghost laws: { IsSha2 W.width standard };

    /// The number of rounds.
    ghost rounds: { ROUNDS ≡ standard.count };
}
