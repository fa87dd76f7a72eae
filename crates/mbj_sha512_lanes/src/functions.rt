ghost use Rattle.mbj_sha512_lanes.specs.Inside.Functions.{sha512};

use crate::constants::{ROUNDS, constant_at};
use mbj_sha_lanes::Sha2;
use mbj_sha_lanes::words::Words64;
use mbj_types::Lane64;

/// SHA-384 and SHA-512 (FIPS 180-4, 4.1.3 and 6.4).
pub(crate) struct Sha512;

impl<V: Lane64> Sha2<V, Words64> for Sha512 {
    ghost use Rattle.mbj_sha512_lanes.specs.Inside.Functions.{sha512_laws};
    ghost use Rattle.std.proofs.Common.{refl};

    ghost standard = { sha512 };

    const ROUNDS: usize = ROUNDS;

    ghost ROUNDS = { 80 };

    #[inline(always)]
    fn sigmas() -> [[u32; 3]; 4] {
        [[28, 34, 39], [14, 18, 41], [1, 8, 7], [19, 61, 6]]
    }

    #[inline(always)]
    fn constant(t: usize) -> V {
        V::splat(constant_at(t))
    }

    ghost laws = { sha512_laws };

    ghost rounds = { refl };
}
