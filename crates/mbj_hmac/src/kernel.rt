ghost use Rattle.mbj_hmac.specs.Rounds.{rest_of, round};

use crate::entry::HmacEntry;
use crate::lane_hash::LaneHash;
use crate::lanes::HmacLanes;
use mbj_lane::Kernel;
use std::marker::PhantomData;

/// Digests and HMACs in the lanes of a hash.
pub struct HmacKernel<H: LaneHash> {
    hash: PhantomData<H>,
}

impl<H: LaneHash> Kernel for HmacKernel<H> {
    type Entry = HmacEntry<H>;

    const LANES: u32 = H::LANES;

    ghost LANES = { H.LANES };

    ghost rest_of = { rest_of };

    ghost round = { round H.hashing };

    fn rest(entry: &HmacEntry<H>) -> u32 {
        entry.rest
    }

    fn run(entries: &mut [HmacEntry<H>], m: u32) {
        if entries.len() == 0 {
            return;
        }
        let mut lanes = HmacLanes::of(entries);
        lanes.run(entries, m);
        lanes.give_back(entries);
    }

    ghost use Rattle.mbj_hmac.specs.Laws.Falls.{falls};

    ghost some = { H.some };

    ghost few = { H.few };

    ghost falls = { falls H.hashing };
}
