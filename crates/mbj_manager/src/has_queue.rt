//! The lane queue of each kind, by the kernel of the kind.

ghost use Rattle.std.specs.Prelude.{◌≡◌};
ghost use Rattle.mbj_manager.specs.Inside.LaneQueues.{placed_in};

use crate::lane_queue::LaneQueue;
use crate::lane_queues::LaneQueues;
use mbj_cbc::CbcKernel;
use mbj_ccm::CcmKernel;
use mbj_cmac::CmacKernel;
use mbj_hmac::{Hmac1Kernel, Hmac256Kernel, Hmac512Kernel};
use mbj_stage::JobKernel;

/// The kernel of a kind, whose lane queue is one of a manager's.
pub trait HasQueue: JobKernel {
    /// The lane queue of the kind.
    fn queue(queues: &LaneQueues) -> &LaneQueue<Self>
        ensures { result.now ≡ placed_in Self.kind queues.now };
}

impl HasQueue for CbcKernel<10> {
    fn queue(queues: &LaneQueues) -> &LaneQueue<Self> {
        &queues.cbc128
    }
}

impl HasQueue for CbcKernel<12> {
    fn queue(queues: &LaneQueues) -> &LaneQueue<Self> {
        &queues.cbc192
    }
}

impl HasQueue for CbcKernel<14> {
    fn queue(queues: &LaneQueues) -> &LaneQueue<Self> {
        &queues.cbc256
    }
}

impl HasQueue for CmacKernel<10> {
    fn queue(queues: &LaneQueues) -> &LaneQueue<Self> {
        &queues.cmac128
    }
}

impl HasQueue for CmacKernel<14> {
    fn queue(queues: &LaneQueues) -> &LaneQueue<Self> {
        &queues.cmac256
    }
}

impl HasQueue for Hmac1Kernel {
    fn queue(queues: &LaneQueues) -> &LaneQueue<Self> {
        &queues.hmac_sha1
    }
}

impl HasQueue for Hmac256Kernel {
    fn queue(queues: &LaneQueues) -> &LaneQueue<Self> {
        &queues.hmac_sha256
    }
}

impl HasQueue for Hmac512Kernel {
    fn queue(queues: &LaneQueues) -> &LaneQueue<Self> {
        &queues.hmac_sha512
    }
}

impl HasQueue for CcmKernel<10> {
    fn queue(queues: &LaneQueues) -> &LaneQueue<Self> {
        &queues.ccm128
    }
}

impl HasQueue for CcmKernel<12> {
    fn queue(queues: &LaneQueues) -> &LaneQueue<Self> {
        &queues.ccm192
    }
}

impl HasQueue for CcmKernel<14> {
    fn queue(queues: &LaneQueues) -> &LaneQueue<Self> {
        &queues.ccm256
    }
}
