//! Bursts of a seat: what its single calls do, for many jobs by one call.

ghost use Rattle.std.specs.Prelude.{◌≡◌, ◌+◌, ◌^◌, ◌<◌, ◌≤◌, Option, Result, Some};
ghost use Rattle.mbj_c.specs.Bursts.{IsAnswer, IsBurstTaken, IsTurnReturned, take_burst, with_returned};
ghost use Rattle.mbj_c.specs.Given.{Given};
ghost use Rattle.mbj_c.specs.SeatBursts.{IsBurstCollected, post_behind};
ghost use Rattle.mbj_c.specs.Seats.{MayAnswer};
ghost use Rattle.mbj_c.specs.declared.refusal.Refusal.{Refusal};

use crate::bursts::RawBurst;
use crate::giving::RawDone;
use crate::job::RawJob;
use crate::seat_calls;
use crate::seat_handle::SeatHandle;
use std::alloc::Global;

/// Posts a job and counts it, and writes why it is refused, or 0.
fn post_next(
    alloc: Global,
    handle: &mut SeatHandle,
    posted: &mut usize,
    raw: &RawJob<'_>,
    refusal: &mut u32,
)
    requires { posted.old + 1 < 2 ^ 64 }
    ensures answer { IsAnswer post_behind (Some raw.now) (Some refusal.new) (take_burst posted.old handle.old.seat) }
    ensures state { take_burst posted.new handle.new.seat
        ≡ with_returned post_behind (Some raw.now) (Some refusal.new) (take_burst posted.old handle.old.seat) }
    ensures few { posted.new ≤ posted.old + 1 }
{
    match seat_calls::post(alloc, handle, raw) {
        Ok(()) => {
            *refusal = 0;
            *posted += 1;
        }
        Err(reason) => *refusal = reason.code(),
    }
}

/// Posts the jobs one after another, and writes to each one's place why it is refused, or 0. Returns how many are posted.
pub(crate) fn post(
    alloc: Global,
    handle: &mut SeatHandle,
    jobs: &[RawJob<'_>],
    refusals: &mut [u32],
) -> usize
    ensures { IsBurstTaken post_behind jobs.now refusals.old refusals.new handle.old.seat result handle.new.seat }
{
    let mut posted = 0;
    'posting: for place in 0..jobs.len().min(refusals.len()) {
        post_next(
            alloc,
            handle,
            &mut posted,
            &jobs[place],
            &mut refusals[place],
        );
    }
    posted
}

/// Collects with room for a result, and counts the call.
fn collect_next(
    alloc: Global,
    handle: &mut SeatHandle,
    out: &mut RawDone<'_>,
    returned: &mut RawBurst,
)
    requires made { returned.old.made + 1 < 2 ^ 64 }
    requires given { returned.old.given + 1 < 2 ^ 64 }
    ensures { (answer : Result (Option Given) Refusal)
        × (MayAnswer handle.old.seat out.old answer handle.new.seat × IsTurnReturned answer returned.old returned.new out.old out.new) }
{
    let mut refusal = 0;
    let is_given = seat_calls::collect(alloc, handle, out, &mut refusal);
    returned.count(is_given, refusal);
}

/// Collects once for each room. Each result goes to the first room that has none.
pub(crate) fn collect(
    alloc: Global,
    handle: &mut SeatHandle,
    outs: &mut [RawDone<'_>],
    returned: &mut RawBurst,
)
    ensures { IsBurstCollected handle.old.seat outs.old returned.new outs.new handle.new.seat }
{
    *returned = RawBurst::new();
    'collecting: for turn in 0..outs.len() {
        collect_next(alloc, handle, &mut outs[returned.given], returned);
    }
}
