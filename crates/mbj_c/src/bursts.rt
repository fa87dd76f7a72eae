//! Bursts: what the single calls do, for many jobs by one call.

ghost use Rattle.std.specs.Prelude.{◌≡◌, ◌+◌, ◌^◌, ◌<◌, ◌≤◌, IfSome, Option, Result, Some, length};
ghost use Rattle.mbj_c.specs.Bursts.{IsAnswer, IsBurstTaken, IsBurstReturned, IsTurnReturned, after_giving, take_burst, with_returned};
ghost use Rattle.mbj_c.specs.Filling.{filled_cell};
ghost use Rattle.mbj_c.specs.Given.{Given};
ghost use Rattle.mbj_c.specs.Giving.{IsReturned, answered};
ghost use Rattle.mbj_c.specs.declared.giving.RawDone.{RawDone};
ghost use Rattle.mbj_c.specs.declared.refusal.Refusal.{Refusal};

use crate::calls;
use crate::giving::{Call, RawDone};
use crate::handle::Handle;
use crate::job::RawJob;
use std::alloc::Global;

/// What is returned to C of a burst of calls that may give results back.
#[repr(C)]
#[derive(Clone, Copy, Debug, PartialEq, Eq)]
pub struct RawBurst {
    /// How many of the calls weren't refused.
    pub made: usize,
    /// How many results were given.
    pub given: usize,
    /// 0, or the code of the refusal of the last call.
    pub refusal: u32,
}

impl RawBurst {
    /// What is returned before the first call.
    pub(crate) fn new() -> RawBurst
        ensures { result ≡ record { made = 0; given = 0; refusal = 0 } }
    {
        RawBurst {
            made: 0,
            given: 0,
            refusal: 0,
        }
    }

    /// Counts a call, which gave a result or not and returned this code of its refusal, or 0.
    pub(crate) fn count(&mut self, is_given: bool, refusal: u32)
        requires made { self.old.made + 1 < 2 ^ 64 }
        requires given { self.old.given + 1 < 2 ^ 64 }
        ensures { (answer : Result (Option Given) Refusal) (before after : RawDone) → IsReturned answer is_given refusal before after
            → IsTurnReturned answer self.old self.new before after }
    {
        *self = RawBurst {
            made: self.made + usize::from(refusal == 0),
            given: self.given + usize::from(is_given),
            refusal,
        };
    }
}

/// Fills the cell behind those that the burst filled, and writes why the job is refused, or 0.
fn fill_next(
    alloc: Global,
    handle: &mut Handle,
    filled: &mut u32,
    raw: &RawJob<'_>,
    refusal: &mut u32,
)
    requires cell { IfSome handle.old.manager (λ k. filled.old ≤ length k.manager.opened) }
    ensures answer { IsAnswer filled_cell (Some raw.now) (Some refusal.new) (take_burst filled.old handle.old.manager) }
    ensures state { take_burst filled.new handle.new.manager
        ≡ with_returned filled_cell (Some raw.now) (Some refusal.new) (take_burst filled.old handle.old.manager) }
    ensures cell { IfSome handle.new.manager (λ k. filled.new ≤ length k.manager.opened) }
{
    match calls::fill_cell(alloc, handle, *filled, raw) {
        Ok(()) => {
            *refusal = 0;
            *filled += 1;
        }
        Err(reason) => *refusal = reason.code(),
    }
}

/// Fills the jobs one after another, and writes to each one's place why it is refused, or 0. Returns how many are filled.
pub(crate) fn fill(
    alloc: Global,
    handle: &mut Handle,
    jobs: &[RawJob<'_>],
    refusals: &mut [u32],
) -> u32
    ensures { IsBurstTaken filled_cell jobs.now refusals.old refusals.new handle.old.manager result handle.new.manager }
{
    let mut filled = 0;
    'filling: for place in 0..jobs.len().min(refusals.len()) {
        fill_next(
            alloc,
            handle,
            &mut filled,
            &jobs[place],
            &mut refusals[place],
        );
    }
    filled
}

/// Makes the call with room for a result, and counts it.
fn give_next(
    alloc: Global,
    handle: &mut Handle,
    call: Call,
    out: &mut RawDone<'_>,
    returned: &mut RawBurst,
)
    requires made { returned.old.made + 1 < 2 ^ 64 }
    requires given { returned.old.given + 1 < 2 ^ 64 }
    ensures state { handle.new.manager ≡ (answered call handle.old.manager out.old).1 }
    ensures returned { IsTurnReturned (answered call handle.old.manager out.old).0 returned.old returned.new out.old out.new }
{
    let mut refusal = 0;
    let is_given = calls::give(alloc, handle, call, out, &mut refusal);
    returned.count(is_given, refusal);
}

/// Makes the call once for each room. Each result goes to the first room that has none.
pub(crate) fn give(
    alloc: Global,
    handle: &mut Handle,
    call: Call,
    outs: &mut [RawDone<'_>],
    returned: &mut RawBurst,
)
    ensures state { handle.new.manager ≡ (after_giving (length outs.old) call outs.old handle.old.manager).state }
    ensures returned { IsBurstReturned (after_giving (length outs.old) call outs.old handle.old.manager) returned.new outs.old outs.new }
{
    *returned = RawBurst::new();
    'calling: for turn in 0..outs.len() {
        give_next(alloc, handle, call, &mut outs[returned.given], returned);
    }
}
