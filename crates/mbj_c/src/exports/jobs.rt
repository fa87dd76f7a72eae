//! Jobs: filling them, submitting them, and taking their results, one by one or in bursts.

ghost use Rattle.std.specs.Prelude.{◌≡◌, ◌≢◌, length, Ok, false};
ghost use Rattle.mbj_c.specs.Bursts.{IsBurstTaken, IsBurstReturned, after_giving};
ghost use Rattle.mbj_c.specs.Codes.{code_of, refusal_code};
ghost use Rattle.mbj_c.specs.Filling.{filled, filled_cell};
ghost use Rattle.mbj_c.specs.Giving.{IsDrained, IsReturned, answered};
ghost use Rattle.mbj_c.specs.Submitting.{IsSubmitted};
ghost use Rattle.mbj_c.specs.declared.giving.Call.TheVariants as call;
ghost use Rattle.mbj_c.specs.declared.refusal.Refusal.TheVariants.{Memory};

use crate::bursts::{self, RawBurst};
use crate::calls;
use crate::giving::{Call, RawDone};
use crate::handle::Handle;
use crate::job::RawJob;
use crate::refusal::{Refusal, code};
use std::alloc::Global;

/// Fills the next job with a copy of C's, in place of what was filled and not submitted. Returns 0, or the code of a
/// refusal: `NoManager` exactly where there is no manager; else `Full` exactly where `CELLS` jobs are submitted and not given
/// back; else `Word` exactly where a code is no cipher, direction, order or authentication; else `Memory` for want of
/// memory. A refused call changes nothing. Whether the job's arguments are refused shows when its result is given back.
#[unsafe(no_mangle)]
pub extern "C" fn mbj_c_fill(alloc: Global, handle: &mut Handle, raw: &RawJob<'_>) -> u32
    ensures want_of_memory { result ≡ refusal_code Memory → (filled raw.now handle.old.manager).0 ≡ Ok tt }
    ensures unchanged { result ≡ refusal_code Memory → handle.new.manager ≡ handle.old.manager }
    ensures answer { result ≢ refusal_code Memory → result ≡ code_of (filled raw.now handle.old.manager).0 }
    ensures state { result ≢ refusal_code Memory → handle.new.manager ≡ (filled raw.now handle.old.manager).1 }
{
    code(calls::fill(alloc, handle, raw))
}

/// Submits the job that was filled, and gives the earliest job's result if that is finished.
///
/// Returns true exactly where it gives one, which is then written whole; else `out` stays as it was. `refusal` is 0, or the
/// code of a refusal: `NoManager` exactly where there is no manager; else `NoJob` exactly where no job is filled; else
/// `NoRoom` exactly where a job is in the manager, or is submitted by this call, and the room for bytes is shorter than the range
/// of the job whose result comes next, finished or not, or the room for the tag is under 64 bytes. A job without a cipher and one
/// that is refused have an empty range.
#[unsafe(no_mangle)]
pub extern "C" fn mbj_c_submit(
    alloc: Global,
    handle: &mut Handle,
    out: &mut RawDone<'_>,
    refusal: &mut u32,
) -> bool
    ensures state { handle.new.manager ≡ (answered call.Submit handle.old.manager out.old).1 }
    ensures returned { IsReturned (answered call.Submit handle.old.manager out.old).0 result refusal.new out.old out.new }
{
    calls::give(alloc, handle, Call::Submit, out, refusal)
}

/// Fills the next job with a copy of C's as `mbj_c_fill` does, and submits it as `mbj_c_submit` does, if it is filled.
///
/// It returns as `mbj_c_submit` does. `refusal` is 0, or the code of a refusal: that which `mbj_c_fill` returns, and then no job is filled;
/// else `NoRoom` exactly where `mbj_c_submit` refuses the job for that, which is filled then and not submitted.
#[unsafe(no_mangle)]
pub extern "C" fn mbj_c_submit_job(
    alloc: Global,
    handle: &mut Handle,
    raw: &RawJob<'_>,
    out: &mut RawDone<'_>,
    refusal: &mut u32,
) -> bool
    ensures { IsSubmitted raw.now handle.old.manager result refusal.new out.old out.new handle.new.manager }
{
    match handle.take(alloc) {
        Some(mut manager) => {
            let is_given = manager.submit_job(alloc, raw, out, refusal);
            handle.put(manager);
            is_given
        }
        None => {
            *refusal = Refusal::NoManager.code();
            false
        }
    }
}

/// Gives the earliest job's result if that is finished, and runs nothing. It returns as `mbj_c_submit` does, but never
/// `NoJob`.
#[unsafe(no_mangle)]
pub extern "C" fn mbj_c_get_completed(
    alloc: Global,
    handle: &mut Handle,
    out: &mut RawDone<'_>,
    refusal: &mut u32,
) -> bool
    ensures state { handle.new.manager ≡ (answered call.Completed handle.old.manager out.old).1 }
    ensures returned { IsReturned (answered call.Completed handle.old.manager out.old).0 result refusal.new out.old out.new }
{
    calls::give(alloc, handle, Call::Completed, out, refusal)
}

/// Finishes the earliest job, and gives its result. It returns as `mbj_c_get_completed` does; if it isn't refused, it
/// returns false exactly where no job is submitted and not given back.
#[unsafe(no_mangle)]
pub extern "C" fn mbj_c_flush(
    alloc: Global,
    handle: &mut Handle,
    out: &mut RawDone<'_>,
    refusal: &mut u32,
) -> bool
    ensures state { handle.new.manager ≡ (answered call.Flush handle.old.manager out.old).1 }
    ensures returned { IsReturned (answered call.Flush handle.old.manager out.old).0 result refusal.new out.old out.new }
    ensures drained { result ≡ false → refusal.new ≡ 0 → IsDrained handle.old.manager }
{
    calls::give(alloc, handle, Call::Flush, out, refusal)
}

/// Fills jobs with copies of C's, one after another: the first open cell as `mbj_c_fill` does, and then the cells behind it. Returns
/// how many are filled, and writes to each job's place among the refusals 0, or the code of a refusal, as `mbj_c_fill` returns it:
/// `Full` exactly where no cell is left behind those that the burst filled. A job that is refused takes no cell, and the jobs behind it
/// are filled. If there are fewer places than jobs, the jobs without a place are left out.
#[unsafe(no_mangle)]
pub extern "C" fn mbj_c_fill_burst(
    alloc: Global,
    handle: &mut Handle,
    jobs: &[RawJob<'_>],
    refusals: &mut [u32],
) -> u32
    ensures { IsBurstTaken filled_cell jobs.now refusals.old refusals.new handle.old.manager result handle.new.manager }
{
    bursts::fill(alloc, handle, jobs, refusals)
}

/// Makes `mbj_c_submit` as many times as there is room for a result, one after another. The results that are given go to the rooms in
/// order, the first one to the first room; rooms behind them stay as they were.
#[unsafe(no_mangle)]
pub extern "C" fn mbj_c_submit_burst(
    alloc: Global,
    handle: &mut Handle,
    outs: &mut [RawDone<'_>],
    returned: &mut RawBurst,
)
    ensures state { handle.new.manager ≡ (after_giving (length outs.old) call.Submit outs.old handle.old.manager).state }
    ensures returned { IsBurstReturned (after_giving (length outs.old) call.Submit outs.old handle.old.manager) returned.new outs.old outs.new }
{
    bursts::give(alloc, handle, Call::Submit, outs, returned);
}

/// Makes `mbj_c_get_completed` as many times as there is room for a result, and gives the results as `mbj_c_submit_burst` does.
#[unsafe(no_mangle)]
pub extern "C" fn mbj_c_get_completed_burst(
    alloc: Global,
    handle: &mut Handle,
    outs: &mut [RawDone<'_>],
    returned: &mut RawBurst,
)
    ensures state { handle.new.manager ≡ (after_giving (length outs.old) call.Completed outs.old handle.old.manager).state }
    ensures returned { IsBurstReturned (after_giving (length outs.old) call.Completed outs.old handle.old.manager) returned.new outs.old outs.new }
{
    bursts::give(alloc, handle, Call::Completed, outs, returned);
}

/// Makes `mbj_c_flush` as many times as there is room for a result, and gives the results as `mbj_c_submit_burst` does.
#[unsafe(no_mangle)]
pub extern "C" fn mbj_c_flush_burst(
    alloc: Global,
    handle: &mut Handle,
    outs: &mut [RawDone<'_>],
    returned: &mut RawBurst,
)
    ensures state { handle.new.manager ≡ (after_giving (length outs.old) call.Flush outs.old handle.old.manager).state }
    ensures returned { IsBurstReturned (after_giving (length outs.old) call.Flush outs.old handle.old.manager) returned.new outs.old outs.new }
{
    bursts::give(alloc, handle, Call::Flush, outs, returned);
}
