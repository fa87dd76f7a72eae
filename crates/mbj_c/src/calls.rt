//! The calls of a handle, which the exports make.

ghost use Rattle.std.specs.Prelude.{◌≡◌, ◌<◌, ◌≤◌, IfOk, IfSome, OnOk, false, length};
ghost use Rattle.mbj_ring.specs.declared.ring.TheConstants.{CELLS};
ghost use Rattle.mbj_c.specs.State.{new_ranged};
ghost use Rattle.mbj_c.specs.Filling.{filled, filled_cell, made};
ghost use Rattle.mbj_c.specs.Giving.{IsDrained, IsReturned, answered};
ghost use Rattle.mbj_c.specs.declared.giving.Call.TheVariants as calls;
ghost use Rattle.mbj_c.specs.Counts.{IsCounted, queue_size};
ghost use Rattle.mbj_c.specs.Inside.Answers.{IsDone};

use crate::counts::Counts;
use crate::giving::{Call, RawDone};
use crate::handle::Handle;
use crate::job::RawJob;
use crate::ranged::{Keeping, RangedManager};
use crate::refusal::Refusal;
use crate::words::kind_at;
use std::alloc::{AllocError, Global};

/// A new manager on the heap.
fn boxed(alloc: Global, keeping: Keeping) -> Result<Box<RangedManager>, AllocError>
    ensures { IfOk result (λ b. b.value ≡ new_ranged) }
{
    let manager = RangedManager::new(alloc, keeping)?;
    Ok(Box::new(alloc, manager)?)
}

/// Makes a manager, if the handle has none.
pub(crate) fn make(alloc: Global, handle: &mut Handle, keeping: Keeping) -> Result<(), Refusal>
    ensures { IsDone (made handle.old.manager) handle.old.manager result handle.new.manager }
{
    if let Some(manager) = handle.take(alloc) {
        handle.put(manager);
        return Err(Refusal::HasManager);
    }
    handle.put(boxed(alloc, keeping)?);
    Ok(())
}

/// Fills an open cell, or the one behind those that are open.
pub(crate) fn fill_cell(
    alloc: Global,
    handle: &mut Handle,
    cell: u32,
    raw: &RawJob<'_>,
) -> Result<(), Refusal>
    requires cell { IfSome handle.old.manager (λ k. cell ≤ length k.manager.opened) }
    ensures done { IsDone (filled_cell cell raw.now handle.old.manager) handle.old.manager result handle.new.manager }
    ensures within { OnOk result (cell < CELLS) }
{
    let Some(mut manager) = handle.take(alloc) else {
        return Err(Refusal::NoManager);
    };
    let answer = manager.fill(alloc, cell, raw);
    handle.put(manager);
    answer
}

/// Fills the first open cell.
pub(crate) fn fill(alloc: Global, handle: &mut Handle, raw: &RawJob<'_>) -> Result<(), Refusal>
    ensures { IsDone (filled raw.now handle.old.manager) handle.old.manager result handle.new.manager }
{
    fill_cell(alloc, handle, 0, raw)
}

/// Makes a call that may give a result back, and tells C of it.
pub(crate) fn give(
    alloc: Global,
    handle: &mut Handle,
    call: Call,
    out: &mut RawDone<'_>,
    refusal: &mut u32,
) -> bool
    ensures state { handle.new.manager ≡ (answered call handle.old.manager out.old).1 }
    ensures returned { IsReturned (answered call handle.old.manager out.old).0 result refusal.new out.old out.new }
    ensures drained { call ≡ calls.Flush → result ≡ false → refusal.new ≡ 0 → IsDrained handle.old.manager }
{
    match handle.take(alloc) {
        Some(mut manager) => {
            let is_given = manager.give(call, out, refusal);
            handle.put(manager);
            is_given
        }
        None => {
            *refusal = Refusal::NoManager.code();
            false
        }
    }
}

/// How many jobs are submitted and not given back: none, if there is no manager.
pub(crate) fn queue_size(alloc: Global, handle: &mut Handle) -> u32
    ensures size { result ≡ queue_size handle.old.manager }
    ensures same { handle.new.manager ≡ handle.old.manager }
{
    match handle.take(alloc) {
        Some(manager) => {
            let size = manager.queue_size();
            handle.put(manager);
            size
        }
        None => 0,
    }
}

/// Tells what is counted of the lanes of the kind with this code, if there is a manager and such a kind.
pub(crate) fn count(alloc: Global, handle: &mut Handle, kind: u32, out: &mut Counts) -> bool
    ensures counted { IsCounted handle.old.manager kind result out.old out.new }
    ensures same { handle.new.manager ≡ handle.old.manager }
{
    let Some(kind) = kind_at(kind) else {
        return false;
    };
    let Some(manager) = handle.take(alloc) else {
        return false;
    };
    *out = manager.counts(kind);
    handle.put(manager);
    true
}

/// How many bytes the idle cells keep.
pub(crate) fn held(alloc: Global, handle: &mut Handle) -> usize
    ensures same { handle.new.manager ≡ handle.old.manager }
{
    match handle.take(alloc) {
        Some(manager) => {
            let held = manager.held();
            handle.put(manager);
            held
        }
        None => 0,
    }
}

/// Frees what the idle cells keep.
pub(crate) fn trim(alloc: Global, handle: &mut Handle)
    ensures same { handle.new.manager ≡ handle.old.manager }
{
    if let Some(mut manager) = handle.take(alloc) {
        manager.trim();
        handle.put(manager);
    }
}
