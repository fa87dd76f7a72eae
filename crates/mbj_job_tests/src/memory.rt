//! What takes no memory. Every test fills the same jobs, and then makes other calls of a manager; `tests/memory/run` compares how many
//! allocations each of them makes with those of `filling`, which makes no other call.
ghost use Rattle.std.specs.Prelude.{◌≡◌, ◌+◌, ◌≤◌, length, vec_capacity};
ghost use Rattle.mbj_types.specs.Blank.{blank};
ghost use Rattle.mbj_manager.specs.Cells as cells;

use crate::bursts::fill_at;
use crate::compare::expect;
use crate::sessions::{Known, one_session};
use mbj_manager::{Cell, KEPT_BYTES, Manager};
use mbj_types::Done;
use std::alloc::{AllocError, Global};
use std::process::Abort;
use std::test::Fail;

/// Enough jobs for every list of lanes to fill and run.
const JOBS: u32 = 400;

/// The calls that a test makes once all jobs are filled.
#[derive(Drop)]
enum Calls {
    Filling,
    Single,
    Bursts,
    Cells,
    Sessions,
}

/// A manager with jobs of every kind, which are filled and not submitted.
fn filled(rt: &impl Abort, alloc: Global) -> Result<Manager, AllocError> {
    let mut manager = Manager::new(alloc)?;
    manager.get_next_burst(JOBS);
    for i in 0..JOBS {
        fill_at(rt, alloc, &mut manager, i, i)?;
    }
    Ok(manager)
}

fn submit_each(rt: &impl Abort, manager: &mut Manager) {
    for _ in 0..JOBS {
        assert!(rt; manager.get_next_burst(0) > 0);
        let _submitted = manager.submit();
        let _completed = manager.get_completed();
    }
}

fn flush_each(manager: &mut Manager) {
    for _ in 0..JOBS {
        let _made = manager.make_room();
        let _flushed = manager.flush();
    }
}

fn submit_at_once(
    rt: &impl Abort,
    manager: &mut Manager,
    given: &mut Vec<Done>,
    flushed: &mut Vec<Done>,
)
    requires given { length given.old.items + JOBS ≤ vec_capacity given.old }
    requires flushed { length flushed.old.items + JOBS ≤ vec_capacity flushed.old }
{
    assert!(rt; JOBS <= manager.get_next_burst(0));
    let given = manager.submit_burst(JOBS, given) as u64;
    let flushed = manager.flush_burst(JOBS, flushed) as u64;
    expect(rt, "results of bursts", given + flushed, JOBS as u64);
}

/// Submits the first open job, whose result or whose predecessor's comes back in the cell, and clears the cell.
fn submit_in_cell(rt: &impl Abort, manager: &mut Manager, cell: &mut Cell)
    requires { cell.old ≡ cells.Open blank }
    ensures { cell.new ≡ cells.Open blank }
{
    assert!(rt; manager.get_next_burst(0) > 0);
    let _range = manager.first_range();
    if manager.submit_into(cell) {
        cell.clear(KEPT_BYTES);
    }
    if manager.flush_into(cell) {
        cell.clear(KEPT_BYTES);
    }
}

fn submit_in_cells(rt: &impl Abort, manager: &mut Manager, cell: &mut Cell)
    requires { cell.old ≡ cells.Open blank }
{
    'jobs: for _ in 0..JOBS {
        submit_in_cell(rt, manager, cell);
    }
}

fn submit_by_sessions(rt: &impl Abort, manager: &mut Manager, known: &mut Known) {
    for _ in 0..JOBS {
        let _given = known.submit(rt, manager);
    }
}

/// Fills the jobs, makes the calls, and finds that none waits.
fn check(rt: &impl Abort, alloc: Global, calls: Calls) -> Result<(), Fail> {
    let keys = one_session(alloc)?;
    let mut known = Known::nothing(alloc, &keys)?;
    known.learn(alloc)?;
    let mut cell = Cell::blank(alloc)?;
    let mut given = Vec::with_capacity(alloc, JOBS as usize)?;
    let mut flushed = Vec::with_capacity(alloc, JOBS as usize)?;
    let mut manager = filled(rt, alloc)?;
    match calls {
        Calls::Filling => {}
        Calls::Single => submit_each(rt, &mut manager),
        Calls::Bursts => submit_at_once(rt, &mut manager, &mut given, &mut flushed),
        Calls::Cells => submit_in_cells(rt, &mut manager, &mut cell),
        Calls::Sessions => submit_by_sessions(rt, &mut manager, &mut known),
    }
    flush_each(&mut manager);
    expect(rt, "jobs that wait", manager.queue_size(), 0);
    Ok(())
}

#[test]
fn filling(rt: HostRuntime) -> Result<(), Fail> {
    check(&rt, rt.alloc(), Calls::Filling)
}

#[test]
fn single_calls_take_no_memory(rt: HostRuntime) -> Result<(), Fail> {
    check(&rt, rt.alloc(), Calls::Single)
}

#[test]
fn bursts_take_no_memory(rt: HostRuntime) -> Result<(), Fail> {
    check(&rt, rt.alloc(), Calls::Bursts)
}

#[test]
fn cells_take_no_memory(rt: HostRuntime) -> Result<(), Fail> {
    check(&rt, rt.alloc(), Calls::Cells)
}

#[test]
fn sessions_take_no_memory(rt: HostRuntime) -> Result<(), Fail> {
    check(&rt, rt.alloc(), Calls::Sessions)
}
