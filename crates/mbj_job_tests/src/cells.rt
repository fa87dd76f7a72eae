// Jobs in cells of the caller's, and memory that is kept.
ghost use Rattle.std.specs.Prelude.{◌≡◌};
ghost use Rattle.mbj_types.specs.Blank.{blank};
ghost use Rattle.mbj_manager.specs.Cells as cells;
ghost use Rattle.mbj_manager.specs.Cells.{IsFinished, IsOpen};

use crate::compare::expect;
use crate::manager::{TAG, check_taken_back, fill};
use mbj_manager::{Cell, KEPT_BYTES, Manager};
use mbj_types::Status;
use std::alloc::Global;
use std::process::Abort;
use std::test::Fail;

/// The result of the job that `fill` makes.
fn check_given(rt: &impl Abort, cell: &Cell)
    requires { IsFinished cell.now }
{
    expect(rt, "status", cell.status(), Status::Ok);
    expect(rt, "packet", cell.packet(), b"Hi There");
    expect(rt, "tag", cell.tag().bytes(), &TAG);
}

/// Takes the job in a blank cell that waits in a lane, and gives it back there.
fn check_flushed(rt: &impl Abort, manager: &mut Manager, cell: &mut Cell)
    requires { cell.old ≡ cells.Open blank }
{
    let is_given = manager.give_into(cell);
    assert!(rt; !is_given);
    let is_given = manager.flush_into(cell);
    assert!(rt; is_given);
    check_given(rt, cell);
}

/// Submits a job that was filled in the cell, and gets it back there.
fn check_in_cell(
    rt: &impl Abort,
    alloc: Global,
    manager: &mut Manager,
    cell: &mut Cell,
) -> Result<(), Fail>
    requires { IsOpen cell.old }
{
    fill(alloc, cell.job_mut())?;
    let open = manager.get_next_burst(1);
    assert!(rt; open > 0);
    manager.exchange(0, cell);
    cell.clear(KEPT_BYTES);
    let is_given = manager.submit_into(cell);
    assert!(rt; !is_given);
    check_flushed(rt, manager, cell);
    Ok(())
}

#[test]
fn a_job_comes_and_goes_in_a_cell(rt: HostRuntime) -> Result<(), Fail> {
    let alloc = rt.alloc();
    let mut cell = Cell::blank(alloc)?;
    check_in_cell(&rt, alloc, &mut Manager::new(alloc)?, &mut cell)?;
    cell.clear(KEPT_BYTES);
    let kept = cell.capacity();
    assert!(rt; kept > 0);
    cell.clear(0);
    expect(&rt, "freed", cell.capacity(), 0);
    Ok(())
}

fn check_kept(rt: &impl Abort, alloc: Global, mut manager: Manager) -> Result<(), Fail> {
    expect(rt, "new", manager.held(), 0);
    check_taken_back(rt, alloc, &mut manager)?;
    let held = manager.held();
    assert!(rt; held > 0);
    manager.trim();
    expect(rt, "trimmed", manager.held(), 0);
    Ok(())
}

#[test]
fn a_manager_keeps_short_memory_until_it_is_trimmed(rt: HostRuntime) -> Result<(), Fail> {
    check_kept(&rt, rt.alloc(), Manager::new(rt.alloc())?)
}

#[test]
fn a_keeping_manager_keeps_memory_until_it_is_trimmed(rt: HostRuntime) -> Result<(), Fail> {
    check_kept(&rt, rt.alloc(), Manager::keeping(rt.alloc())?)
}

#[test]
fn another_manager_keeps_none(rt: HostRuntime) -> Result<(), Fail> {
    let alloc = rt.alloc();
    let mut manager = Manager::keeping_none(alloc)?;
    check_taken_back(&rt, alloc, &mut manager)?;
    expect(&rt, "held", manager.held(), 0);
    Ok(())
}
