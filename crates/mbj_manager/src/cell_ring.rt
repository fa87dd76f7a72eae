//! The cells of a manager: those in its ring, and those that are idle.

ghost use Rattle.std.specs.Prelude.{◌≡◌, ◌+◌, ◌<◌, [], length, slice_get, Some, IfOk, IfSome, All, vec_capacity};
ghost use Rattle.std.specs.Option.{option_copied_mut};
ghost use Rattle.std.specs.Borrow.{sem};
ghost use Rattle.mbj_types.specs.Blank.{blank};
ghost use Rattle.mbj_ring.specs.declared.ring.TheConstants.{CELLS};
ghost use Rattle.mbj_ring.specs.Ring.{ring, all_values, place_of, number_at, IsLive, IsWithin, with_committed, with_open_at, with_open_last, without_first};
ghost use Rattle.mbj_stage.specs.CourseState.{owed};
ghost use Rattle.mbj_manager.specs.Cells as cell;
ghost use Rattle.mbj_manager.specs.Cells.{IsFinished, course_in};
ghost use Rattle.mbj_manager.specs.Inside.Stock.{IsBlank};

use crate::cell::Cell;
use mbj_ring::{CELLS, Ring};
use mbj_types::Done;
use std::alloc::{AllocError, Global};
use std::marker::Model;
use std::mem;

/// A ring of cells, which contracts see as a `Ring`, and beside it the cells that aren't in use: together they are `CELLS`. A cell goes
/// from one to the other as a pointer, and the idle cell that came last is used first.
#[derive(Drop)]
pub struct CellRing {
    ring: Ring<Cell>,
    idle: Vec<Cell>,
    // How many bytes of memory an idle cell keeps at most for each field of its job.
    most: usize,
}

impl Model for CellRing {
    ghost use Rattle.std.specs.Prelude.{vec_capacity};
    ghost use Rattle.mbj_ring.specs.Ring.{RingState};
    ghost use Rattle.mbj_manager.specs.Cells.{Cell as CellState};
    ghost use Rattle.mbj_manager.specs.Inside.Stock.{IsStocked};

    ghost Value = { RingState CellState };

    ghost view = { λ r. r.ring };

    ghost invariant = { λ r. IsStocked r.ring r.idle.items (vec_capacity r.idle) };
}

/// All the cells, each with a blank job.
fn all_idle(alloc: Global) -> Result<Vec<Cell>, AllocError>
    ensures blanks { IfOk result (λ v. All IsBlank v.items) }
    ensures all { IfOk result (λ v. length v.items ≡ CELLS) }
    ensures room { IfOk result (λ v. vec_capacity v ≡ CELLS) }
{
    let mut idle = Vec::with_capacity(alloc, CELLS as usize)?;
    'making: for turn in 0..CELLS {
        let cell = Cell::blank(alloc)?;
        idle.push_reserved(cell);
    }
    Ok(idle)
}

impl CellRing {
    ghost use Rattle.mbj_manager.specs.Inside.CellRingLends.{LendsOpen, LendsOpenAt, LendsFront, LendsAt};

    /// A ring with no cell in use, whose idle cells keep at most `most` bytes of memory for each field of a job. It takes the memory of all
    /// cells.
    ///
    /// Returns `AllocError` for want of memory.
    pub(crate) fn new(alloc: Global, most: usize) -> Result<CellRing, AllocError>
        ensures { IfOk result (λ r. r ≡ ring [] [] 0) }
    {
        Ok(CellRing {
            ring: Ring::new(alloc)?,
            idle: all_idle(alloc)?,
            most,
        })
    }

    /// How many cells hold jobs that are submitted.
    pub(crate) fn len(&self) -> u32
        ensures len { result ≡ length self.now.values }
        ensures within { IsWithin self.now }
    {
        self.ring.len()
    }

    /// How many cells are open.
    pub(crate) fn open_len(&self) -> u32
        ensures len { result ≡ length self.now.opened }
        ensures within { IsWithin self.now }
    {
        self.ring.open_len()
    }

    /// Opens a cell with a blank job, behind those that are open.
    pub(crate) fn open_cell(&mut self)
        requires { length (all_values self.old) < CELLS }
        ensures { self.new ≡ with_open_last self.old (cell.Open blank) }
    {
        match self.idle.pop() {
            Some(cell) => self.ring.open_cell(cell),
            None => unreachable!(),
        }
    }

    /// A cell goes behind those that are open, and changes places with an idle one, which is blank.
    pub(crate) fn open_with(&mut self, filled: &mut Cell)
        requires { length (all_values self.old) < CELLS }
        ensures blank { filled.new ≡ cell.Open blank }
        ensures opened { self.new ≡ with_open_last self.old filled.old }
    {
        match self.idle.pop() {
            Some(idle) => self.ring.open_cell(mem::replace(filled, idle)),
            None => unreachable!(),
        }
    }

    /// Lends the first open cell. `None` exactly where no cell is open.
    pub(crate) fn open_mut(&mut self) -> Option<&mut Cell>
        ensures* writes_back { sem 𝓛 (LendsOpen self.entry result) }
        ensures value { option_copied_mut result ≡ slice_get self.old.opened 0 }
    {
        self.ring.open_mut()
    }

    /// Lends open cell `number`, the first opened being 0.
    pub(crate) fn open_at(&mut self, number: u32) -> &mut Cell
        requires { number < length self.old.opened }
        ensures* writes_back { sem 𝓛 (LendsOpenAt self.entry number result) }
        ensures value { slice_get self.old.opened number ≡ Some result.now }
    {
        self.ring.open_at(number)
    }

    /// The first open cell goes last among those that are submitted. Returns its place.
    pub(crate) fn commit(&mut self) -> u32
        requires is_open { 0 < length self.old.opened }
        ensures place { result ≡ place_of self.old (length self.old.values) }
        ensures values { self.new ≡ with_committed self.old 1 }
    {
        self.ring.commit()
    }

    /// Lends the first cell. `None` exactly where no job is submitted.
    pub(crate) fn front_mut(&mut self) -> Option<&mut Cell>
        ensures* writes_back { sem 𝓛 (LendsFront self.entry result) }
        ensures value { option_copied_mut result ≡ slice_get self.old.values 0 }
    {
        self.ring.front_mut()
    }

    /// Lends the cell at a place where a job is.
    pub(crate) fn at_mut(&mut self, place: u32) -> &mut Cell
        requires { IsLive self.old place }
        ensures* writes_back { sem 𝓛 (LendsAt self.entry place result) }
        ensures value { slice_get self.old.values (number_at self.old place) ≡ Some result.now }
    {
        self.ring.at_mut(place)
    }

    /// Gives the result of the first job back, which is finished. Its cell is idle then, and keeps memory of the job.
    pub(crate) fn pop(&mut self) -> Done
        requires some { 0 < length self.old.values }
        requires finished { IfSome (slice_get self.old.values 0) IsFinished }
        ensures result { IfSome (slice_get self.old.values 0) (λ v. result ≡ owed (course_in v)) }
        ensures rest { self.new ≡ without_first self.old }
    {
        match self.ring.pop() {
            Some(mut cell) => {
                let done = cell.take_done();
                cell.clear(self.most);
                self.idle.push_reserved(cell);
                done
            }
            None => unreachable!(),
        }
    }

    /// The first cell changes places with a blank one, which is idle then.
    pub(crate) fn give(&mut self, given: &mut Cell)
        requires some { 0 < length self.old.values }
        requires blank { given.old ≡ cell.Open blank }
        ensures given { slice_get self.old.values 0 ≡ Some given.new }
        ensures rest { self.new ≡ without_first self.old }
    {
        match self.ring.pop() {
            Some(cell) => self.idle.push_reserved(mem::replace(given, cell)),
            None => unreachable!(),
        }
    }

    /// An open cell changes places with another one.
    pub(crate) fn exchange(&mut self, number: u32, other: &mut Cell)
        requires { number < length self.old.opened }
        ensures other { slice_get self.old.opened number ≡ Some other.new }
        ensures rest { self.new ≡ with_open_at self.old number other.old }
    {
        mem::swap(self.ring.open_at(number), other);
    }

    /// How many bytes of memory the idle cells keep.
    pub(crate) fn held(&self) -> usize {
        let mut held = 0usize;
        'cells: for cell in self.idle.iter() {
            held = held.saturating_add(cell.capacity());
        }
        held
    }

    /// Frees the memory that the idle cells keep.
    pub(crate) fn trim(&mut self)
        ensures { self.new ≡ self.old }
    {
        'cells: for cell in self.idle.iter_mut() {
            cell.clear(0);
        }
    }
}
