//! `Ring` and its calls. A clause sees a ring as the list of its committed values, the list of its open ones, and the
//! place of its first value (`specs/Ring.antt`).
ghost use Rattle.std.specs.Prelude.{◌≡◌, ◌+◌, ◌%◌, ◌<◌, ◌≤◌, [], length, slice_get, Some, IfOk};
ghost use Rattle.std.specs.Option.{option_copied_mut, MatchOption};
ghost use Rattle.std.specs.Borrow.{sem};
ghost use Rattle.mbj_ring.specs.Ring.{ring, all_values, place_of, number_at, IsLive, IsWithin, with_committed, with_open_last, without_first};

use crate::cells::Cells;
use std::alloc::{AllocError, Global};
use std::marker::Model;

/// How many cells a ring has.
pub const CELLS: u32 = 512;

/// A law: a ring has this many cells.
pub fn a_ring_has_these_cells()
    ensures { CELLS ≡ 512 }
{}

/// A queue of committed values in `CELLS` cells of one block of memory, with open cells behind them.
///
/// The number of a value's cell is its place. The committed values stand at places that follow each other, and after
/// the last place comes 0; the open cells are the next ones, in the order in which they were opened. A cell holds a
/// value exactly where the ring has one. A dropped ring drops its values, the open ones too.
///
/// ```
/// ring.open_cell(value);
/// ring.commit()
/// ```
pub struct Ring<T> {
    cells: Cells<T>,
    first: u32,
    len: u32,
    open_len: u32,
    alloc: Global,
}

impl<T> Model for Ring<T> {
    ghost use Rattle.mbj_ring.specs.Ring.{RingState};

    ghost Value = { RingState T };

    ghost use Rattle.mbj_ring.specs.Inside.Laid.{state_of, IsRing};

    ghost view = { state_of };

    ghost invariant = { IsRing };
}

/// The place that is `distance` cells after `first`, round the end.
fn place_after(first: u32, distance: u32) -> u32
    requires first { first < CELLS }
    requires distance { distance ≤ CELLS }
    ensures { result ≡ (first + distance) % CELLS }
{
    let unwrapped = first + distance;
    unwrapped % CELLS
}

impl<T> Ring<T> {
    ghost use Rattle.mbj_ring.specs.RingLends.{LendsOpen, LendsOpenAt, LendsFront, LendsAt};

    /// Returns a ring with nothing in it. It takes the memory of all cells; no other call takes any.
    ///
    /// Returns `AllocError` for want of memory.
    pub fn new(alloc: Global) -> Result<Ring<T>, AllocError>
        ensures { IfOk result (λ r. r ≡ ring [] [] 0) }
    {
        let cells = Cells::allocate(&alloc, CELLS as usize)?;
        Ok(Ring {
            cells,
            first: 0,
            len: 0,
            open_len: 0,
            alloc,
        })
    }

    /// Returns how many values are committed and not popped. Together with the open ones they are at most `CELLS`.
    pub fn len(&self) -> u32
        ensures len { result ≡ length self.now.values }
        ensures within { IsWithin self.now }
    {
        self.len
    }

    /// Returns how many cells are open.
    pub fn open_len(&self) -> u32
        ensures len { result ≡ length self.now.opened }
        ensures within { IsWithin self.now }
    {
        self.open_len
    }

    /// Opens the cell after the committed values and the open ones, and puts `value` there. A cell must be free; the others
    /// that are open stay so.
    pub fn open_cell(&mut self, value: T)
        requires { length (all_values self.old) < CELLS }
        ensures { self.new ≡ with_open_last self.old value }
    {
        let next = place_after(self.first, self.len + self.open_len);
        self.cells.write(next as usize, value);
        self.open_len += 1;
    }

    /// Lends the value of the first open cell. `None` exactly where no cell is open.
    pub fn open_mut(&mut self) -> Option<&mut T>
        ensures* writes_back { sem 𝓛 (LendsOpen T.row self.entry result) }
        ensures value { option_copied_mut result ≡ slice_get self.old.opened 0 }
    {
        if self.open_len == 0 {
            return None;
        }
        let next = place_after(self.first, self.len);
        Some(self.cells.get_mut(next as usize))
    }

    /// Lends the value of open cell `number`, which is below `open_len`; the first opened is 0.
    pub fn open_at(&mut self, number: u32) -> &mut T
        requires { number < length self.old.opened }
        ensures* writes_back { sem 𝓛 (LendsOpenAt T.row self.entry number result) }
        ensures value { slice_get self.old.opened number ≡ Some result.now }
    {
        let next = place_after(self.first, self.len + number);
        self.cells.get_mut(next as usize)
    }

    /// Puts the first open value last among the committed ones, and returns its place. The other open ones stay so. A cell
    /// must be open.
    pub fn commit(&mut self) -> u32
        requires is_open { 0 < length self.old.opened }
        ensures place { result ≡ place_of self.old (length self.old.values) }
        ensures values { self.new ≡ with_committed self.old 1 }
    {
        let next = place_after(self.first, self.len);
        self.len += 1;
        self.open_len -= 1;
        next
    }

    /// Puts all open values behind the committed ones.
    fn commit_all(&mut self)
        ensures { self.new ≡ ring (all_values self.old) [] self.old.first }
    {
        self.len += self.open_len;
        self.open_len = 0;
    }

    /// Lends the first value. `None` exactly where the ring has no committed value.
    pub fn front_mut(&mut self) -> Option<&mut T>
        ensures* writes_back { sem 𝓛 (LendsFront T.row self.entry result) }
        ensures value { option_copied_mut result ≡ slice_get self.old.values 0 }
    {
        if self.len == 0 {
            return None;
        }
        Some(self.cells.get_mut(self.first as usize))
    }

    /// Lends the value at a place where one is committed.
    pub fn at_mut(&mut self, place: u32) -> &mut T
        requires { IsLive self.old place }
        ensures* writes_back { sem 𝓛 (LendsAt T.row self.entry place result) }
        ensures value { slice_get self.old.values (number_at self.old place) ≡ Some result.now }
    {
        self.cells.get_mut(place as usize)
    }

    /// Takes the first value out. The next one is first then, one place on. `None` exactly where the ring has no
    /// committed value; the ring stays as it is.
    pub fn pop(&mut self) -> Option<T>
        ensures value { result ≡ slice_get self.old.values 0 }
        ensures rest { MatchOption result (self.new ≡ self.old) (λ _. self.new ≡ without_first self.old) }
    {
        if self.len == 0 {
            return None;
        }
        let place = self.first;
        self.first = place_after(place, 1);
        self.len -= 1;
        Some(self.cells.read(place as usize))
    }
}

impl<T: Drop> Drop for Ring<T> {
    fn drop(mut self) {
        self.commit_all();
        while let Some(_value) = self.pop() {}
        let Ring {
            cells,
            first: _,
            len: _,
            open_len: _,
            alloc,
        } = self;
        cells.deallocate(&alloc, CELLS as usize);
    }
}
