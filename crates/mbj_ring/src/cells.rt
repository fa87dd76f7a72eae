//! The cells: a block of raw memory, each cell of it empty or holding a value. Only these five functions touch the
//! pointer, and each has a proof by hand.
ghost use Rattle.std.specs.Prelude.{◌≡◌, ◌<◌, List, Option, Some, None, replicate, get_or, set, IfOk};
ghost use Rattle.std.specs.Borrow.{sem};
ghost use Rattle.mbj_ring.specs.Inside.Ownership.{cells_own};
ghost use Rattle.mbj_ring.specs.Inside.Cells.{IsEmpty, IsFilled};

use std::alloc::{AllocError, Allocator, Global};
use std::marker::{Model, Send};
use std::mem::{align_of, size_of};

/// No block has more bytes.
const MAX_BYTES: usize = isize::MAX as usize;

/// The owner of a block of cells: it alone reads and writes them, and gives the block back. `held` says what each cell
/// holds.
pub struct Cells<T> {
    base: *mut T,
    ghost held: { List (Option T) },
}

impl<T> Model for Cells<T> {
    ghost also_owns = { λ c. cells_own T.row c.base c.held };
}

unsafe impl<T: Send> Send for Cells<T> {}

impl<T> Cells<T> {
    ghost use Rattle.mbj_ring.specs.Inside.CellLends.{LendsCell};

    /// Takes memory for `count` cells, each of them empty.
    ///
    /// Returns `AllocError` for want of memory, also if the cells would have more than `MAX_BYTES`.
    pub(crate) fn allocate(alloc: &Global, count: usize) -> Result<Cells<T>, AllocError>
        requires { 0 < count }
        ensures { IfOk result (λ c. c.held ≡ replicate count None) }
    {
        if MAX_BYTES / count < size_of::<T>() {
            return Err(AllocError);
        }
        match alloc.allocate(count * size_of::<T>(), align_of::<T>()) {
            Ok(block) => Ok(Cells {
                base: block as *mut T,
            }),
            Err(error) => Err(error),
        }
    }

    /// Gives the memory of `count` cells back. No cell may hold a value still.
    pub(crate) fn deallocate(self, alloc: &Global, count: usize)
        requires { self.held ≡ replicate count None }
    {
        let Cells { base } = self;
        unsafe { alloc.deallocate(base as *mut u8, count * size_of::<T>(), align_of::<T>()) }
    }

    /// Moves `value` into an empty cell.
    pub(crate) fn write(&mut self, place: usize, value: T)
        requires { IsEmpty self.old.held place }
        ensures { self.new.held ≡ set self.old.held place (Some value) }
    {
        unsafe { self.base.add(place).write(value) }
    }

    /// Moves the value out of a cell, which is empty then.
    pub(crate) fn read(&mut self, place: usize) -> T
        requires { IsFilled self.old.held place }
        ensures value { get_or self.old.held place None ≡ Some result }
        ensures held { self.new.held ≡ set self.old.held place None }
    {
        unsafe { self.base.add(place).read() }
    }

    /// Lends the value in a cell.
    pub(crate) fn get_mut(&mut self, place: usize) -> &mut T
        requires { IsFilled self.old.held place }
        ensures* writes_back { sem 𝓛 (LendsCell T.row self.entry place result) }
        ensures value { get_or self.old.held place None ≡ Some result.now }
    {
        unsafe { &mut *self.base.add(place) }
    }
}
