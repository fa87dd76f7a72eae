ghost use Rattle.std.specs.Prelude.{◌≡◌, Option, None, Some, option_map};
ghost use Rattle.std.specs.Coded.{coded_option};
ghost use Rattle.mbj_c.specs.Seats.{SeatState};
ghost use Rattle.mbj_c.specs.contracts.seated.Seated.{the_row as seated_row};

use crate::raw_box::RawBox;
use crate::seated::Seated;
use std::alloc::Global;
use std::marker::{Model, Send};
use std::mem;
use std::ptr::null_mut;

/// A seat of the shared front on the heap, as C holds it: one word, which is null if there is none. A handle is never dropped: what is
/// taken out of it is freed.
#[repr(C)]
pub struct SeatHandle {
    at: *mut u8,
    alloc: Global,
    pub ghost seat: { Option SeatState } by { coded_option seated_row.coded },
}

impl Model for SeatHandle {
    ghost use Rattle.mbj_c.specs.Inside.Held.{owned_at};
    ghost use Rattle.mbj_c.specs.contracts.seated.Seated.{the_row};

    ghost also_owns = { λ h. owned_at the_row h.alloc h.at h.seat };
}

unsafe impl Send for SeatHandle {}

impl SeatHandle {
    /// A handle with no seat.
    pub(crate) fn empty(alloc: Global) -> SeatHandle
        ensures { result.seat ≡ None }
    {
        SeatHandle {
            at: null_mut(),
            alloc,
        }
    }

    pub(crate) fn seal(seat: RawBox<Seated, Global>) -> SeatHandle
        ensures { result.seat ≡ Some seat.value }
    {
        let RawBox { at, alloc } = seat;
        SeatHandle {
            at: at as *mut u8,
            alloc,
        }
    }

    /// The seat as its box's pointer. Returns `None` exactly where the handle has none.
    pub(crate) fn unseal(self) -> Option<RawBox<Seated, Global>>
        ensures { option_map (λ b. b.value) result ≡ self.seat }
    {
        let SeatHandle { at, alloc } = self;
        if at.is_null() {
            None
        } else {
            Some(RawBox {
                at: at as *mut Seated,
                alloc,
            })
        }
    }

    /// The seat as a box. Returns `None` exactly where the handle has none.
    pub(crate) fn into_seat(self) -> Option<Box<Seated>>
        ensures { option_map (λ b. b.value) result ≡ self.seat }
    {
        match self.unseal() {
            Some(seat) => Some(seat.into_box()),
            None => None,
        }
    }

    /// Takes the seat out. Returns `None` exactly where there is none.
    pub(crate) fn take(&mut self, alloc: Global) -> Option<Box<Seated>>
        ensures seat { option_map (λ b. b.value) result ≡ self.old.seat }
        ensures empty { self.new.seat ≡ None }
    {
        mem::replace(self, SeatHandle::empty(alloc)).into_seat()
    }

    /// Puts a seat in, in place of what there is, which is freed.
    pub(crate) fn put(&mut self, seat: Box<Seated>)
        ensures { self.new.seat ≡ Some seat.value }
    {
        mem::replace(self, SeatHandle::seal(RawBox::from_box(seat))).into_seat();
    }
}
