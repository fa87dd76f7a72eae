ghost use Rattle.std.specs.Prelude.{◌≡◌, Option, None, Some, option_map};
ghost use Rattle.std.specs.Coded.{coded_option};
ghost use Rattle.mbj_c.specs.State.{RangedState};
ghost use Rattle.mbj_c.specs.contracts.ranged.RangedManager.{the_row as ranged_row};

use crate::ranged::RangedManager;
use crate::raw_box::RawBox;
use std::alloc::Global;
use std::marker::{Model, Send};
use std::mem;
use std::ptr::null_mut;

/// A manager on the heap, as C holds it: one word, which is null if there is none. A handle is never dropped: what is taken out
/// of it is freed.
#[repr(C)]
pub struct Handle {
    at: *mut u8,
    alloc: Global,
    pub ghost manager: { Option RangedState } by { coded_option ranged_row.coded },
}

impl Model for Handle {
    ghost use Rattle.mbj_c.specs.Inside.Held.{owned_at};
    ghost use Rattle.mbj_c.specs.contracts.ranged.RangedManager.{the_row};

    ghost also_owns = { λ h. owned_at the_row h.alloc h.at h.manager };
}

unsafe impl Send for Handle {}

impl Handle {
    /// A handle with no manager.
    pub(crate) fn empty(alloc: Global) -> Handle
        ensures { result.manager ≡ None }
    {
        Handle {
            at: null_mut(),
            alloc,
        }
    }

    pub(crate) fn seal(manager: RawBox<RangedManager, Global>) -> Handle
        ensures { result.manager ≡ Some manager.value }
    {
        let RawBox { at, alloc } = manager;
        Handle {
            at: at as *mut u8,
            alloc,
        }
    }

    /// The manager as its box's pointer. Returns `None` exactly where the handle has none.
    pub(crate) fn unseal(self) -> Option<RawBox<RangedManager, Global>>
        ensures { option_map (λ b. b.value) result ≡ self.manager }
    {
        let Handle { at, alloc } = self;
        if at.is_null() {
            None
        } else {
            Some(RawBox {
                at: at as *mut RangedManager,
                alloc,
            })
        }
    }

    /// The manager as a box. Returns `None` exactly where the handle has none.
    pub(crate) fn into_manager(self) -> Option<Box<RangedManager>>
        ensures { option_map (λ b. b.value) result ≡ self.manager }
    {
        match self.unseal() {
            Some(manager) => Some(manager.into_box()),
            None => None,
        }
    }

    /// Takes the manager out. Returns `None` exactly where there is none.
    pub(crate) fn take(&mut self, alloc: Global) -> Option<Box<RangedManager>>
        ensures manager { option_map (λ b. b.value) result ≡ self.old.manager }
        ensures empty { self.new.manager ≡ None }
    {
        mem::replace(self, Handle::empty(alloc)).into_manager()
    }

    /// Puts a manager in, in place of what there is, which is freed.
    pub(crate) fn put(&mut self, manager: Box<RangedManager>)
        ensures { self.new.manager ≡ Some manager.value }
    {
        mem::replace(self, Handle::seal(RawBox::from_box(manager))).into_manager();
    }
}
