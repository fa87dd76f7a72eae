ghost use Rattle.std.specs.Prelude.{◌≡◌, Option, List, None, Some, option_map};
ghost use Rattle.mbj_keys.specs.Sessions.{Session};

use crate::key_set::KeySet;
use crate::raw_box::RawBox;
use std::alloc::Global;
use std::marker::{Model, Send};
use std::mem;
use std::ptr::null_mut;

/// A set of key sessions on the heap, as C holds it: one word, which is null if there is none. A handle is never dropped: what is
/// taken out of it is freed. Handles of several threads may be of one set, which is freed with the last of them and with the last
/// manager that uses it.
#[repr(C)]
pub struct KeysHandle {
    at: *mut u8,
    alloc: Global,
    pub ghost keys: { Option (List Session) },
}

impl Model for KeysHandle {
    ghost use Rattle.mbj_c.specs.Inside.Held.{owned_at};
    ghost use Rattle.mbj_c.specs.contracts.key_set.KeySet.{the_row};

    ghost also_owns = { λ h. owned_at the_row h.alloc h.at h.keys };
}

unsafe impl Send for KeysHandle {}

impl KeysHandle {
    /// A handle with no set.
    pub(crate) fn empty(alloc: Global) -> KeysHandle
        ensures { result.keys ≡ None }
    {
        KeysHandle {
            at: null_mut(),
            alloc,
        }
    }

    pub(crate) fn seal(set: RawBox<KeySet, Global>) -> KeysHandle
        ensures { result.keys ≡ Some set.value }
    {
        let RawBox { at, alloc } = set;
        KeysHandle {
            at: at as *mut u8,
            alloc,
        }
    }

    /// The set as its box's pointer. Returns `None` exactly where the handle has none.
    pub(crate) fn unseal(self) -> Option<RawBox<KeySet, Global>>
        ensures { option_map (λ b. b.value) result ≡ self.keys }
    {
        let KeysHandle { at, alloc } = self;
        if at.is_null() {
            None
        } else {
            Some(RawBox {
                at: at as *mut KeySet,
                alloc,
            })
        }
    }

    /// The set as a box. Returns `None` exactly where the handle has none.
    pub(crate) fn into_set(self) -> Option<Box<KeySet>>
        ensures { option_map (λ b. b.value) result ≡ self.keys }
    {
        match self.unseal() {
            Some(set) => Some(set.into_box()),
            None => None,
        }
    }

    /// Takes the set out. Returns `None` exactly where there is none.
    pub(crate) fn take(&mut self, alloc: Global) -> Option<Box<KeySet>>
        ensures set { option_map (λ b. b.value) result ≡ self.old.keys }
        ensures empty { self.new.keys ≡ None }
    {
        mem::replace(self, KeysHandle::empty(alloc)).into_set()
    }

    /// Puts a set in, in place of what there is, which is freed.
    pub(crate) fn put(&mut self, set: Box<KeySet>)
        ensures { self.new.keys ≡ Some set.value }
    {
        mem::replace(self, KeysHandle::seal(RawBox::from_box(set))).into_set();
    }
}
