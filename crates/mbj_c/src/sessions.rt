//! The key sessions that a manager uses.
ghost use Rattle.std.specs.Prelude.{◌≡◌, ◌<◌, IfOk, length};
ghost use Rattle.mbj_manager.specs.State.{counted, entered, finds};
ghost use Rattle.mbj_c.specs.KeySets.{KnowsAll};

use crate::key_set::KeySet;
use mbj_keys::Notes;
use mbj_manager::Manager;
use std::alloc::{AllocError, Global};
use std::marker::Model;

/// A set of key sessions, and notes that know the entry of each. Contracts see the notes.
#[derive(Drop)]
pub struct Sessions {
    set: KeySet,
    notes: Notes,
}

impl Model for Sessions {
    ghost use Rattle.std.specs.Prelude.{List};
    ghost use Rattle.mbj_keys.specs.Sessions.{AreOf, Known};

    ghost Value = { List Known };

    ghost view = { λ s. s.notes };

    ghost invariant = { λ s. AreOf s.set s.notes };
}

impl Sessions {
    /// The sessions of a set, each learnt: a key that no thread has expanded yet is expanded now.
    ///
    /// Returns `AllocError` for want of memory.
    pub(crate) fn learn(alloc: Global, set: &KeySet) -> Result<Sessions, AllocError>
        ensures { IfOk result (KnowsAll set.now) }
    {
        let set = set.share()?;
        let mut notes = Notes::new(alloc, set.keys())?;
        set.keys().learn_all(alloc, &mut notes)?;
        Ok(Sessions { set, notes })
    }

    /// Submits the first open job, with the entry of its session if that has the job's key.
    pub(crate) fn submit(&mut self, manager: &mut Manager)
        requires is_open { 0 < length manager.old.opened }
        ensures same { self.new ≡ self.old }
        ensures state { manager.new ≡ counted (finds self.old manager.old.opened) manager.old (entered manager.old) }
    {
        manager.enter_in(self.set.keys(), &mut self.notes);
    }
}
