//! Shared keys, and what a party knows of them.

ghost use Rattle.std.specs.Prelude.{◌≡◌, ◌<◌, ◌++◌, ◌∷◌, [], IfOk, length, option_to_list};
ghost use Rattle.std.specs.Bool.{OnFalse, OnTrue};
ghost use Rattle.mbj_types.specs.Blank.{blank};
ghost use Rattle.mbj_types.specs.Result.{result_of};
ghost use Rattle.mbj_manager.specs.Cells.{Open, IsFinished, given_by};
ghost use Rattle.mbj_manager.specs.State.{after_submit_in, with_open};
ghost use Rattle.mbj_ring.specs.declared.ring.TheConstants.{CELLS};
ghost use Rattle.mbj_work.specs.Knowing.{KnowsAll, keys_at, notes_in};

use crate::giving::{ReturnedJob, taken};
use crate::lender::Lender;
use mbj_keys::Notes;
use mbj_manager::{Cell, Manager};
use mbj_types::Job;
use std::alloc::{AllocError, Global};
use std::marker::Model;

/// Shared keys, and notes of the sessions that were learnt. Contracts see the notes.
#[derive(Drop)]
pub struct KnownKeys<'k> {
    lender: Lender<'k>,
    notes: Notes,
}

impl<'k> Model for KnownKeys<'k> {
    ghost use Rattle.std.specs.Prelude.{List};
    ghost use Rattle.mbj_keys.specs.Sessions.{AreOf, Known};
    ghost use Rattle.mbj_work.specs.Knowing.{keys_at};

    ghost Value = { List Known };

    ghost view = { λ k. k.notes };

    ghost invariant = { λ k. AreOf (keys_at k.lender) k.notes };
}

impl<'k> KnownKeys<'k> {
    /// Learns all sessions.
    ///
    /// Returns `AllocError` for want of memory.
    pub(crate) fn learn(alloc: Global, lender: Lender<'k>) -> Result<KnownKeys<'k>, AllocError>
        ensures { IfOk result (KnowsAll (keys_at lender.entry)) }
    {
        let mut notes = Notes::new(alloc, lender.keys())?;
        lender.keys().learn_all(alloc, &mut notes)?;
        Ok(KnownKeys { lender, notes })
    }

    /// Submits a job to a manager, with the entry of its session if that has the job's key, and gives one back in a cell.
    fn submit(&mut self, manager: &mut Manager, job: Job, given: &mut Cell) -> bool
        requires room { length manager.old.owed < CELLS }
        requires blank { given.old ≡ Open blank }
        ensures same { self.new ≡ self.old }
        ensures result { given_by result given.new ≡ (after_submit_in self.old (with_open manager.old job)).0 }
        ensures finished { OnTrue result (IsFinished given.new) }
        ensures blank { OnFalse result (given.new ≡ Open blank) }
        ensures state { manager.new ≡ (after_submit_in self.old (with_open manager.old job)).1 }
        ensures order { option_to_list (given_by result given.new) ++ manager.new.owed ≡ manager.old.owed ++ result_of job ∷ [] }
    {
        manager.put_next(job);
        manager.submit_in_into(self.lender.keys(), &mut self.notes, given)
    }
}

/// Submits a job to a manager, by the shared keys that are known, if any are. What it gives back goes through the cell.
pub(crate) fn submit_known(
    alloc: Global,
    manager: &mut Manager,
    known: &mut Option<KnownKeys>,
    job: Job,
    given: &mut Cell,
) -> Option<ReturnedJob>
    requires room { length manager.old.owed < CELLS }
    requires blank { given.old ≡ Open blank }
    ensures same { known.new ≡ known.old }
    ensures blank { given.new ≡ Open blank }
    ensures result { result ≡ (after_submit_in (notes_in known.old) (with_open manager.old job)).0 }
    ensures state { manager.new ≡ (after_submit_in (notes_in known.old) (with_open manager.old job)).1 }
    ensures order { option_to_list result ++ manager.new.owed ≡ manager.old.owed ++ result_of job ∷ [] }
{
    let is_given = match known {
        Some(known) => known.submit(manager, job, given),
        None => {
            manager.put_next(job);
            manager.submit_into(given)
        }
    };
    taken(alloc, is_given, given)
}
