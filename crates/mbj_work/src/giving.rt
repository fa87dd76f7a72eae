//! Results that a manager gives back, each with its job.
ghost use Rattle.std.specs.Prelude.{◌≡◌, ◌++◌, [], None, option_to_list};
ghost use Rattle.std.specs.Bool.{OnFalse, OnTrue};
ghost use Rattle.mbj_types.specs.Blank.{blank};
ghost use Rattle.mbj_manager.specs.Cells.{Open, IsFinished, given_by};
ghost use Rattle.mbj_manager.specs.State.{after_flush, after_get_completed};

use mbj_front::Returned;
use mbj_manager::{Cell, Manager};
use mbj_types::{Done, Job};
use std::alloc::Global;

/// A result with its job, whose packet is in the result, and whose memory goes home with it.
pub type ReturnedJob = Returned<Job, Done>;

/// What a manager gave back in the cell, if it gave something. The cell's job is blank then.
pub(crate) fn taken(alloc: Global, is_given: bool, given: &mut Cell) -> Option<ReturnedJob>
    requires finished { OnTrue is_given (IsFinished given.old) }
    requires blank { OnFalse is_given (given.old ≡ Open blank) }
    ensures result { result ≡ given_by is_given given.old }
    ensures blank { given.new ≡ Open blank }
{
    if !is_given {
        return None;
    }
    let (done, job) = given.take_parts(alloc);
    Some(Returned::new(done, Some(job)))
}

/// What the manager's `flush` gives back, through the cell.
pub(crate) fn flushed(alloc: Global, manager: &mut Manager, given: &mut Cell) -> Option<ReturnedJob>
    requires { given.old ≡ Open blank }
    ensures blank { given.new ≡ Open blank }
    ensures result { result ≡ (after_flush manager.old).0 }
    ensures state { manager.new ≡ (after_flush manager.old).1 }
    ensures none { result ≡ None → manager.old.owed ≡ [] }
    ensures order { option_to_list result ++ manager.new.owed ≡ manager.old.owed }
{
    let is_given = manager.flush_into(given);
    taken(alloc, is_given, given)
}

/// What the manager's `get_completed` gives back, through the cell.
pub(crate) fn completed(
    alloc: Global,
    manager: &mut Manager,
    given: &mut Cell,
) -> Option<ReturnedJob>
    requires { given.old ≡ Open blank }
    ensures blank { given.new ≡ Open blank }
    ensures result { result ≡ (after_get_completed manager.old).0 }
    ensures state { manager.new ≡ (after_get_completed manager.old).1 }
    ensures order { option_to_list result ++ manager.new.owed ≡ manager.old.owed }
{
    let is_given = manager.give_into(given);
    taken(alloc, is_given, given)
}
