//! Jobs that come and go in a cell of the caller's: the cell changes places with one of the manager's, and no job is moved.

ghost use Rattle.std.specs.Prelude.{◌≡◌, ◌≢◌, ◌+◌, ◌<◌, ◌++◌, [], length, map, option_to_list, slice_get, take, IfSome, Some, false, is_some};
ghost use Rattle.std.specs.Bool.{OnFalse, OnTrue};
ghost use Rattle.mbj_types.specs.Blank.{blank};
ghost use Rattle.mbj_types.specs.Result.{result_of};
ghost use Rattle.mbj_keys.specs.Schedules.{IsScheduleOf};
ghost use Rattle.mbj_keys.specs.Sessions.{AreOf};
ghost use Rattle.mbj_ring.specs.declared.ring.TheConstants.{CELLS};
ghost use Rattle.mbj_manager.specs.Machine.Course.{flushed};
ghost use Rattle.mbj_manager.specs.State.{after_flush, after_get_completed, after_submit_by, after_submit_in, counted, entered, finds, with_open_at, with_open_last};
ghost use Rattle.mbj_manager.specs.Written.{first_range};
ghost use Rattle.mbj_manager.specs.Cells as cell;
ghost use Rattle.mbj_manager.specs.Cells.{IsFinished, IsOpen, given_by, job_in};

use super::Manager;
use crate::cell::Cell;
use mbj_aes::Schedule;
use mbj_keys::{Keys, Notes};

impl Manager {
    /// Exchanges the job in a cell with open job `i`, the first opened being 0. No job is moved.
    pub fn exchange(&mut self, i: u32, other: &mut Cell)
        requires number { i < length self.old.opened }
        requires is_open { IsOpen other.old }
        ensures state { self.new ≡ with_open_at self.old i (job_in other.old) }
    {
        self.engine.exchange(i, other);
    }

    /// How many cells are open.
    pub fn open_len(&self) -> u32
        ensures { result ≡ length self.now.opened }
    {
        self.engine.open_len()
    }

    /// Opens a cell behind those that are open, with the job in a cell of the caller's. The cells change places, so that the caller's is
    /// blank then. No job is moved.
    pub fn open_with(&mut self, filled: &mut Cell)
        requires room { length self.old.owed + length self.old.opened < CELLS }
        requires is_open { IsOpen filled.old }
        ensures blank { filled.new ≡ cell.Open blank }
        ensures state { self.new ≡ with_open_last self.old (job_in filled.old) }
    {
        self.engine.open_with(filled);
    }

    /// The range of its packet that the cipher of the earliest job writes, as its offset and its length: empty if the job is refused or
    /// has no cipher.
    ///
    /// Returns `None` exactly where no job is submitted and not given back.
    pub fn first_range(&mut self) -> Option<(u32, u32)>
        ensures same { self.new ≡ self.old }
        ensures range { result ≡ first_range self.old }
    {
        self.engine.first_range()
    }

    /// Does what `enter` does, with the schedule that `submit_in` finds.
    pub fn enter_in(&mut self, keys: &Keys, notes: &mut Notes)
        requires is_open { 0 < length self.old.opened }
        requires notes { AreOf keys.now notes.old }
        ensures same { notes.new ≡ notes.old }
        ensures state { self.new ≡ counted (finds notes.old self.old.opened) self.old (entered self.old) }
    {
        let found = self.find(keys, notes);
        self.enter(found);
    }

    /// Finishes the earliest job as `flush` does, and gives nothing back.
    pub fn finish_first(&mut self)
        ensures state { self.new ≡ record (self.old) { machine = flushed self.old.machine } }
        ensures done { self.old.owed ≢ [] → slice_get self.new.machine.left 0 ≡ Some [] }
    {
        self.engine.flush_first();
    }

    /// Does what `submit` does, but gives a job back in its cell, which changes places with the blank cell `given`. Returns whether it
    /// gives one; else `given` stays blank. No result is moved.
    pub fn submit_into(&mut self, given: &mut Cell) -> bool
        requires is_open { 0 < length self.old.opened }
        requires blank { given.old ≡ cell.Open blank }
        ensures result { given_by result given.new ≡ (after_submit_by false self.old).0 }
        ensures finished { OnTrue result (IsFinished given.new) }
        ensures blank { OnFalse result (given.new ≡ cell.Open blank) }
        ensures state { self.new ≡ (after_submit_by false self.old).1 }
        ensures order { option_to_list (given_by result given.new) ++ self.new.owed
            ≡ self.old.owed ++ map result_of (take 1 self.old.opened) }
    {
        self.submit_by_into(None, given)
    }

    /// Does what `submit_in` does, and gives a job back as `submit_into` does.
    pub fn submit_in_into(&mut self, keys: &Keys, notes: &mut Notes, given: &mut Cell) -> bool
        requires is_open { 0 < length self.old.opened }
        requires notes { AreOf keys.now notes.old }
        requires blank { given.old ≡ cell.Open blank }
        ensures same { notes.new ≡ notes.old }
        ensures result { given_by result given.new ≡ (after_submit_in notes.old self.old).0 }
        ensures finished { OnTrue result (IsFinished given.new) }
        ensures blank { OnFalse result (given.new ≡ cell.Open blank) }
        ensures state { self.new ≡ (after_submit_in notes.old self.old).1 }
        ensures order { option_to_list (given_by result given.new) ++ self.new.owed
            ≡ self.old.owed ++ map result_of (take 1 self.old.opened) }
    {
        let found = self.find(keys, notes);
        self.submit_by_into(found, given)
    }

    /// Submits the first open job, whose key's schedule was found or wasn't, and gives a job back as `submit_into` does.
    fn submit_by_into(&mut self, found: Option<&Schedule>, given: &mut Cell) -> bool
        requires is_open { 0 < length self.old.opened }
        requires schedule { IfSome found (λ s. IfSome (slice_get self.old.opened 0) (λ j. IsScheduleOf j.key s.now)) }
        requires blank { given.old ≡ cell.Open blank }
        ensures result { given_by result given.new ≡ (after_submit_by (is_some found.entry) self.old).0 }
        ensures finished { OnTrue result (IsFinished given.new) }
        ensures blank { OnFalse result (given.new ≡ cell.Open blank) }
        ensures state { self.new ≡ (after_submit_by (is_some found.entry) self.old).1 }
        ensures order { option_to_list (given_by result given.new) ++ self.new.owed
            ≡ self.old.owed ++ map result_of (take 1 self.old.opened) }
    {
        self.enter(found);
        self.give_into(given)
    }

    /// Does what `flush` does, and gives the job back as `submit_into` does.
    pub fn flush_into(&mut self, given: &mut Cell) -> bool
        requires blank { given.old ≡ cell.Open blank }
        ensures result { given_by result given.new ≡ (after_flush self.old).0 }
        ensures finished { OnTrue result (IsFinished given.new) }
        ensures blank { OnFalse result (given.new ≡ cell.Open blank) }
        ensures state { self.new ≡ (after_flush self.old).1 }
        ensures none { OnFalse result (self.old.owed ≡ []) }
        ensures order { option_to_list (given_by result given.new) ++ self.new.owed ≡ self.old.owed }
    {
        self.engine.flush_first();
        self.engine.give_into(given)
    }

    /// Does what `get_completed` does, and gives the job back as `submit_into` does.
    pub fn give_into(&mut self, given: &mut Cell) -> bool
        requires blank { given.old ≡ cell.Open blank }
        ensures result { given_by result given.new ≡ (after_get_completed self.old).0 }
        ensures finished { OnTrue result (IsFinished given.new) }
        ensures blank { OnFalse result (given.new ≡ cell.Open blank) }
        ensures state { self.new ≡ (after_get_completed self.old).1 }
        ensures order { option_to_list (given_by result given.new) ++ self.new.owed ≡ self.old.owed }
    {
        self.engine.give_into(given)
    }
}
