ghost use Rattle.std.specs.Prelude.{◌≡◌, ◌≢◌, ◌+◌, ◌<◌, ◌≤◌, IfOk, IsTrue, OnOk, None, Ok, Some, [], false, length, map, slice_get};
ghost use Rattle.std.specs.Bool.{OnTrue};
ghost use Rattle.mbj_types.specs.Blank.{blank};
ghost use Rattle.mbj_ring.specs.declared.ring.TheConstants.{CELLS};
ghost use Rattle.mbj_c.specs.declared.giving.Call.TheVariants as calls;
ghost use Rattle.mbj_c.specs.Counts.{counts_of};
ghost use Rattle.mbj_c.specs.Filling.{filled_at, job_with, with_cell};
ghost use Rattle.mbj_c.specs.Giving.{IsReturned, IsReturnedAt, called_in, first_range, given_first, gone, has_job, has_room_for};
ghost use Rattle.mbj_c.specs.Inside.Answers.{IsDone};
ghost use Rattle.mbj_c.specs.KeySets.{using};
ghost use Rattle.mbj_c.specs.Inside.Room.{HasJob};
ghost use Rattle.mbj_c.specs.Ranges.{given_range};
ghost use Rattle.mbj_manager.specs.Cells as cells;
ghost use Rattle.mbj_manager.specs.Cells.{IsOpen, job_in};
ghost use Rattle.mbj_manager.specs.State.{after_get_completed, new_manager};
ghost use Rattle.mbj_c.specs.State.{new_ranged};
ghost use Rattle.mbj_c.specs.Submitting.{IsSubmittedAs, submitted_in};

use crate::counts::Counts;
use crate::giving::{Call, RawDone};
use crate::job::RawJob;
use crate::range::CipherRange;
use crate::refusal::Refusal;
use crate::sessions::Sessions;
use crate::words::Words;
use mbj_manager::{Cell, KEPT_BYTES, Manager, SMALL_BYTES};
use mbj_ring::CELLS;
use mbj_types::{Job, Kind};
use std::alloc::{AllocError, Global};
use std::marker::Model;

/// A manager, and a blank cell beside its own. The range that the earliest job gives back is read off its cell, so that the room for a
/// result can be looked at before the result is taken. If the manager uses a set of key sessions, it knows their schedules.
#[derive(Drop)]
pub struct RangedManager {
    manager: Manager,
    sessions: Option<Sessions>,
    // A blank cell beside the manager's own: C's next job is filled in it, and a result is written out of it.
    spare: Cell,
    // At most how many bytes of memory it keeps for each field of its job.
    most: usize,
}

impl Model for RangedManager {
    ghost use Rattle.std.specs.Coded.{codes};
    ghost use Rattle.mbj_manager.specs.StateCode.{state_code};
    ghost use Rattle.mbj_c.specs.State.{RangedState, ranged};
    ghost use Rattle.mbj_c.specs.Code.{ranged_code};
    ghost use Rattle.mbj_c.specs.Inside.Ranges.{IsRanged};

    ghost Value = { RangedState };

    ghost coded = { ranged_code (state_code (Prim.hlevel codes)) (Prim.hlevel codes) };

    ghost view = { λ m. ranged m.manager m.sessions };

    ghost invariant = { λ m. IsRanged m.manager m.spare };
}

/// Which blocks of jobs that were given back the cells of a manager keep for later ones.
#[derive(Clone, Copy)]
pub(crate) enum Keeping {
    /// Those of at most `SMALL_BYTES`.
    Short,
    /// Those of at most `KEPT_BYTES`.
    Long,
    /// None.
    Nothing,
}

/// A manager with no job.
///
/// Returns `AllocError` for want of memory.
fn manager(alloc: Global, keeping: Keeping) -> Result<Manager, AllocError>
    ensures { IfOk result (λ m. m ≡ new_manager) }
{
    match keeping {
        Keeping::Short => Manager::new(alloc),
        Keeping::Long => Manager::keeping(alloc),
        Keeping::Nothing => Manager::keeping_none(alloc),
    }
}

/// At most how many bytes a cell keeps for each field of a job.
fn most_kept(keeping: Keeping) -> usize {
    match keeping {
        Keeping::Short => SMALL_BYTES,
        Keeping::Long => KEPT_BYTES,
        Keeping::Nothing => 0,
    }
}

/// The job in `filled` takes the place of that in open cell `cell`, the first opened being 0, or goes behind the open ones if there are
/// `cell` of them. `filled` is blank then, and keeps memory of at most `most` bytes for each field of a job.
fn fill_cell(manager: &mut Manager, cell: u32, filled: &mut Cell, most: usize)
    requires cell { cell ≤ length manager.old.opened }
    requires room { length manager.old.owed + cell < CELLS }
    requires is_open { IsOpen filled.old }
    ensures state { manager.new ≡ with_cell cell (job_in filled.old) manager.old }
    ensures blank { filled.new ≡ cells.Open blank }
{
    if cell == manager.open_len() {
        manager.open_with(filled);
    } else {
        manager.exchange(cell, filled);
        filled.clear(most);
    }
}

/// Fills a cell with C's job.
///
/// Returns `AllocError` for want of memory.
fn fill_spare(
    alloc: Global,
    raw: &RawJob<'_>,
    words: Words,
    spare: &mut Cell,
) -> Result<(), AllocError>
    requires is_open { IsOpen spare.old }
    ensures { IfOk result (λ _. spare.new ≡ cells.Open (job_with raw.now words)) }
{
    let job = spare.job_mut();
    raw.refill(alloc, words, job)
}

/// Whether there is room for the range that a job gives back. There is if it is for the one that the job says: else its arguments are
/// checked.
fn fits(job: &Job, out: &RawDone<'_>) -> bool
    ensures { result ≡ has_room_for (Some (given_range job.now)) out.now }
{
    out.has_room(job.cipher_len) || out.has_room(CipherRange::given_by(job).len)
}

/// Whether there is room for the range that the first open job gives back.
fn open_fits(manager: &mut Manager, out: &RawDone<'_>) -> bool
    requires { 0 < length manager.old.opened }
    ensures room { result ≡ has_room_for (slice_get (map given_range manager.old.opened) 0) out.now }
    ensures same { manager.new ≡ manager.old }
{
    let job = manager.burst_mut(0);
    fits(job, out)
}

impl RangedManager {
    /// A manager with no job, whose cells keep memory of the jobs that were given back, or keep none. It takes all the memory that the
    /// manager needs.
    ///
    /// Returns `AllocError` for want of memory.
    pub(crate) fn new(alloc: Global, keeping: Keeping) -> Result<RangedManager, AllocError>
        ensures { IfOk result (λ m. m ≡ new_ranged) }
    {
        let manager = manager(alloc, keeping)?;
        let spare = Cell::blank(alloc)?;
        Ok(RangedManager {
            manager,
            sessions: None,
            spare,
            most: most_kept(keeping),
        })
    }

    /// Uses these key sessions from now on, in place of those that it used.
    pub(crate) fn use_sessions(&mut self, sessions: Sessions)
        ensures { self.new ≡ using sessions self.old }
    {
        self.sessions = Some(sessions);
    }

    pub(crate) fn queue_size(&self) -> u32
        ensures { result ≡ length self.now.manager.owed }
    {
        self.manager.queue_size()
    }

    pub(crate) fn counts(&self, kind: Kind) -> Counts
        ensures { result ≡ counts_of kind self.now.manager }
    {
        Counts {
            rounds: self.manager.rounds(kind),
            blocks: self.manager.blocks(kind),
            flush_runs: self.manager.flush_runs(),
            waiting: self.manager.waiting(kind),
        }
    }

    /// Fills an open cell, or the one behind those that are open, with a copy of C's job. If it returns a refusal, nothing
    /// changes.
    pub(crate) fn fill(&mut self, alloc: Global, cell: u32, raw: &RawJob<'_>) -> Result<(), Refusal>
        requires cell { cell ≤ length self.old.manager.opened }
        ensures done { IsDone (filled_at cell raw.now self.old) self.old result self.new }
        ensures within { OnOk result (cell < CELLS) }
        ensures open { OnOk result (cell < length self.new.manager.opened) }
    {
        if cell >= CELLS - self.manager.queue_size() {
            return Err(Refusal::Full);
        }
        let Some(words) = raw.words() else {
            return Err(Refusal::Word);
        };
        match fill_spare(alloc, raw, words, &mut self.spare) {
            Ok(()) => {
                fill_cell(&mut self.manager, cell, &mut self.spare, self.most);
                Ok(())
            }
            Err(AllocError) => {
                self.spare.clear(self.most);
                Err(Refusal::Memory)
            }
        }
    }

    /// Makes the call if it isn't refused, and tells C of it: returns whether a result is given back, which is written then, and
    /// writes the code.
    pub(crate) fn give(&mut self, call: Call, out: &mut RawDone<'_>, refusal: &mut u32) -> bool
        ensures state { self.new ≡ (called_in call self.old out.old).1 }
        ensures returned { IsReturned (called_in call self.old out.old).0 result refusal.new out.old out.new }
        ensures drained { call ≡ calls.Flush → result ≡ false → refusal.new ≡ 0 → self.old.manager.owed ≡ [] }
    {
        if !self.has_job(call) {
            *refusal = Refusal::NoJob.code();
            return false;
        }
        if !self.has_room(call, out) {
            *refusal = Refusal::NoRoom.code();
            return false;
        }
        *refusal = 0;
        self.make(call);
        self.give_first(out)
    }

    /// Fills the first open cell with a copy of C's job and submits it, if neither is refused, and returns to C what `give` does.
    pub(crate) fn submit_job(
        &mut self,
        alloc: Global,
        raw: &RawJob<'_>,
        out: &mut RawDone<'_>,
        refusal: &mut u32,
    ) -> bool
        ensures { IsSubmittedAs (filled_at 0 raw.now self.old).0 (submitted_in raw.now self.old out.old) self.old
            result refusal.new out.old out.new self.new }
    {
        match self.fill(alloc, 0, raw) {
            Ok(()) => {}
            Err(why) => {
                *refusal = why.code();
                return false;
            }
        }
        if !self.has_room(Call::Submit, out) {
            *refusal = Refusal::NoRoom.code();
            return false;
        }
        *refusal = 0;
        self.make(Call::Submit);
        self.give_first(out)
    }

    /// Makes the call, but for giving back.
    fn make(&mut self, call: Call)
        requires { HasJob call self.old.manager }
        ensures state { self.new ≡ gone call self.old }
        ensures done { call ≡ calls.Flush → self.old.manager.owed ≢ [] → slice_get self.new.manager.machine.left 0 ≡ Some [] }
    {
        match call {
            Call::Submit => match &mut self.sessions {
                Some(sessions) => sessions.submit(&mut self.manager),
                None => self.manager.enter(None),
            },
            Call::Completed => {}
            Call::Flush => self.manager.finish_first(),
        }
    }

    /// Gives the first result back if it is finished, and writes it, with only its range of the packet. Returns whether it is.
    fn give_first(&mut self, out: &mut RawDone<'_>) -> bool
        requires room { IsTrue (has_room_for (slice_get self.old.ranges 0) out.old) }
        ensures returned { IsReturnedAt (Ok (given_first self.old).0) result out.old out.new }
        ensures state { self.new ≡ (given_first self.old).1 }
        ensures none { result ≡ false → (after_get_completed self.old.manager).0 ≡ None }
    {
        let range = self.manager.first_range();
        if !self.manager.give_into(&mut self.spare) {
            return false;
        }
        match range {
            Some((off, len)) => out.write(&self.spare, CipherRange { off, len }),
            None => unreachable!(),
        }
        self.spare.clear(self.most);
        true
    }

    /// How many bytes the idle cells keep.
    pub(crate) fn held(&self) -> usize {
        self.manager.held().saturating_add(self.spare.capacity())
    }

    /// Frees what the idle cells keep.
    pub(crate) fn trim(&mut self)
        ensures { self.new ≡ self.old }
    {
        self.manager.trim();
        self.spare.clear(0);
    }

    /// Whether a job is open if the call submits it.
    fn has_job(&self, call: Call) -> bool
        ensures has { result ≡ has_job call self.now.manager }
        ensures job { OnTrue result (HasJob call self.now.manager) }
    {
        call != Call::Submit || self.manager.open_len() > 0
    }

    /// Whether there is room for the result that comes next.
    fn has_room(&mut self, call: Call, out: &RawDone<'_>) -> bool
        requires { HasJob call self.old.manager }
        ensures room { result ≡ has_room_for (first_range call self.old) out.now }
        ensures same { self.new ≡ self.old }
    {
        match self.manager.first_range() {
            Some((_, len)) => out.has_room(len),
            None => call != Call::Submit || open_fits(&mut self.manager, out),
        }
    }
}
