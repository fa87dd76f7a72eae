ghost use Rattle.std.specs.Prelude.{◌≡◌, ◌↔◌, ◌*◌, ◌%◌, ◌<◌, ◌≤◌, ◌∷◌, ◌++◌, [], None, IfOk, OnOk, OnErr, IsSome, IsTrue, length, map, option_to_list, Some, drop, slice_get, take, ◌+◌, IfSome, false, is_some};
ghost use Rattle.std.specs.Bool.{OnFalse};
ghost use Rattle.std.specs.Borrow.{sem};
ghost use Rattle.mbj_types.specs.Result.{result_of};
ghost use Rattle.mbj_ring.specs.declared.ring.TheConstants.{CELLS};
ghost use Rattle.mbj_types.specs.Kinds.{lanes_of};
ghost use Rattle.mbj_lane.specs.Rounds.{end_of};
ghost use Rattle.mbj_manager.specs.Machine.Queues.{count_end, queue_for, rest_of};
ghost use Rattle.mbj_manager.specs.Entries.{AreEntriesOf};
ghost use Rattle.mbj_manager.specs.Machine.Counts.{RisesUpTo};
ghost use Rattle.mbj_keys.specs.Schedules.{IsScheduleOf};
ghost use Rattle.mbj_keys.specs.Sessions.{AreOf};
ghost use Rattle.mbj_manager.specs.State.{IsEarliestFinished, counted, entered, expanded_for, finds, after_flush, after_get_completed, lent, new_manager, after_making_room, after_submit, after_submit_by, after_submit_in, with_open, after_get_next_burst};
ghost use Rattle.mbj_manager.specs.Lending.{LendsNext, LendsOpen};

mod in_cells;

use crate::engine::Engine;
use crate::has_queue::HasQueue;
use mbj_aes::Schedule;
use mbj_keys::{Keys, Notes};
use mbj_lane::Lanes;
use mbj_ring::CELLS;
use mbj_types::{Done, Job, Kind, RingFull};
use std::alloc::{AllocError, Global};
use std::marker::Model;

/// How many bytes of memory a cell of `Manager::new` keeps at most, each for key, IV, authentication key, additional data and packet.
pub const SMALL_BYTES: usize = 256;

/// How many bytes of memory a cell of `Manager::keeping` keeps at most, each for these.
pub const KEPT_BYTES: usize = 2048;

/// A manager of jobs for one thread.
///
/// `get_next` lends the next cell, in which the caller fills a job; `submit` takes the job as it then is; `submit`,
/// `get_completed` and `flush` give finished jobs back, always in the order of submission. A job that is refused comes
/// back in its place, as `Status::InvalidArgs`.
///
/// `new`, `keeping` and `keeping_none` take all the memory of cells and lanes; no other call takes any. At most `CELLS` jobs are submitted and not given
/// back.
///
/// ```
/// match manager.get_next() {
///     Ok(job) => fill(alloc, job)?,
///     Err(RingFull) => return Ok(None),
/// }
/// match manager.submit() {
///     Some(done) => Ok(Some(done)),
///     None => Ok(manager.flush()),
/// }
/// ```
#[derive(Drop)]
pub struct Manager {
    engine: Engine,
    // For how many submitted jobs the key of the cipher is expanded, modulo 2^64.
    expansions: u64,
}

impl Model for Manager {
    ghost use Rattle.mbj_manager.specs.State.{ManagerState};
    ghost use Rattle.std.specs.Coded.{codes};
    ghost use Rattle.mbj_manager.specs.StateCode.{state_code};
    ghost use Rattle.mbj_manager.specs.Inside.Settled.{IsSettled};

    ghost Value = { ManagerState };

    ghost coded = { state_code (Prim.hlevel codes) };

    ghost view = { λ m. record (m.engine) { expansions = m.expansions } };

    // Between calls no job is between two stages, and none has more than two left.
    ghost invariant = { λ m. IsSettled m.engine };
}

impl Manager {
    /// A manager with no job and no open cell, and with counts of 0. Its cells keep memory that later jobs use: at most `SMALL_BYTES` for
    /// each field of a job, with zeros written over the bytes.
    ///
    /// Returns `AllocError` for want of memory.
    pub fn new(alloc: Global) -> Result<Manager, AllocError>
        ensures { IfOk result (λ m. m ≡ new_manager) }
    {
        Manager::with_most(alloc, SMALL_BYTES)
    }

    /// A manager as `new` makes it, whose cells keep more memory: at most `KEPT_BYTES` for each field of a job.
    ///
    /// Returns `AllocError` for want of memory.
    pub fn keeping(alloc: Global) -> Result<Manager, AllocError>
        ensures { IfOk result (λ m. m ≡ new_manager) }
    {
        Manager::with_most(alloc, KEPT_BYTES)
    }

    /// A manager as `new` makes it, whose cells keep no memory: what a job took is freed, or goes away with its cell.
    ///
    /// Returns `AllocError` for want of memory.
    pub fn keeping_none(alloc: Global) -> Result<Manager, AllocError>
        ensures { IfOk result (λ m. m ≡ new_manager) }
    {
        Manager::with_most(alloc, 0)
    }

    fn with_most(alloc: Global, most: usize) -> Result<Manager, AllocError>
        ensures { IfOk result (λ m. m ≡ new_manager) }
    {
        let engine = Engine::new(alloc, most)?;
        Ok(Manager {
            engine,
            expansions: 0,
        })
    }

    /// Lends the first open job, to be filled: a blank one if none was open, else that one as it was written. What is
    /// written there is the first open job.
    ///
    /// Returns `RingFull` exactly where `CELLS` jobs are submitted and not given back; nothing changes then.
    pub fn get_next(&mut self) -> Result<&mut Job, RingFull>
        ensures* lends { sem 𝓛 (LendsNext self.entry result) }
        ensures value { IfOk result (λ j. j.now ≡ lent self.old) }
        ensures full { OnErr result (length self.old.owed ≡ CELLS) }
        ensures room { OnOk result (length self.old.owed < CELLS) }
    {
        if self.is_full() {
            return Err(RingFull);
        }
        self.engine.open_first();
        Ok(self.burst_mut(0))
    }

    /// Whether `CELLS` jobs are submitted and not given back, so that `get_next` has no cell for another one.
    pub fn is_full(&self) -> bool
        ensures full { IsTrue result ↔ (length self.now.owed ≡ CELLS) }
        ensures room { OnFalse result (length self.now.owed < CELLS) }
    {
        self.engine.len() == CELLS
    }

    /// If no cell is left, flushes the earliest job and gives it back.
    ///
    /// Returns `None` exactly where there is a cell; nothing changes then.
    pub fn make_room(&mut self) -> Option<Done>
        ensures result { result ≡ (after_making_room self.old).0 }
        ensures state { self.new ≡ (after_making_room self.old).1 }
        ensures room { length self.new.owed < CELLS }
        ensures none { (result ≡ None) ↔ ¬ (length self.old.owed ≡ CELLS) }
        ensures order { option_to_list result ++ self.new.owed ≡ self.old.owed }
    {
        if self.is_full() { self.flush() } else { None }
    }

    /// Puts a job into the next cell, where it is the first open job, in place of one that was open there. It takes no memory.
    pub fn put_next(&mut self, job: Job)
        requires { length self.old.owed < CELLS }
        ensures { self.new ≡ with_open self.old job }
    {
        match self.get_next() {
            Ok(cell) => *cell = job,
            Err(RingFull) => unreachable!(),
        }
    }

    /// Opens blank cells until `n` are open, or there is no cell left, and closes none. Returns how many are open.
    pub fn get_next_burst(&mut self, n: u32) -> u32
        ensures state { self.new ≡ after_get_next_burst n self.old }
        ensures size { result ≡ length self.new.opened }
        ensures within { length self.new.owed + result ≤ CELLS }
    {
        self.engine.open_burst(n)
    }

    /// Lends the job in open cell `i`, the first opened being 0, to be filled. What is written there is that open job.
    pub fn burst_mut(&mut self, i: u32) -> &mut Job
        requires { i < length self.old.opened }
        ensures* lends { sem 𝓛 (LendsOpen self.entry i result) }
        ensures value { slice_get self.old.opened i ≡ Some result.now }
    {
        self.engine.open_job(i)
    }

    /// Submits the first open job as it is then. Its stages are done as far as lanes run for it; then the earliest job is given back, if
    /// it is finished. The job's key is expanded, or, for CBC encryption, counted as expanded, if the job is accepted and has a cipher.
    ///
    /// Returns `None` exactly where, after that, the earliest job isn't finished.
    pub fn submit(&mut self) -> Option<Done>
        requires is_open { 0 < length self.old.opened }
        ensures result { result ≡ (after_submit self.old).0 }
        ensures state { self.new ≡ (after_submit self.old).1 }
        ensures expansions { self.new.expansions ≡ (self.old.expansions + expanded_for false self.old.opened) % count_end }
        ensures none { (result ≡ None) ↔ ¬ IsEarliestFinished (entered self.old) }
        ensures some { IsEarliestFinished (entered self.old) → IsSome result }
        ensures order { option_to_list result ++ self.new.owed
            ≡ self.old.owed ++ map result_of (take 1 self.old.opened) }
        ensures others { self.new.opened ≡ drop 1 self.old.opened }
    {
        self.submit_by(None)
    }

    /// Does what `submit` does. If the notes know an entry of the job's session, and its key is the job's, the job's key isn't expanded
    /// for it alone; else all is as by `submit`. So no result depends on the session.
    pub fn submit_in(&mut self, keys: &Keys, notes: &mut Notes) -> Option<Done>
        requires is_open { 0 < length self.old.opened }
        requires notes { AreOf keys.now notes.old }
        ensures same { notes.new ≡ notes.old }
        ensures result { result ≡ (after_submit_in notes.old self.old).0 }
        ensures state { self.new ≡ (after_submit_in notes.old self.old).1 }
        ensures expansions { self.new.expansions
            ≡ (self.old.expansions + expanded_for (finds notes.old self.old.opened) self.old.opened) % count_end }
        ensures none { (result ≡ None) ↔ ¬ IsEarliestFinished (entered self.old) }
        ensures some { IsEarliestFinished (entered self.old) → IsSome result }
        ensures order { option_to_list result ++ self.new.owed
            ≡ self.old.owed ++ map result_of (take 1 self.old.opened) }
        ensures others { self.new.opened ≡ drop 1 self.old.opened }
    {
        let found = self.find(keys, notes);
        self.submit_by(found)
    }

    /// The schedule of the first open job's key, if the notes know an entry of the job's session with this key.
    fn find<'a>(&mut self, keys: &'a Keys, notes: &mut Notes) -> Option<&'a Schedule>
        requires is_open { 0 < length self.old.opened }
        requires notes { AreOf keys.now notes.old }
        ensures same { self.new ≡ self.old }
        ensures same_notes { notes.new ≡ notes.old }
        ensures found { is_some result ≡ finds notes.old self.old.opened }
        ensures schedule { IfSome result (λ s. IfSome (slice_get self.old.opened 0) (λ j. IsScheduleOf j.key s.now)) }
    {
        let job = self.engine.open_job(0);
        keys.schedule_for(notes, job.session, job.key.as_slice())
    }

    /// Submits the first open job, whose key's schedule was found or wasn't.
    fn submit_by(&mut self, found: Option<&Schedule>) -> Option<Done>
        requires is_open { 0 < length self.old.opened }
        requires schedule { IfSome found (λ s. IfSome (slice_get self.old.opened 0) (λ j. IsScheduleOf j.key s.now)) }
        ensures result { result ≡ (after_submit_by (is_some found.entry) self.old).0 }
        ensures state { self.new ≡ (after_submit_by (is_some found.entry) self.old).1 }
        ensures expansions { self.new.expansions
            ≡ (self.old.expansions + expanded_for (is_some found.entry) self.old.opened) % count_end }
        ensures none { (result ≡ None) ↔ ¬ IsEarliestFinished (entered self.old) }
        ensures some { IsEarliestFinished (entered self.old) → IsSome result }
        ensures order { option_to_list result ++ self.new.owed
            ≡ self.old.owed ++ map result_of (take 1 self.old.opened) }
        ensures others { self.new.opened ≡ drop 1 self.old.opened }
    {
        self.enter(found);
        self.get_completed()
    }

    /// Submits a job: it goes into the next cell, in the place of the first open job, and is submitted as it is. It takes no memory.
    ///
    /// Returns `None` exactly where, after that, the earliest job isn't finished.
    pub fn submit_job(&mut self, job: Job) -> Option<Done>
        requires { length self.old.owed < CELLS }
        ensures result { result ≡ (after_submit (with_open self.old job)).0 }
        ensures state { self.new ≡ (after_submit (with_open self.old job)).1 }
        ensures none { (result ≡ None) ↔ ¬ IsEarliestFinished (entered (with_open self.old job)) }
        ensures order { option_to_list result ++ self.new.owed ≡ self.old.owed ++ result_of job ∷ [] }
    {
        self.put_next(job);
        self.submit()
    }

    /// Submits the first open job, whose key's schedule was found or wasn't, and gives nothing back: the job is the last of those that are
    /// submitted, its key's expansion is counted, and all that can be done without a flush is done.
    pub fn enter(&mut self, found: Option<&Schedule>)
        requires is_open { 0 < length self.old.opened }
        requires schedule { IfSome found (λ s. IfSome (slice_get self.old.opened 0) (λ j. IsScheduleOf j.key s.now)) }
        ensures { self.new ≡ counted (is_some found.entry) self.old (entered self.old) }
    {
        let is_expanded = self.engine.enter(found);
        self.expansions = self.expansions.wrapping_add(u64::from(is_expanded));
    }

    /// How many bytes of memory the idle cells keep.
    pub fn held(&self) -> usize {
        self.engine.held()
    }

    /// Frees the memory that the idle cells keep.
    pub fn trim(&mut self)
        ensures { self.new ≡ self.old }
    {
        self.engine.trim();
    }

    /// For how many submitted jobs the key of the cipher is expanded, modulo 2^64: each job that is accepted and has a cipher, unless the
    /// schedule is that of an entry of shared keys. A key of CBC encryption counts as the job is submitted, and is expanded when its lanes
    /// run next. What lanes expand besides isn't counted.
    pub fn expansions(&self) -> u64
        ensures { result ≡ self.now.expansions }
    {
        self.expansions
    }

    /// Gives the earliest job back if it is finished, and runs nothing.
    ///
    /// Returns `None` exactly where no job is submitted and not given back, or the earliest isn't finished; nothing
    /// changes then.
    pub fn get_completed(&mut self) -> Option<Done>
        ensures result { result ≡ (after_get_completed self.old).0 }
        ensures state { self.new ≡ (after_get_completed self.old).1 }
        ensures none { (result ≡ None) ↔ ¬ IsEarliestFinished self.old }
        ensures some { IsEarliestFinished self.old → IsSome result }
        ensures order { option_to_list result ++ self.new.owed ≡ self.old.owed }
    {
        self.engine.give()
    }

    /// Finishes the earliest job, and gives it back. Open cells stay as they are. Lane queues run twice at most for each job that
    /// is submitted and not given back.
    ///
    /// Returns `None` exactly where no job is submitted and not given back; nothing changes then.
    pub fn flush(&mut self) -> Option<Done>
        ensures result { result ≡ (after_flush self.old).0 }
        ensures state { self.new ≡ (after_flush self.old).1 }
        ensures none { (result ≡ None) ↔ (self.old.owed ≡ []) }
        ensures none_stays { result ≡ None → self.new ≡ self.old }
        ensures open_stays { self.new.opened ≡ self.old.opened }
        ensures runs { RisesUpTo (2 * length self.old.owed) self.old.machine.flush_runs self.new.machine.flush_runs }
        ensures order { option_to_list result ++ self.new.owed ≡ self.old.owed }
    {
        self.engine.flush_first();
        self.engine.give()
    }

    /// How many jobs are submitted and not given back, at most `CELLS`.
    pub fn queue_size(&self) -> u32
        ensures size { result ≡ length self.now.owed }
        ensures within { result ≤ CELLS }
    {
        self.engine.len()
    }

    /// How many jobs of a kind wait for lanes.
    pub fn waiting(&self, kind: Kind) -> u32
        ensures { result ≡ length (queue_for kind self.now.machine).waiting }
    {
        self.engine.waiting(kind)
    }

    /// The entries of the jobs of K's kind that wait for lanes: as many entries as jobs, and in their order. An entry has as many rounds
    /// left as its job. The job's own course has its packet out, with the job's keys, IV, data and ranges and with the last of its steps
    /// left. Once the entry's rounds are done and it is taken back, the course leads to the job's result.
    pub fn lanes<K: HasQueue>(&self) -> &Lanes<K>
        ensures rests { map K.rest_of result.now.entries ≡ map rest_of (queue_for K.kind self.now.machine).waiting }
        ensures entries { AreEntriesOf K.kind self.now (map (λ e. K.brings (end_of K.round K.rest_of e)) result.now.entries)
            (queue_for K.kind self.now.machine).waiting }
    {
        self.engine.lanes::<K>()
    }

    /// How many rounds the full runs of a kind took, modulo 2^64.
    pub fn rounds(&self, kind: Kind) -> u64
        ensures { result ≡ (queue_for kind self.now.machine).rounds }
    {
        self.engine.rounds(kind)
    }

    /// How many blocks went through the full runs of a kind, modulo 2^64: as many as its lanes in each round.
    pub fn blocks(&self, kind: Kind) -> u64
        ensures blocks { result ≡ (queue_for kind self.now.machine).blocks }
        ensures full { result ≡ (lanes_of kind * (queue_for kind self.now.machine).rounds) % count_end }
    {
        self.engine.blocks(kind)
    }

    /// How many runs there were within `flush`, modulo 2^64.
    pub fn flush_runs(&self) -> u64
        ensures { result ≡ self.now.machine.flush_runs }
    {
        self.engine.flush_runs()
    }
}
