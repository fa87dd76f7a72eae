ghost use Rattle.mbj_types.specs.Kinds.{lanes_of};
ghost use Rattle.std.specs.Prelude.{◌≡◌, ◌≢◌, ◌↔◌, ◌*◌, ◌%◌, ◌<◌, ◌≤◌, [], ◌∷◌, ◌++◌, length, map, Option, Some, None, ◌+◌, IfOk, IfSome, IsTrue, is_some, slice_get, vec_capacity};
ghost use Rattle.std.specs.Bool.{OnFalse, OnTrue};
ghost use Rattle.std.specs.Borrow.{sem};
ghost use Rattle.mbj_types.specs.Blank.{blank};
ghost use Rattle.mbj_types.specs.Result.{result_of};
ghost use Rattle.mbj_ring.specs.declared.ring.TheConstants.{CELLS};
ghost use Rattle.mbj_keys.specs.Schedules.{IsScheduleOf};
ghost use Rattle.mbj_stage.specs.CourseState.{begun, owed, stage_of};
ghost use Rattle.mbj_stage.specs.Keys.{counts_expansion};
ghost use Rattle.mbj_stage.specs.declared.stage.Stage.TheVariants as stage;
ghost use Rattle.mbj_manager.specs.Machine.Stages.{pending};
ghost use Rattle.mbj_lane.specs.Rounds.{end_of};
ghost use Rattle.mbj_manager.specs.Machine.Queues.{count_end, queue_for, rest_of, run_within};
ghost use Rattle.mbj_manager.specs.Entries.{AreEntriesOf};
ghost use Rattle.mbj_manager.specs.Machine.Course.{course, flushed, stages_left, stepped};
ghost use Rattle.mbj_manager.specs.State.{after_get_completed, entered, lent, new_manager, with_open, with_open_at, after_get_next_burst, with_blanks, with_open_last};
ghost use Rattle.mbj_manager.specs.Cells as cell;
ghost use Rattle.mbj_manager.specs.Cells.{IsFinished, IsOpen, course_in, given_by, job_in};
ghost use Rattle.mbj_manager.specs.Written.{first_range};
ghost use Rattle.mbj_manager.specs.Lending.{LendsOpenJob};
ghost use Rattle.mbj_manager.specs.Inside.Added.{first_lane, with_step};
ghost use Rattle.mbj_manager.specs.Inside.Held.{IsHeld, held};
ghost use Rattle.mbj_manager.specs.Inside.Steps.{steps_ahead};

use crate::agenda::{Agenda, agenda_room};
use crate::cell::Cell;
use crate::cell_ring::CellRing;
use crate::first::{next_of_first, range_of_first};
use crate::has_queue::HasQueue;
use crate::lane::{Cause, run_nows};
use crate::lane_queues::LaneQueues;
use mbj_aes::Schedule;
use mbj_lane::Lanes;
use mbj_ring::CELLS;
use mbj_stage::Stage;
use mbj_types::{Done, Job, Kind};
use std::alloc::{AllocError, Global};
use std::marker::Model;

/// The courses of the jobs, those that stand between two stages, and those that wait for lanes.
#[derive(Drop)]
pub struct Engine {
    ring: CellRing,
    agenda: Agenda,
    /// In a box, so that a caller's proof that a manager is freed doesn't look into each lane queue.
    queues: Box<LaneQueues>,
}

impl Model for Engine {
    ghost use Rattle.std.specs.Prelude.{vec_capacity};
    ghost use Rattle.mbj_manager.specs.State.{ManagerState};
    ghost use Rattle.std.specs.Coded.{codes};
    ghost use Rattle.mbj_manager.specs.StateCode.{state_code};
    ghost use Rattle.mbj_manager.specs.Inside.Held.{held, IsHeld};

    ghost Value = { ManagerState };

    ghost coded = { state_code (Prim.hlevel codes) };

    ghost view = { λ w. held w.ring w.agenda.places.items w.queues.value };

    ghost invariant = { λ w. IsHeld w.ring w.agenda.places.items w.queues.value (vec_capacity w.agenda.places) };
}

/// Does what finishes at once in the course at a place, and goes on: the course joins the lane queue of its next stage, which runs if it
/// is full then. The job stands in no agenda meanwhile.
fn go_on(
    ring: &mut CellRing,
    queues: &mut LaneQueues,
    agenda: &mut Agenda,
    place: u32,
    cause: Cause,
)
    requires place { place < CELLS }
    requires held { IsHeld ring.old (place ∷ agenda.old.places.items) queues.old (vec_capacity agenda.old.places) }
    ensures room { vec_capacity agenda.new.places ≡ vec_capacity agenda.old.places }
    ensures kept { IsHeld ring.new agenda.new.places.items queues.new (vec_capacity agenda.old.places) }
    ensures step { held ring.new agenda.new.places.items queues.new
        ≡ with_step cause (held ring.old (place ∷ agenda.old.places.items) queues.old) }
{
    match run_nows(ring, place) {
        Stage::Lane(kind) => queues.enter(kind, cause, ring, agenda, place),
        Stage::Now | Stage::Finished => {}
    }
}

impl Engine {
    pub(crate) fn new(alloc: Global, most: usize) -> Result<Engine, AllocError>
        ensures { IfOk result (λ w. w ≡ new_manager) }
    {
        Ok(Engine {
            ring: CellRing::new(alloc, most)?,
            agenda: Agenda::new(alloc, agenda_room())?,
            queues: Box::new(alloc, LaneQueues::new(alloc)?)?,
        })
    }

    /// How many jobs are submitted and not given back.
    pub(crate) fn len(&self) -> u32
        ensures size { result ≡ length self.now.owed }
        ensures within { result ≤ CELLS }
    {
        self.ring.len()
    }

    /// How many jobs are being filled.
    pub(crate) fn open_len(&self) -> u32
        ensures size { result ≡ length self.now.opened }
        ensures within { length self.now.owed + result ≤ CELLS }
    {
        self.ring.open_len()
    }

    /// Opens a cell with a blank job, behind those that are open.
    pub(crate) fn open_cell(&mut self)
        requires { length self.old.owed + length self.old.opened < CELLS }
        ensures { self.new ≡ with_blanks 1 self.old }
    {
        self.ring.open_cell();
    }

    /// Opens a cell with the job in a cell of the caller's, behind those that are open. The cells change places, so that the caller's is
    /// blank then.
    pub(crate) fn open_with(&mut self, filled: &mut Cell)
        requires room { length self.old.owed + length self.old.opened < CELLS }
        requires is_open { IsOpen filled.old }
        ensures blank { filled.new ≡ cell.Open blank }
        ensures state { self.new ≡ with_open_last self.old (job_in filled.old) }
    {
        self.ring.open_with(filled);
    }

    /// Opens a cell with a blank job, if none is open.
    pub(crate) fn open_first(&mut self)
        requires { length self.old.owed < CELLS }
        ensures { self.new ≡ with_open self.old (lent self.old) }
    {
        if self.open_len() == 0 {
            self.open_cell();
        }
    }

    /// Opens cells with blank jobs until `n` are open, or there is no cell left. Returns how many are open.
    pub(crate) fn open_burst(&mut self, n: u32) -> u32
        ensures state { self.new ≡ after_get_next_burst n self.old }
        ensures size { result ≡ length self.new.opened }
        ensures within { length self.new.owed + result ≤ CELLS }
    {
        let wanted = n.min(CELLS - self.len());
        'opening: while self.open_len() < wanted {
            self.open_cell();
        }
        self.open_len()
    }

    /// Lends the job in open cell `number`, the first opened being 0.
    pub(crate) fn open_job(&mut self, number: u32) -> &mut Job
        requires { number < length self.old.opened }
        ensures* lends { sem 𝓛 (LendsOpenJob self.entry number result) }
        ensures value { slice_get self.old.opened number ≡ Some result.now }
    {
        self.ring.open_at(number).job_mut()
    }

    /// Submits the first job that was filled: it goes last among those that are submitted, and all is done that can be done without a
    /// flush. It doesn't go through the agenda, in which are only jobs that a run of lanes put there.
    ///
    /// Returns whether its key is expanded for it alone: it is if the key is used and its schedule wasn't found.
    pub(crate) fn enter(&mut self, found: Option<&Schedule>) -> bool
        requires some { 0 < length self.old.opened }
        requires idle { self.old.machine.agenda ≡ [] }
        requires schedule { IfSome found (λ s. IfSome (slice_get self.old.opened 0) (λ j. IsScheduleOf j.key s.now)) }
        ensures entered { self.new ≡ entered self.old }
        ensures expands { IfSome (slice_get self.old.opened 0) (λ j. result ≡ counts_expansion (is_some found.entry) j) }
    {
        let is_expanded = match self.ring.open_mut() {
            Some(cell) => cell.begin(found),
            None => unreachable!(),
        };
        prove!(self.ring.len() < CELLS);
        let place = self.ring.commit();
        let (ring, agenda) = (&mut self.ring, &mut self.agenda);
        go_on(ring, &mut self.queues, agenda, place, Cause::Submit);
        self.follow_course(Cause::Submit);
        is_expanded
    }

    fn is_idle(&self) -> bool
        ensures { IsTrue result ↔ (self.now.machine.agenda ≡ []) }
    {
        self.agenda.is_empty()
    }

    /// Takes the agenda's first job: what finishes at once is done, and it goes on.
    fn go_on_first(&mut self, cause: Cause)
        requires { self.old.machine.agenda ≢ [] }
        ensures step { self.new ≡ record (self.old) { machine = stepped cause self.old.machine } }
        ensures fewer { steps_ahead self.new.machine < steps_ahead self.old.machine }
        ensures stages { stages_left self.new.machine.left ≤ stages_left self.old.machine.left }
    {
        let place = self.agenda.take_first();
        let (ring, agenda) = (&mut self.ring, &mut self.agenda);
        go_on(ring, &mut self.queues, agenda, place, cause);
    }

    /// Goes on until no job stands between two stages.
    pub(crate) fn follow_course(&mut self, cause: Cause)
        ensures course { self.new ≡ record (self.old) { machine = course cause self.old.machine } }
        ensures idle { self.new.machine.agenda ≡ [] }
        ensures stages { stages_left self.new.machine.left ≤ stages_left self.old.machine.left }
    {
        'following: while !self.is_idle() {
            self.go_on_first(cause);
        }
    }

    /// The kind in whose lanes the earliest job waits.
    fn first_kind(&mut self) -> Option<Kind>
        requires { self.old.machine.agenda ≡ [] }
        ensures same { self.new ≡ self.old }
        ensures kind { result ≡ first_lane self.old.machine.left }
        ensures done { result ≡ None → self.old.owed ≢ [] → slice_get self.old.machine.left 0 ≡ Some [] }
    {
        match next_of_first(&mut self.ring) {
            Some(Stage::Lane(kind)) => Some(kind),
            Some(Stage::Now) | Some(Stage::Finished) | None => None,
        }
    }

    /// Runs the lane queue of the earliest job.
    fn run_first(&mut self, kind: Kind)
        requires idle { self.old.machine.agenda ≡ [] }
        requires first { first_lane self.old.machine.left ≡ Some kind }
        ensures ran { self.new ≡ record (self.old) { machine = run_within Cause.Flush kind self.old.machine } }
        ensures stages { stages_left self.new.machine.left < stages_left self.old.machine.left }
    {
        self.queues.run(kind, &mut self.ring, &mut self.agenda);
    }

    /// Follows flush steps until the earliest job is finished.
    pub(crate) fn flush_first(&mut self)
        requires { self.old.machine.agenda ≡ [] }
        ensures flushed { self.new ≡ record (self.old) { machine = flushed self.old.machine } }
        ensures idle { self.new.machine.agenda ≡ [] }
        ensures done { self.old.owed ≢ [] → slice_get self.new.machine.left 0 ≡ Some [] }
    {
        'flushing: loop {
            match self.first_kind() {
                None => return,
                Some(kind) => {
                    self.run_first(kind);
                    self.follow_course(Cause::Flush);
                }
            }
        }
    }

    /// Whether there is an earliest job, and it is finished.
    fn has_finished(&mut self) -> bool
        ensures same { self.new ≡ self.old }
        ensures done { IsTrue result ↔ (slice_get self.old.machine.left 0 ≡ Some []) }
    {
        match next_of_first(&mut self.ring) {
            Some(Stage::Finished) => true,
            Some(Stage::Now) | Some(Stage::Lane(_)) | None => false,
        }
    }

    /// The range that the cipher of the earliest job writes, as its offset and its length.
    pub(crate) fn first_range(&mut self) -> Option<(u32, u32)>
        ensures same { self.new ≡ self.old }
        ensures range { result ≡ first_range self.old }
    {
        range_of_first(&mut self.ring)
    }

    /// Gives the earliest job back if it is finished.
    pub(crate) fn give(&mut self) -> Option<Done>
        requires { self.old.machine.agenda ≡ [] }
        ensures result { result ≡ (after_get_completed self.old).0 }
        ensures state { self.new ≡ (after_get_completed self.old).1 }
    {
        if self.has_finished() {
            Some(self.pop())
        } else {
            None
        }
    }

    /// Gives the earliest job back, which is finished.
    fn pop(&mut self) -> Done
        requires idle { self.old.machine.agenda ≡ [] }
        requires done { slice_get self.old.machine.left 0 ≡ Some [] }
        ensures result { Some result ≡ (after_get_completed self.old).0 }
        ensures state { self.new ≡ (after_get_completed self.old).1 }
    {
        self.ring.pop()
    }

    /// Gives the earliest job back if it is finished: its cell changes places with a blank one. Returns whether it is.
    pub(crate) fn give_into(&mut self, given: &mut Cell) -> bool
        requires idle { self.old.machine.agenda ≡ [] }
        requires blank { given.old ≡ cell.Open blank }
        ensures result { given_by result given.new ≡ (after_get_completed self.old).0 }
        ensures finished { OnTrue result (IsFinished given.new) }
        ensures blank { OnFalse result (given.new ≡ cell.Open blank) }
        ensures state { self.new ≡ (after_get_completed self.old).1 }
    {
        if !self.has_finished() {
            return false;
        }
        self.pop_into(given);
        true
    }

    /// Gives the earliest job back, which is finished: its cell changes places with a blank one.
    fn pop_into(&mut self, given: &mut Cell)
        requires idle { self.old.machine.agenda ≡ [] }
        requires done { slice_get self.old.machine.left 0 ≡ Some [] }
        requires blank { given.old ≡ cell.Open blank }
        ensures result { Some (owed (course_in given.new)) ≡ (after_get_completed self.old).0 }
        ensures finished { IsFinished given.new }
        ensures state { self.new ≡ (after_get_completed self.old).1 }
    {
        self.ring.give(given);
    }

    /// Exchanges the job in a cell with open job `number`, the first opened being 0.
    pub(crate) fn exchange(&mut self, number: u32, other: &mut Cell)
        requires number { number < length self.old.opened }
        requires is_open { IsOpen other.old }
        ensures { self.new ≡ with_open_at self.old number (job_in other.old) }
    {
        self.ring.exchange(number, other);
    }

    /// How many bytes of memory the idle cells keep.
    pub(crate) fn held(&self) -> usize {
        self.ring.held()
    }

    /// Frees the memory that the idle cells keep.
    pub(crate) fn trim(&mut self)
        ensures { self.new ≡ self.old }
    {
        self.ring.trim();
    }

    pub(crate) fn lanes<K: HasQueue>(&self) -> &Lanes<K>
        ensures rests { map K.rest_of result.now.entries ≡ map rest_of (queue_for K.kind self.now.machine).waiting }
        ensures entries { AreEntriesOf K.kind self.now (map (λ e. K.brings (end_of K.round K.rest_of e)) result.now.entries)
            (queue_for K.kind self.now.machine).waiting }
    {
        K::queue(&self.queues).lanes()
    }

    pub(crate) fn waiting(&self, kind: Kind) -> u32
        ensures { result ≡ length (queue_for kind self.now.machine).waiting }
    {
        self.queues.len(kind)
    }

    pub(crate) fn rounds(&self, kind: Kind) -> u64
        ensures { result ≡ (queue_for kind self.now.machine).rounds }
    {
        self.queues.rounds(kind)
    }

    pub(crate) fn blocks(&self, kind: Kind) -> u64
        ensures blocks { result ≡ (queue_for kind self.now.machine).blocks }
        ensures full { result ≡ (lanes_of kind * (queue_for kind self.now.machine).rounds) % count_end }
    {
        self.queues.blocks(kind)
    }

    pub(crate) fn flush_runs(&self) -> u64
        ensures { result ≡ self.now.machine.flush_runs }
    {
        self.queues.flush_runs()
    }
}
