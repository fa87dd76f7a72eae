ghost use Rattle.std.specs.Prelude.{◌≡◌, ℕ, ◌+◌, ◌*◌, ◌%◌, ◌<◌, ◌≤◌, List, ◌∷◌, [], ◌++◌, Some, length, map, slice_index_or, All, IfOk, MatchOption};
ghost use Rattle.std.specs.List.{remove};
ghost use Rattle.mbj_lane.specs.Rounds.{end_of, least, taken};
ghost use Rattle.mbj_ring.specs.declared.ring.TheConstants.{CELLS};
ghost use Rattle.mbj_stage.specs.Handing.{End, IsNext, IsOut, handed_out, taken_back};
ghost use Rattle.mbj_manager.specs.Cells.{IsGoing, course_in};
ghost use Rattle.mbj_manager.specs.Machine.Queues.{changed, count_end};
ghost use Rattle.mbj_manager.specs.Inside.Courses.{AreCourses, IsSameRing, courses, ring_number};
ghost use Rattle.mbj_manager.specs.Inside.Leaving.{At, Gives};
ghost use Rattle.mbj_manager.specs.Inside.Joining.{Joins};
ghost use Rattle.mbj_manager.specs.Inside.PlacedQueue.{HasRest, Takes, PlacedEntry, Waits, ended, advanced_queue, no_queue, pair_rest, rounds_in};

use crate::cell::Cell;
use crate::cell_ring::CellRing;
use mbj_lane::Lanes;
use mbj_stage::JobKernel;
use std::alloc::{AllocError, Global};
use std::marker::Model;

/// The jobs of a kind that wait for lanes, each by its place in the ring and with its entry, in the order in which they came; and how many
/// rounds and blocks the kind's full runs took, modulo 2^64.
#[derive(Drop)]
pub struct LaneQueue<K: JobKernel> {
    /// The entries, each with the place of its job.
    lanes: Lanes<K>,
    rounds: u64,
    blocks: u64,
}

impl<K: JobKernel> Model for LaneQueue<K> {
    ghost use Rattle.std.specs.Prelude.{◌≡◌, ◌<◌, length, All};
    ghost use Rattle.mbj_ring.specs.declared.ring.TheConstants.{CELLS};
    ghost use Rattle.mbj_manager.specs.Inside.PlacedQueue.{PlacedQueue, placed_queue, queued_of};

    ghost Value = { PlacedQueue };

    ghost view = { λ q. placed_queue (queued_of K.round K.rest_of K.brings q.lanes.places q.lanes.entries) q.rounds q.blocks };

    ghost invariant = { λ q. (length q.lanes.places ≡ length q.lanes.entries) × All (λ p. p < CELLS) q.lanes.places };
}

impl<K: JobKernel> LaneQueue<K> {
    /// An empty lane queue. It takes the memory for as many jobs as the kind has lanes; no other call takes any.
    pub(crate) fn new(alloc: Global) -> Result<LaneQueue<K>, AllocError>
        ensures { IfOk result (λ q. q ≡ no_queue) }
    {
        Ok(LaneQueue {
            lanes: Lanes::new(alloc)?,
            rounds: 0,
            blocks: 0,
        })
    }

    /// How many wait.
    pub(crate) fn len(&self) -> u32
        ensures { result ≡ length self.now.queued }
    {
        self.lanes.len()
    }

    /// How many rounds the full runs took.
    pub(crate) fn rounds(&self) -> u64
        ensures { result ≡ self.now.rounds }
    {
        self.rounds
    }

    /// How many blocks went through the full runs.
    pub(crate) fn blocks(&self) -> u64
        ensures { result ≡ self.now.blocks }
    {
        self.blocks
    }

    /// The entries.
    pub(crate) fn lanes(&self) -> &Lanes<K>
        ensures rests { map K.rest_of result.now.entries ≡ map (pair_rest rounds_in) self.now.queued }
        ensures ends { map (λ e. K.brings (end_of K.round K.rest_of e)) result.now.entries ≡ map (λ w. w.1.brings) self.now.queued }
    {
        &self.lanes
    }

    /// The course at a place joins the end: its packet goes out into a slot.
    #[inline(always)]
    pub(crate) fn join(&mut self, ring: &mut CellRing, place: u32)
        requires fits { K.fits }
        requires ring { AreCourses ring.old }
        requires place { place < CELLS }
        requires free { length self.old.queued < K.LANES }
        requires next { At (IsNext K.kind) (ring_number ring.old place) (courses ring.old) }
        ensures ring { IsSameRing ring.new ring.old }
        ensures out { courses ring.new ≡ changed handed_out (ring_number ring.old place) (courses ring.old) }
        ensures joins { Joins K.kind place (ring_number ring.old place) (courses ring.old) self.old self.new }
    {
        let cell = ring.at_mut(place);
        join_from(&mut self.lanes, place, cell);
    }

    /// All run for the least rest among them, and it returns that number.
    pub(crate) fn run(&mut self) -> u32
        requires some { 0 < length self.old.queued }
        requires rests { All HasRest self.old.queued }
        ensures least { result ≡ least (pair_rest rounds_in) self.old.queued }
        ensures advanced { self.new ≡ advanced_queue result self.old }
    {
        self.lanes.run_shortest()
    }

    /// The first with no round left leaves: its entry goes back to its course. Returns its place.
    #[inline(always)]
    pub(crate) fn leave(&mut self, ring: &mut CellRing) -> Option<u32>
        requires ring { AreCourses ring.old }
        requires out { (place : ℕ) (e : End) (ws : List PlacedEntry) → taken (pair_rest rounds_in) self.old.queued ≡ Some ((place, ended e), ws)
            → At (IsOut K.kind e) (ring_number ring.old place) (courses ring.old) }
        ensures ring { IsSameRing ring.new ring.old }
        ensures place { MatchOption result (Unit {0}) (λ p. p < CELLS) }
        ensures takes { MatchOption result (Waits self.old self.new × (courses ring.new ≡ courses ring.old))
            (λ p. (e : End) × Takes p e self.old self.new
            × (courses ring.new ≡ changed (taken_back e) (ring_number ring.old p) (courses ring.old))) }
    {
        match self.lanes.first_finished() {
            None => None,
            Some(k) => {
                let place = self.lanes.place_at(k);
                let cell = ring.at_mut(place);
                leave_to(&mut self.lanes, k, cell);
                Some(place)
            }
        }
    }

    /// Counts a full run by `m` rounds.
    pub(crate) fn count(&mut self, m: u32)
        ensures { self.new ≡ record (self.old) {
          rounds = (self.old.rounds + m) % count_end;
          blocks = (self.old.blocks + m * K.LANES) % count_end;
        } }
    {
        let m = m as u64;
        self.rounds = self.rounds.wrapping_add(m);
        self.blocks = self.blocks.wrapping_add(m * K::LANES as u64);
    }
}

/// The packet of the course in a cell goes out into a slot.
#[inline(always)]
fn join_from<K: JobKernel>(lanes: &mut Lanes<K>, place: u32, cell: &mut Cell)
    requires fits { K.fits }
    requires going { IsGoing cell.old }
    requires free { length lanes.old.entries < K.LANES }
    requires next { IsNext K.kind (course_in cell.old) }
    ensures going { IsGoing cell.new }
    ensures out { course_in cell.new ≡ handed_out (course_in cell.old) }
    ensures entry { (e : K.Entry) × (lanes.new.entries ≡ lanes.old.entries ++ e ∷ []) × (1 ≤ K.rest_of e)
        × Gives K.kind (K.rest_of e) (K.brings (end_of K.round K.rest_of e)) (course_in cell.old) }
    ensures places { lanes.new.places ≡ lanes.old.places ++ place ∷ [] }
{
    lanes.enter_from(place, cell.course_mut());
}

/// The entry at position `k` of the lanes goes back to the course in a cell.
#[inline(always)]
fn leave_to<K: JobKernel>(lanes: &mut Lanes<K>, k: usize, cell: &mut Cell)
    requires going { IsGoing cell.old }
    requires position { k < length lanes.old.entries }
    requires done { (d : K.Entry) → K.rest_of (slice_index_or lanes.old.entries k d) ≡ 0 }
    requires out { (d : K.Entry) → IsOut K.kind (K.brings (slice_index_or lanes.old.entries k d)) (course_in cell.old) }
    ensures going { IsGoing cell.new }
    ensures back { (d : K.Entry) → course_in cell.new ≡ taken_back (K.brings (slice_index_or lanes.old.entries k d)) (course_in cell.old) }
    ensures places { lanes.new.places ≡ remove lanes.old.places k }
    ensures others { lanes.new.entries ≡ remove lanes.old.entries k }
{
    lanes.leave_to(k, cell.course_mut());
}
