//! The work on one lane queue, with the courses in the ring and the agenda: the same for every kind.

ghost use Rattle.std.specs.Prelude.{◌≡◌, ◌+◌, ◌<◌, ◌≤◌, length, vec_capacity};
ghost use Rattle.mbj_types.specs.Kinds.{lanes_of};
ghost use Rattle.mbj_ring.specs.declared.ring.TheConstants.{CELLS};
ghost use Rattle.mbj_stage.specs.CourseState.{stage_of};
ghost use Rattle.mbj_manager.specs.Machine.Queues.{changed};
ghost use Rattle.mbj_manager.specs.Inside.Courses.{AreCourses, Follows, IsSameRing, courses, ring_number};
ghost use Rattle.mbj_manager.specs.Inside.Leaving.{At};
ghost use Rattle.mbj_manager.specs.Inside.PlacedQueue.{numbered};
ghost use Rattle.mbj_manager.specs.Inside.QueueView.{Enters, IsReady, Listed, MayEnter, queue_view_at, left_now, ran_at};
ghost use Rattle.mbj_stage.specs.CourseState.{CourseState};

use crate::agenda::Agenda;
use crate::cell_ring::CellRing;
use crate::lane_queue::LaneQueue;
use mbj_stage::{JobKernel, Stage};

/// The call within which a lane queue runs.
#[derive(Clone, Copy)]
pub enum Cause {
    Submit,
    Flush,
}

/// Does what finishes at once in the course at a place. Returns what is next then.
pub(crate) fn run_nows(ring: &mut CellRing, place: u32) -> Stage
    requires ring { AreCourses ring.old }
    requires place { place < CELLS }
    requires here { At (λ c. c.out ≡ None) (ring_number ring.old place) (courses ring.old) }
    ensures ring { IsSameRing ring.new ring.old }
    ensures follows { (c : CourseState) × ((courses ring.new ≡ changed (λ _. c) (ring_number ring.old place) (courses ring.old))
        × ((result ≡ stage_of c) × (At (Follows c) (ring_number ring.old place) (courses ring.old)))) }
{
    let cell = ring.at_mut(place);
    cell.run_nows()
}

/// Jobs whose rounds are done leave the lane queue, in its order: their entries go back to the courses, which join the agenda.
fn leave<K: JobKernel>(queue: &mut LaneQueue<K>, ring: &mut CellRing, agenda: &mut Agenda)
    requires ring { AreCourses ring.old }
    requires listed { Listed K.kind (courses ring.old) (numbered (ring_number ring.old) queue.old.queued) }
    requires room { length agenda.old.places.items + length queue.old.queued ≤ vec_capacity agenda.old.places }
    ensures ring { IsSameRing ring.new ring.old }
    ensures room { vec_capacity agenda.new.places ≡ vec_capacity agenda.old.places }
    ensures left { queue_view_at (ring_number ring.old) (courses ring.new) agenda.new.places.items queue.new 0
        ≡ left_now (queue_view_at (ring_number ring.old) (courses ring.old) agenda.old.places.items queue.old 0) }
{
    'leaving: loop {
        match queue.leave(ring) {
            None => return,
            Some(place) => {
                agenda.push(place);
            }
        }
    }
}

/// The lane queue runs for its least rest, within a submit, if all its lanes are occupied, or within a flush; and those whose rounds are
/// done leave. The run goes into the counts of that call.
pub(crate) fn run_within<K: JobKernel>(
    cause: Cause,
    queue: &mut LaneQueue<K>,
    flush_runs: &mut u64,
    ring: &mut CellRing,
    agenda: &mut Agenda,
)
    requires ring { AreCourses ring.old }
    requires ready { IsReady K.kind (queue_view_at (ring_number ring.old) (courses ring.old) agenda.old.places.items queue.old flush_runs.old)
        (vec_capacity agenda.old.places) }
    requires full { cause ≡ Cause.Submit → length queue.old.queued ≡ lanes_of K.kind }
    ensures ring { IsSameRing ring.new ring.old }
    ensures room { vec_capacity agenda.new.places ≡ vec_capacity agenda.old.places }
    ensures ran { queue_view_at (ring_number ring.old) (courses ring.new) agenda.new.places.items queue.new flush_runs.new
        ≡ ran_at cause (queue_view_at (ring_number ring.old) (courses ring.old) agenda.old.places.items queue.old flush_runs.old) }
{
    let m = queue.run();
    leave(queue, ring, agenda);
    match cause {
        Cause::Submit => queue.count(m),
        Cause::Flush => *flush_runs = flush_runs.wrapping_add(1),
    }
}

/// The course at a place goes into the lane queue, which runs if it is full then.
pub(crate) fn enter<K: JobKernel>(
    cause: Cause,
    queue: &mut LaneQueue<K>,
    flush_runs: &mut u64,
    ring: &mut CellRing,
    agenda: &mut Agenda,
    place: u32,
)
    requires fits { K.fits }
    requires ring { AreCourses ring.old }
    requires place { place < CELLS }
    requires may { MayEnter (lanes_of K.kind) K.kind (ring_number ring.old place)
        (queue_view_at (ring_number ring.old) (courses ring.old) agenda.old.places.items queue.old flush_runs.old) (vec_capacity agenda.old.places) }
    ensures ring { IsSameRing ring.new ring.old }
    ensures room { vec_capacity agenda.new.places ≡ vec_capacity agenda.old.places }
    ensures entered { Enters cause (lanes_of K.kind) K.kind (ring_number ring.old place)
        (queue_view_at (ring_number ring.old) (courses ring.old) agenda.old.places.items queue.old flush_runs.old)
        (queue_view_at (ring_number ring.old) (courses ring.new) agenda.new.places.items queue.new flush_runs.new) }
{
    queue.join(ring, place);
    if queue.len() == K::LANES {
        run_within(cause, queue, flush_runs, ring, agenda);
    }
}
