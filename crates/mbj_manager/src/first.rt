//! What is looked at of the earliest job, which is given back next.

ghost use Rattle.std.specs.Prelude.{◌≡◌};
ghost use Rattle.mbj_manager.specs.Written.{first_range_in};
ghost use Rattle.mbj_manager.specs.Inside.Courses.{AreCourses, courses, first_stage};

use crate::cell_ring::CellRing;
use mbj_stage::Stage;

/// What is next in the earliest course.
pub(crate) fn next_of_first(ring: &mut CellRing) -> Option<Stage>
    requires { AreCourses ring.old }
    ensures same { ring.new ≡ ring.old }
    ensures stage { result ≡ first_stage (courses ring.old) }
{
    match ring.front_mut() {
        Some(cell) => Some(cell.next_stage()),
        None => None,
    }
}

/// The range that the cipher of the earliest job writes.
pub(crate) fn range_of_first(ring: &mut CellRing) -> Option<(u32, u32)>
    requires { AreCourses ring.old }
    ensures same { ring.new ≡ ring.old }
    ensures range { result ≡ first_range_in (courses ring.old) }
{
    match ring.front_mut() {
        Some(cell) => Some(cell.range()),
        None => None,
    }
}
