ghost use Rattle.std.specs.Prelude.{◌≡◌, ◌+◌, ◌<◌};
ghost use Rattle.mbj_front.specs.Rule.{place};
ghost use Rattle.mbj_front.specs.Seats.{view_of, submitters_of, workers_of, HasRule};
ghost use Rattle.mbj_front.specs.Laws.{StepsKeepTheLaw, StepsFindTheirCell, StepsAreEvents, CoreSeesLawfulStates, NewFrontsAreEmpty, CutsKeepTheRule, LooksFindTheWord};

use crate::front::SharedFront;
use crate::place::{Place, Size};
use crate::results::Results;
use crate::rule::FrontRule;
use crate::seat::PartySeat;
use crate::slot::Slot;
use atomic_table::TableRule;

/// A law: each step, made if it is allowed, leads from a lawful state to a lawful one.
pub fn steps_keep_the_front_lawful<J, D, R: Results<J, D>>()
    ensures { StepsKeepTheLaw R.owed }
{}

/// A law: in a lawful state each step that is allowed finds at its cell what it leads on from. So open, publish, finish
/// and free always find the word that they expect.
pub fn steps_find_their_cell<J, D, R: Results<J, D>>()
    ensures { StepsFindTheirCell R.owed }
{}

/// A law: as the core sees the states, each publish, claim, finish and take is its event post, claim, finish and
/// collect, and each other step changes nothing.
pub fn steps_are_events_of_the_core<J, D, R: Results<J, D>>()
    ensures { StepsAreEvents R.owed }
{}

/// A law: a lawful state is lawful too as the core sees it.
pub fn the_core_sees_lawful_states<J, D, R: Results<J, D>>()
    ensures { CoreSeesLawfulStates R.owed }
{}

/// A law: in a lawful state in which no party has done anything each cell is free.
pub fn new_fronts_are_empty<J, D, R: Results<J, D>>()
    ensures { NewFrontsAreEmpty R.owed }
{}

/// A law: if fewer parties are cut than there are, the next one is cut from the root's place, and the rule of the
/// table still holds. The party has done nothing.
pub fn cuts_keep_the_rule<J, D, R: Results<J, D>>()
    ensures { CutsKeepTheRule R.owed }
{}

/// A law: a load, a claim and a take look at a cell of any table that shows a lawful state. The word that the table has
/// there is the look that the party records, and the step leads from that state as the table of steps says.
pub fn looks_find_the_word<J, D, R: Results<J, D>>()
    ensures { LooksFindTheWord R.owed }
{}

/// A law: what the table of a front keeps between any two steps is the rule of the front's own submitters and workers.
pub fn a_front_keeps_its_own_rule<J, D, R: Results<J, D>>(front: &SharedFront<J, D, R>)
    ensures { HasRule R.owed (submitters_of front.now) (workers_of front.now)
        (⟦<FrontRule<R> as TableRule<Slot<J, D>, Place<D>, Size>>⟧.holds front.now.table.shared.key) }
{
    let _ = front;
}

/// A law: the place of a seat is that of one of the front's parties. It isn't the root's, from which parties are cut.
pub fn a_seat_is_a_partys<J, D>(seat: &PartySeat<J, D>)
    ensures place { let me = seat.now.inner.me.0 in me ≡ place me.submitters me.workers (view_of seat.now) }
    ensures party { (view_of seat.now).number < seat.now.inner.me.0.submitters + seat.now.inner.me.0.workers }
{
    let _ = seat;
}
