ghost use Rattle.mbj_manager.specs.Machine.Queues.{Machine};
ghost use Rattle.mbj_manager.specs.Machine.Counts.{CountsApart};

/// A law: whatever waits in the lanes, what a submission runs is counted as rounds and blocks of full lane queues, and what a
/// flush runs is counted as runs of a flush, also a lane queue that fills within its course.
pub fn counts_are_kept_apart()
    ensures { (m : Machine) → CountsApart m }
{}
