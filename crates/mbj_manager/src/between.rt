ghost use Rattle.std.specs.Prelude.{List};
ghost use Rattle.mbj_manager.specs.Machine.Queues.{Machine};
ghost use Rattle.mbj_manager.specs.Calls.{Call};
ghost use Rattle.mbj_manager.specs.Kept.{AreKept};
ghost use Rattle.mbj_manager.specs.Machine.Between.{IsBetweenCalls, KeepsMachines, StepsEndAlike};

/// A law: from every machine between two calls, the course of a submission and a flush lead to a machine between two calls,
/// whatever stages the submitted job has, if each of them in lanes takes a round at least; so the course ends with nothing
/// left to take up, no job stands in two lane queues, and a flush ends with the earliest job finished.
pub fn machines_stay_between_calls()
    ensures { (m : Machine) → IsBetweenCalls m → KeepsMachines m }
{}

/// A law: after every list of calls on a new manager its machine is one between two calls, and a flush gives the earliest job
/// back if there is one. The flush adds to the count of its runs at most twice as many as there are jobs that are submitted
/// and not given back.
pub fn calls_keep_the_machine()
    ensures { (calls : List Call) → AreKept calls }
{}

/// A law: it doesn't matter how often a course and a flush iterate, if it is often enough. Every number of steps after which the agenda
/// is empty gives the same machine, and so does every number of flush steps after which the earliest job is finished.
pub fn enough_steps_give_one_machine()
    ensures { (m : Machine) → StepsEndAlike m }
{}
