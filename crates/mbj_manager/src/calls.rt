ghost use Rattle.std.specs.Prelude.{List};
ghost use Rattle.mbj_manager.specs.Calls.{Call, GivesInOrder, HoldsTheRest};

/// A law: over every list of calls on a new manager, what is given back is a prefix of the results of the jobs that were submitted, in
/// their order and each once; the rest of these results is what the manager still owes, and what it has of their jobs, the packets aside,
/// is what was submitted.
pub fn results_come_back_in_order()
    ensures order { (calls : List Call) → GivesInOrder calls }
    ensures jobs { (calls : List Call) → HoldsTheRest calls }
{}
