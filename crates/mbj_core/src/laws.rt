ghost use Rattle.mbj_core.specs.Lawful.{EmptiesAfterAResult, OthersHaveNothing};
ghost use Rattle.mbj_core.specs.Runs.{EventsKeepTheLaw, ResultsComeInOrder};
ghost use Rattle.mbj_types.specs.Result.{result_of};

/// A law: each list of events leads from the new front to lawful states only.
pub fn events_keep_the_front_lawful()
    ensures { EventsKeepTheLaw result_of }
{}

/// A law: after each list of events from the new front on, the results that a submitter has collected are the first ones of
/// those of the jobs that it has posted, each once, in the order of its posts.
pub fn results_come_in_the_order_of_posts()
    ensures { ResultsComeInOrder result_of }
{}

/// A law: no state is lawful in which a party empties a cell before a result is handed to it.
pub fn a_cell_is_emptied_after_a_result()
    ensures { EmptiesAfterAResult result_of }
{}

/// A law: no state is lawful in which a party past submitters and workers has anything: results that are due or handed
/// out, a cell that it fills, empties or has in its hand, or a look.
pub fn other_parties_have_nothing()
    ensures { OthersHaveNothing result_of }
{}
