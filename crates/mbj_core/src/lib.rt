//! The core of the shared front: submitters that post jobs and collect their results in order, and parties that
//! claim any job and finish it, as one pure machine. Its contracts name the events of the front, over states in
//! which the front with threads (`mbj_front`) is seen too, and its laws hold of every list of events.
#![tactic(auto)]

mod cells;
mod hand;
mod laws;
mod machine;
mod party;

pub use cells::{
    MAX_SUBMITTERS, MAX_WORKERS, SUBMITTER_CELLS, cell_at, the_front_has_these_limits,
};
pub use laws::{
    a_cell_is_emptied_after_a_result, events_keep_the_front_lawful, other_parties_have_nothing,
    results_come_in_the_order_of_posts,
};
pub use machine::Core;
pub use party::{Phase, View};
