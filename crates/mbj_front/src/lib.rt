//! The shared front: submitters post jobs to cells and collect their results in order, and any party claims jobs and
//! finishes them. Parties may run in threads of their own. Each makes one atomic step at a time, on the word of one
//! cell, and a job or a result lies in the slot beside that word; there is no lock, and only `new` takes memory.
//!
//! Contracts speak of a party by its `View` in `mbj_core`, and of a step by the states of the front that it leads from
//! and to. The laws say that each step leads from a lawful state to a lawful one, and which event of the core it is.
#![tactic(auto)]

mod front;
mod laws;
mod making;
mod place;
mod plays;
mod posting;
mod results;
mod returned;
mod rule;
mod seat;
mod seat_numbers;
mod slot;
mod standard;
mod words;
mod working;

pub use front::SharedFront;
pub use laws::{
    a_front_keeps_its_own_rule, a_seat_is_a_partys, cuts_keep_the_rule, looks_find_the_word,
    new_fronts_are_empty, steps_are_events_of_the_core, steps_find_their_cell,
    steps_keep_the_front_lawful, the_core_sees_lawful_states,
};
pub use results::Results;
pub use returned::Returned;
pub use seat::PartySeat;
pub use standard::{Front, Seat, Standard};
pub use words::{DONE, FREE, READY};

// A crate can name a front or a seat in a contract only if the types of their fields are exported.
#[doc(hidden)]
pub use place::{Place, Size};
#[doc(hidden)]
pub use rule::FrontRule;
#[doc(hidden)]
pub use slot::Slot;
