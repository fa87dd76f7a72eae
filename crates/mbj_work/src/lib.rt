//! Parties at work: what submitters do with their jobs, what workers do for them, and the threads in which they do it.
#![tactic(auto)]

mod bursting;
mod claimed;
mod claiming;
mod crew;
mod dealing;
mod draining;
mod feeding;
mod gate;
mod giving;
mod hunting;
mod known;
mod laws;
mod lender;
mod making;
mod party;
mod posting;
mod private;
mod results;
mod serving;
mod shared;
mod submitter;
mod task;
mod turning;
mod worker;

pub use claimed::Claimed;
pub use dealing::do_jobs;
pub use feeding::{Submitted, submit_job};
pub use gate::{Gate, Moment, OpenGate};
pub use giving::ReturnedJob;
pub use laws::{a_hand_holds_a_ring, results_are_collected_in_order};
pub use party::{CLAIMS, HAND_ROOM, Party};
pub use private::run_private;
pub use results::Results;
pub use shared::run_shared;
pub use turning::Turn;
