//! A script of commands over one front, with a manager for each worker, and the lines that tell the outcome of each command.
#![tactic(auto)]

mod claiming;
mod laws;
mod line;
mod replayer;
mod worker;

pub use laws::{a_submitter_has_as_many_cells_as_a_ring, replays_are_of_events};
pub use line::ReplayLine;
pub use replayer::replay_lines;
