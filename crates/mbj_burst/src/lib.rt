//! What one manager gives back if the jobs of a file are handed over in groups, as lines.
#![tactic(auto)]

mod burster;
mod line;

pub use burster::{Told, tell_bursts};
pub use line::BurstLine;
