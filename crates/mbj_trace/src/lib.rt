//! What each call of one manager gives back over the jobs of a file, as lines.
#![tactic(auto)]

mod line;
mod tracer;

pub use line::TraceLine;
pub use tracer::{Taking, trace_lines};
