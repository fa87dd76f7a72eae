//! Jobs that are made from a seed, and a summary of their results.
#![tactic(auto)]

mod draws;
mod generator;
mod line;
mod line_sink;
mod making;
mod summary;
mod summing;

pub use generator::Generator;
pub use line::SummaryLine;
pub use line_sink::LINE_ROOM;
pub use making::make_jobs;
pub use summary::Summary;
