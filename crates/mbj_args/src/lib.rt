//! The argument table: whether a job is accepted, and else for which reason it is refused.
#![tactic(auto)]

mod auth;
mod cipher;
mod table;

pub use table::check;
