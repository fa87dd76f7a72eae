//! Keys that threads share, in sessions that are numbered from 0. A thread that learns a session finds its key expanded
//! in the session's cell, or expands it and puts it there; all threads then use the schedule of the first. No call
//! waits.
#![tactic(auto)]

mod entry;
mod keys;
mod laws;
mod notes;
mod session;

pub use entry::KeyEntry;
pub use keys::Keys;
pub use laws::{agree, keys_cross_threads};
pub use notes::Notes;

// A crate can name keys and notes in a contract only if the types of their fields are exported.
#[doc(hidden)]
pub use session::{Session, SessionNote};

#[cfg(test)]
mod tests;
