//! What C calls: each export is a line over a call of its own, which has the proof.

pub mod bytes;
pub mod gmac;
pub mod jobs;
pub mod keys;
pub mod managers;
pub mod seats;
pub mod tables;
pub mod texts;
