//! GCM with AES (SP 800-38D) on a text in place, with IVs of 1 to 65,535 bytes, and the law that unsealing undoes sealing.
//! Nothing is compared: a caller compares the tag that it gets. No call takes memory.
#![tactic(auto)]

mod counter;
mod hash;
mod in_place;
mod laws;

pub use counter::{incremented, outputs_after, pre_counter_block};
pub use hash::length_block;
pub use in_place::{seal, unseal};
pub use laws::unsealing_undoes_sealing;
