//! CMAC with AES (SP 800-38B): of one message, and of many messages side by side in lanes. Only `new_slots` takes memory.
#![tactic(auto)]

mod closing;
mod entry;
mod plain;

pub use closing::{doubled, first_subkey};
pub use entry::{CmacEntry, CmacKernel};
pub use plain::cmac_plain;
