//! CCM with AES (SP 800-38C), with nonces of 7 to 13 bytes and additional data of fewer than 65,280 bytes: a text in place in counter mode
//! and the mask of its tag; the MACs of many packets side by side in lanes; and the law that opening undoes sealing. The tag is a MAC xored
//! with its mask, and nothing is compared: a caller compares the tag. Only `new_slots` takes memory.
#![tactic(auto)]

mod counter;
mod entry;
mod format;
mod laws;

pub use counter::{apply, apply_and_mask, mask};
pub use entry::{CcmEntry, CcmKernel};
pub use laws::opening_undoes_sealing;
