//! The compression function of SHA-1 (FIPS 180-4, 6.1.2) on many blocks at once: one block and one
//! hash value in each lane.
#![tactic(auto)]

mod blocks;
mod lanes;
mod rounds;
mod states;

pub use blocks::compress;
pub use lanes::compress_lanes;
pub use states::{gathered, scattered};
