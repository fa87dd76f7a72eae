//! GHASH (SP 800-38D, 6.4), the hash over the blocks of a message that GCM makes its tag from, by lookups in tables that stand in registers.
//! No call takes memory. No address and no branch depends on the subkey or on what is hashed: this is seen in the code; no clause states it.
#![tactic(auto)]

mod fold;
mod ghash;
mod horner;
mod laws;
mod product_sum;
mod rows;
mod tables;

pub use ghash::Ghash;
pub use laws::examples_of_the_gcm_specification;
