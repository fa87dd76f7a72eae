//! Lanes: pieces of work of one kind that wait for each other, and then advance together, round by round.
#![tactic(auto)]

mod host;
mod kernel;
mod lanes;
mod slot_kernel;

pub use host::Host;
pub use kernel::Kernel;
pub use lanes::Lanes;
pub use slot_kernel::SlotKernel;
