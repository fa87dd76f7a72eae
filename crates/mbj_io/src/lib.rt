//! Where bytes come from and where they go: readers and writers that count their faults.
//!
//! A [`Source`] and a [`Sink`] say more than std's `Read` and `Write`: a call returns [`Failed`]
//! only where the count of faults has risen. So a caller can tell a fault of the outside from a wrong
//! result of the program. [`MemSource`] and [`MemSink`] say their bytes in contracts, and fail at the
//! calls that they are given. [`StdSource`] and [`StdSink`] adapt any reader and writer of std.
#![tactic(auto)]

mod calls;
mod memory;
mod standard;
mod traits;

pub use memory::{MemSink, MemSource};
pub use standard::{StdSink, StdSource};
pub use traits::{Failed, Sink, Source};
