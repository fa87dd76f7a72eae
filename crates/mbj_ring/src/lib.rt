//! A ring of cells over raw memory: cells are opened at its end, committed in the order in which they were opened, and
//! popped at its front.
#![tactic(auto)]

mod cells;
mod ring;

// A crate can name a ring in a contract only if the types of its fields are exported.
#[doc(hidden)]
pub use cells::Cells;
pub use ring::{CELLS, Ring, a_ring_has_these_cells};
