//! The manager: a caller gets the next job cell, fills it, submits it, and takes finished jobs back in the order of
//! submission.
#![tactic(auto)]

mod agenda;
mod between;
mod bursts;
mod calls;
mod cell;
mod cell_ring;
mod counts;
mod engine;
mod first;
mod has_queue;
mod lane;
mod lane_queue;
mod lane_queues;
mod manager;

pub use between::{
    calls_keep_the_machine, enough_steps_give_one_machine, machines_stay_between_calls,
};
pub use calls::results_come_back_in_order;
// A crate can name a manager in a contract only if the types of its fields are exported.
#[doc(hidden)]
pub use agenda::Agenda;
pub use cell::Cell;
#[doc(hidden)]
pub use cell::CellContents;
#[doc(hidden)]
pub use cell_ring::CellRing;
pub use counts::counts_are_kept_apart;
#[doc(hidden)]
pub use engine::Engine;
pub use has_queue::HasQueue;
#[doc(hidden)]
pub use lane::Cause;
#[doc(hidden)]
pub use lane_queue::LaneQueue;
#[doc(hidden)]
pub use lane_queues::LaneQueues;
pub use manager::{KEPT_BYTES, Manager, SMALL_BYTES};
