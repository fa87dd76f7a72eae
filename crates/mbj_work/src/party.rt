ghost use Rattle.std.specs.Prelude.{◌≡◌};
ghost use Rattle.mbj_types.specs.Blank.{blank};
ghost use Rattle.mbj_manager.specs.Cells.{Open};
ghost use Rattle.mbj_front.specs.Seats.{view_of};
ghost use Rattle.mbj_work.specs.Inside.Holding.{Holds, HasRoom};

use crate::known::KnownKeys;
use circular_buffer::HeapCircularBuffer;
use mbj_front::Seat;
use mbj_manager::{Cell, Manager};
use mbj_ring::CELLS;
use mbj_types::{AES_LANES, Done};
use std::alloc::Global;

/// How many cells a hand has room for: as many as a manager has for jobs.
pub const HAND_ROOM: u32 = CELLS;

/// How many jobs a party claims at most in a turn, and where it helps: as many as the longest lane queue holds, so that the queues fill
/// up, and other parties find the other jobs.
pub const CLAIMS: u32 = AES_LANES as u32;

/// One party of a front: its seat there, a manager of its own, and its hand, which is the cells whose jobs it has claimed
/// and not finished, in the order of the claims.
///
/// Only `new`, `new_in` and `new_owning` take memory. A party waits for others in `drain` and `serve` alone.
#[derive(Drop)]
pub struct Party<'k> {
    pub(crate) alloc: Global,
    pub(crate) seat: Seat,
    pub(crate) manager: Manager,
    pub(crate) cells: HeapCircularBuffer<u32>,
    /// The keys that it shares with other parties, if it shares any.
    pub(crate) known: Option<KnownKeys<'k>>,
    /// A blank cell, through which the manager gives back.
    pub(crate) given: Cell,
    /// The results of a burst until their cells are finished, and empty between calls.
    pub(crate) settled: Vec<Done>,
    pub(crate) ghost holds: { Holds (view_of seat) manager cells },
    pub(crate) ghost blank_given: { given ≡ Open blank },
    pub(crate) ghost room: { HasRoom settled },
}
