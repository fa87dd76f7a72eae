ghost use Rattle.std.specs.Prelude.{◌≡◌, ◌<◌, [], ◌∷◌, ◌++◌, not, ◌==◌, length, replicate, IfOk};
ghost use Rattle.std.specs.List.{filter};
ghost use Rattle.mbj_core.specs.declared.hand.TheConstants.{ROOM};

use crate::cells::{MAX_SUBMITTERS, SUBMITTER_CELLS};
use std::alloc::{AllocError, Global};
use std::marker::Model;

/// How many cells a hand has room for: as many as a front can have.
const ROOM: u32 = SUBMITTER_CELLS * MAX_SUBMITTERS;

/// The cells whose jobs a party has claimed and not finished, the earliest claim first. Contracts see their list.
#[derive(Drop)]
pub(crate) struct Hand {
    cells: Vec<u32>,
}

impl Model for Hand {
    ghost use Rattle.std.specs.Prelude.{List, ℕ, ◌≤◌, vec_capacity};
    ghost use Rattle.mbj_core.specs.declared.hand.TheConstants.{ROOM};

    ghost Value = { List ℕ };

    ghost view = { λ h. h.cells.items };

    ghost invariant = { λ h. ROOM ≤ vec_capacity h.cells };
}

impl Hand {
    /// An empty hand. It takes the memory for all cells; no other call takes any.
    ///
    /// Returns `AllocError` for want of memory.
    pub(crate) fn new(alloc: Global) -> Result<Hand, AllocError>
        ensures { IfOk result (λ h. h ≡ []) }
    {
        let cells = Vec::with_capacity(alloc, ROOM as usize)?;
        Ok(Hand { cells })
    }

    /// Puts a cell at the end.
    pub(crate) fn push(&mut self, cell: u32)
        requires room { length self.old < ROOM }
        ensures { self.new ≡ self.old ++ cell ∷ [] }
    {
        self.cells.push_reserved(cell);
    }

    /// Takes a cell out; the others stay in their order.
    pub(crate) fn take_out(&mut self, cell: u32)
        ensures { self.new ≡ filter (λ k. not (k == cell)) self.old }
    {
        self.cells.retain(|held| *held != cell);
    }
}

/// This many empty hands.
///
/// Returns `AllocError` for want of memory.
pub(crate) fn empty_hands(alloc: Global, count: usize) -> Result<Vec<Hand>, AllocError>
    ensures { IfOk result (λ v. v.items ≡ replicate count []) }
{
    let mut hands = Vec::new(alloc);
    for _ in 0..count {
        hands.push(Hand::new(alloc)?)?;
    }
    Ok(hands)
}
