// How a party is made, and the numbers that it tells.
ghost use Rattle.std.specs.Prelude.{◌≡◌, ◌⊎◌, ◌+◌, ◌≤◌, [], length, IfOk};
ghost use Rattle.std.specs.Arc.{arc_value};
ghost use Rattle.mbj_core.specs.Cells.{cell_of};
ghost use Rattle.mbj_core.specs.declared.cells.TheConstants.{SUBMITTER_CELLS};
ghost use Rattle.mbj_core.specs.declared.party.Phase.TheVariants.{Rest};
ghost use Rattle.mbj_front.specs.Seats.{view_of, IsSubmitter};
ghost use Rattle.mbj_manager.specs.State.{new_manager};
ghost use Rattle.mbj_work.specs.declared.party.TheConstants.{HAND_ROOM};
ghost use Rattle.mbj_work.specs.Knowing.{KnowsAll};
ghost use Rattle.mbj_work.specs.Parties.{seat_of, part_of, manager_of, notes_of};

use crate::known::KnownKeys;
use crate::lender::Lender;
use crate::party::{HAND_ROOM, Party};
use circular_buffer::HeapCircularBuffer;
use mbj_front::Seat;
use mbj_keys::Keys;
use mbj_manager::{Cell, Manager};
use std::alloc::{AllocError, Global};
use std::sync::Arc;

impl<'k> Party<'k> {
    /// A party with this seat, which is at rest and has an empty hand, and with a new manager. It shares no keys.
    ///
    /// Returns `AllocError` for want of memory; the seat is then dropped.
    pub fn new(alloc: Global, seat: Seat) -> Result<Party<'k>, AllocError>
        requires rest { (view_of seat).phase ≡ Rest }
        requires hand { (view_of seat).hand ≡ [] }
        ensures seat { IfOk result (λ party. seat_of party ≡ seat) }
        ensures manager { IfOk result (λ party. manager_of party ≡ new_manager) }
        ensures notes { IfOk result (λ party. notes_of party ≡ []) }
    {
        Party::with(alloc, seat, None)
    }

    /// A party as `new` makes it, which shares keys with other parties: it has learnt all sessions, and submits the jobs that it
    /// claims with their entries. It doesn't wait for the others.
    ///
    /// Returns `AllocError` for want of memory; the seat is then dropped.
    pub fn new_in(alloc: Global, seat: Seat, keys: &'k Keys) -> Result<Party<'k>, AllocError>
        requires rest { (view_of seat).phase ≡ Rest }
        requires hand { (view_of seat).hand ≡ [] }
        ensures seat { IfOk result (λ party. seat_of party ≡ seat) }
        ensures manager { IfOk result (λ party. manager_of party ≡ new_manager) }
        ensures notes { IfOk result (λ party. KnowsAll keys.now (notes_of party)) }
    {
        let known = KnownKeys::learn(alloc, Lender::Owner(keys))?;
        Party::with(alloc, seat, Some(known))
    }

    /// A party as `new_in` makes it, which owns a share of the keys. So it may outlive their other owners.
    ///
    /// Returns `AllocError` for want of memory; the seat and the share are then dropped.
    pub fn new_owning(alloc: Global, seat: Seat, keys: Arc<Keys>) -> Result<Party<'k>, AllocError>
        requires rest { (view_of seat).phase ≡ Rest }
        requires hand { (view_of seat).hand ≡ [] }
        ensures seat { IfOk result (λ party. seat_of party ≡ seat) }
        ensures manager { IfOk result (λ party. manager_of party ≡ new_manager) }
        ensures notes { IfOk result (λ party. KnowsAll (arc_value keys) (notes_of party)) }
    {
        let known = KnownKeys::learn(alloc, Lender::Share(keys))?;
        Party::with(alloc, seat, Some(known))
    }

    fn with(
        alloc: Global,
        seat: Seat,
        known: Option<KnownKeys<'k>>,
    ) -> Result<Party<'k>, AllocError>
        requires rest { (view_of seat).phase ≡ Rest }
        requires hand { (view_of seat).hand ≡ [] }
        ensures seat { IfOk result (λ party. seat_of party ≡ seat) }
        ensures manager { IfOk result (λ party. manager_of party ≡ new_manager) }
        ensures known { IfOk result (λ party. party.known ≡ known.entry) }
    {
        let cells = HeapCircularBuffer::with_capacity(alloc, HAND_ROOM as usize)?;
        let manager = Manager::keeping_none(alloc)?;
        let settled = Vec::with_capacity(alloc, HAND_ROOM as usize)?;
        let given = Cell::blank(alloc)?;
        Ok(Party {
            alloc,
            seat,
            manager,
            cells,
            known,
            given,
            settled,
        })
    }

    /// How many cells are in the hand.
    pub fn hand(&self) -> u32
        ensures hand { result ≡ length (part_of self.now).hand }
        ensures within { result ≤ HAND_ROOM }
    {
        self.cells.len() as u32
    }

    /// How many of its own jobs are out: posted, and their results not collected. 0 for a worker.
    pub fn out(&self) -> u32
        ensures out { length (part_of self.now).due ≡ (part_of self.now).handed + result }
        ensures within { result ≤ SUBMITTER_CELLS }
        ensures worker { IsSubmitter (seat_of self.now) ⊎ (result ≡ 0) }
    {
        self.seat.out()
    }

    /// The cell of a submitter's earliest job that is out, or of its next job if none is out.
    pub fn first_cell(&self) -> u32
        requires { IsSubmitter (seat_of self.now) }
        ensures { result ≡ cell_of (part_of self.now).number (part_of self.now).handed }
    {
        self.seat.first_cell()
    }
}
