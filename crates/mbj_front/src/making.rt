// How a front and its seats are made.
ghost use Rattle.std.specs.Prelude.{◌≡◌, ◌+◌, ◌*◌, ◌≤◌, [], vec_len, replicate, IfOk};
ghost use Rattle.mbj_core.specs.declared.cells.TheConstants.{MAX_SUBMITTERS, MAX_WORKERS, SUBMITTER_CELLS};
ghost use Rattle.mbj_front.specs.declared.slot.Slot.TheVariants.{Blank};
ghost use Rattle.mbj_front.specs.Rule.{root};
ghost use Rattle.mbj_front.specs.Seats.{submitters_of, workers_of, IsIssued};

use crate::front::SharedFront;
use crate::place::{Place, Size};
use crate::plays::Cut;
use crate::results::Results;
use crate::rule::FrontRule;
use crate::seat::PartySeat;
use crate::slot::Slot;
use crate::words::FREE;
use atomic_table::{Refused, Table};
use mbj_core::SUBMITTER_CELLS;
use std::alloc::{AllocError, Global};

/// The words and slots of a front's cells, and what its seats know of it.
type FrontTable<J, D, R> = Table<Slot<J, D>, Place<D>, Size, FrontRule<R>, Global>;

/// This many slots that hold nothing.
///
/// Returns `AllocError` for want of memory.
fn blank_slots<J: Drop, D: Drop>(alloc: Global, count: usize) -> Result<Vec<Slot<J, D>>, AllocError>
    ensures { IfOk result (λ v. v.items ≡ replicate count Blank) }
{
    let mut slots = Vec::new(alloc);
    for _ in 0..count {
        slots.push(Slot::Blank)?;
    }
    Ok(slots)
}

impl<J: Drop, D: Drop, R: Results<J, D>> SharedFront<J, D, R> {
    /// A front in which nothing is posted, for 1 to `MAX_SUBMITTERS` submitters and up to `MAX_WORKERS` workers, and
    /// the seats of its parties, in the order of their numbers. Only this call takes memory.
    ///
    /// Returns `AllocError` for want of memory.
    pub fn new(
        alloc: Global,
        submitters: u32,
        workers: u32,
    ) -> Result<(SharedFront<J, D, R>, Vec<PartySeat<J, D>>), AllocError>
        requires submitters { (1 ≤ submitters) × (submitters ≤ MAX_SUBMITTERS) }
        requires workers { workers ≤ MAX_WORKERS }
        ensures size { IfOk result (λ made. (submitters_of made.0 ≡ submitters) × (workers_of made.0 ≡ workers)) }
        ensures parties { IfOk result (λ made. vec_len made.1 ≡ submitters + workers) }
        ensures seats { IfOk result (λ made. IsIssued made.0 made.1.items) }
    {
        let (table, whole) = SharedFront::lay_table(alloc, submitters, workers)?;
        let front = SharedFront { table, submitters };
        let seats = front.cut_seats(alloc, whole, submitters + workers)?;
        Ok((front, seats))
    }

    /// The table of a front in which nothing is posted, and the seat from which those of its parties are cut.
    fn lay_table(
        alloc: Global,
        submitters: u32,
        workers: u32,
    ) -> Result<
        (
            FrontTable<J, D, R>,
            atomic_table::Seat<Slot<J, D>, Place<D>>,
        ),
        AllocError,
    >
        requires { submitters ≤ MAX_SUBMITTERS }
        ensures words { IfOk result (λ laid. laid.0.shared.table_id.words ≡ SUBMITTER_CELLS * submitters) }
        ensures size { IfOk result (λ laid. (laid.0.shared.key.submitters ≡ submitters) × (laid.0.shared.key.workers ≡ workers)) }
        ensures seat { IfOk result (λ laid. (laid.1.table_id ≡ laid.0.shared.table_id)
            × (laid.1.me ≡ (root submitters workers 0, []))) }
    {
        let count = (SUBMITTER_CELLS * submitters) as usize;
        let words = Vec::from_elem(alloc, FREE, count)?;
        let slots = blank_slots(alloc, count)?;
        let size = Size {
            submitters,
            workers,
        };
        match Table::new(alloc, &words, slots, &size) {
            Ok(laid) => Ok(laid),
            Err(Refused { slots: _ }) => Err(AllocError),
        }
    }

    /// The seats of this many parties, cut from the root's, in the order of their numbers.
    fn cut_seats(
        &self,
        alloc: Global,
        mut whole: atomic_table::Seat<Slot<J, D>, Place<D>>,
        parties: u32,
    ) -> Result<Vec<PartySeat<J, D>>, AllocError>
        requires parties { parties ≡ submitters_of self.now + workers_of self.now }
        requires workers { workers_of self.now ≤ MAX_WORKERS }
        requires table { whole.table_id ≡ self.now.table.shared.table_id }
        requires uncut { whole.me ≡ (root (submitters_of self.now) (workers_of self.now) 0, []) }
        ensures parties { IfOk result (λ v. vec_len v ≡ parties) }
        ensures seats { IfOk result (λ v. IsIssued self.now v.items) }
    {
        let mut seats = Vec::new(alloc);
        for party in 0..parties {
            let inner = self.table.shared.split_seat::<Cut>(&mut whole);
            seats.push(PartySeat {
                inner,
                party,
                first: 0,
                out: 0,
            })?;
        }
        Ok(seats)
    }
}
