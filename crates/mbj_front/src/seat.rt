ghost use Rattle.mbj_front.specs.Inside.Keeps.{Keeps};

use crate::place::Place;
use crate::slot::Slot;

/// What one party knows of the front and holds of it. Only `SharedFront::new` makes seats, one for each party, and a
/// party steps with its own.
#[derive(Drop)]
pub struct PartySeat<J, D> {
    pub(crate) inner: atomic_table::Seat<Slot<J, D>, Place<D>>,
    pub(crate) party: u32,
    /// The number of the earliest that is out, modulo `SUBMITTER_CELLS`.
    pub(crate) first: u32,
    pub(crate) out: u32,
    pub(crate) ghost keeps: { Keeps inner.table_id.words inner.me party first out },
}
