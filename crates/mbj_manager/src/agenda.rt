ghost use Rattle.std.specs.Prelude.{◌≡◌, ◌≢◌, ◌↔◌, ◌<◌, ◌≤◌, [], ◌∷◌, ◌++◌, length, All, IfOk, IsTrue, vec_capacity};
ghost use Rattle.mbj_ring.specs.declared.ring.TheConstants.{CELLS};
ghost use Rattle.mbj_manager.specs.Inside.Held.{agenda_room};

use mbj_types::Kind;
use std::alloc::{AllocError, Global};

/// How many jobs stand in agenda and lane queues at most: in each lane queue one fewer than it has lanes, and one that goes on.
pub(crate) fn agenda_room() -> usize
    ensures { result ≡ agenda_room }
{
    let mut room = 1;
    'kinds: for kind in Kind::ALL {
        room += kind.lanes() as usize - 1;
    }
    room
}

/// The jobs that stand between two stages, by their places in the ring: those that go on next.
#[derive(Drop)]
pub struct Agenda {
    /// The places of the jobs in the ring, that of the job that goes on next first.
    pub places: Vec<u32>,
    ghost in_ring: { All (λ p. p < CELLS) places.items },
}

impl Agenda {
    /// An empty agenda, with room for `room` jobs.
    pub(crate) fn new(alloc: Global, room: usize) -> Result<Agenda, AllocError>
        ensures places { IfOk result (λ a. a.places.items ≡ []) }
        ensures room { IfOk result (λ a. room ≤ vec_capacity a.places) }
    {
        Ok(Agenda {
            places: Vec::with_capacity(alloc, room)?,
        })
    }

    pub(crate) fn is_empty(&self) -> bool
        ensures { IsTrue result ↔ (self.now.places.items ≡ []) }
    {
        self.places.is_empty()
    }

    /// A job joins the end, for which there is room.
    pub(crate) fn push(&mut self, place: u32)
        requires place { place < CELLS }
        requires room { length self.old.places.items < vec_capacity self.old.places }
        ensures places { self.new.places.items ≡ self.old.places.items ++ place ∷ [] }
        ensures room { vec_capacity self.new.places ≡ vec_capacity self.old.places }
    {
        self.places.push_reserved(place);
    }

    /// The first job leaves.
    pub(crate) fn take_first(&mut self) -> u32
        requires { self.old.places.items ≢ [] }
        ensures place { result < CELLS }
        ensures first { self.old.places.items ≡ result ∷ self.new.places.items }
        ensures room { vec_capacity self.new.places ≡ vec_capacity self.old.places }
    {
        self.places.remove(0)
    }
}
