ghost use Rattle.std.specs.Prelude.{◌≡◌, []};
ghost use Rattle.mbj_core.specs.declared.party.Phase.TheVariants.{Rest};
ghost use Rattle.mbj_front.specs.Seats.{view_of, IsOf};
ghost use Rattle.mbj_work.specs.Inside.Runs.{MayServe};

use crate::gate::Gate;
use crate::party::Party;
use mbj_front::{Front, Seat};
use mbj_keys::Keys;
use std::alloc::{AllocError, Global};
use std::sync::Wait;
use std::sync::atomic::AtomicBool;
use std::sync::atomic::Ordering::SeqCst;

/// The flags that the tasks of a run share.
#[derive(Drop)]
pub(crate) struct Flags {
    /// Set once all submitters are done.
    pub(crate) stop: AtomicBool,
    /// Set if there was no memory for a worker's party.
    pub(crate) refused: AtomicBool,
}

/// A worker of a run: the seat for its party, which it makes when it serves.
#[derive(Drop)]
pub(crate) struct Worker {
    alloc: Global,
    seat: Seat,
}

impl Worker {
    #[tactic(auto, unfolding(crate::specs::Inside::Runs::MayServe))]
    pub(crate) fn new(alloc: Global, _front: &Front, seat: Seat) -> Worker
        requires front { IsOf _front.now seat }
        requires rest { (view_of seat).phase ≡ Rest }
        requires hand { (view_of seat).hand ≡ [] }
        ensures { MayServe _front.now result }
    {
        Worker { alloc, seat }
    }

    /// Makes its party, which shares these keys, and serves until the stop flag is set.
    #[tactic(auto, unfolding(crate::specs::Inside::Runs::MayServe))]
    pub(crate) fn serve<R: Wait, G: Gate>(
        self,
        rt: &R,
        front: &Front,
        keys: &Keys,
        gate: &G,
        flags: &Flags,
    )
        requires { MayServe front.now self }
    {
        match Party::new_in(self.alloc, self.seat, keys) {
            Ok(mut party) => party.serve(rt, front, gate, &flags.stop),
            Err(AllocError) => flags.refused.store(true, SeqCst),
        }
    }
}
