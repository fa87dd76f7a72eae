// The parties of a front on one thread, each beside its front.
ghost use Rattle.std.specs.Prelude.{◌≡◌, ◌<◌, [], IfOk};
ghost use Rattle.std.specs.Bool.{OnTrue};
ghost use Rattle.mbj_core.specs.declared.cells.TheConstants.{MAX_SUBMITTERS, SUBMITTER_CELLS};
ghost use Rattle.mbj_core.specs.declared.party.Phase.TheVariants.{Rest};
ghost use Rattle.mbj_front.specs.Seats.{view_of, submitters_of, IsIssued, IsOf};
ghost use Rattle.mbj_work.specs.Parties.{part_of, seat_of, IsPartyOf, Submits};

use mbj_core::{MAX_SUBMITTERS, SUBMITTER_CELLS, cell_at};
use mbj_front::{Front, Seat};
use mbj_keys::Keys;
use mbj_types::Job;
use mbj_work::{Claimed, Gate, HAND_ROOM, Party};
use std::alloc::{AllocError, Global};
use std::collections::VecDeque;
use std::sync::Arc;

/// A party of a front.
#[derive(Drop)]
pub(crate) struct Player<'a> {
    pub(crate) front: &'a Front,
    number: u32,
    pub(crate) party: Party<'a>,
    /// In a script the number of a submitter's next job, and the numbers of its jobs that are out or of those in a worker's
    /// hand, the earliest first.
    pub(crate) next: u32,
    pub(crate) jobs: VecDeque<u32>,
    ghost belongs: { IsPartyOf front.now party },
    ghost numbered: { (part_of party).number ≡ number },
}

/// The party of a seat, which owns a share of the keys, if there are any.
fn party_of<'a>(
    alloc: Global,
    seat: Seat,
    keys: Option<&Arc<Keys>>,
) -> Result<Party<'a>, AllocError>
    requires rest { (view_of seat).phase ≡ Rest }
    requires hand { (view_of seat).hand ≡ [] }
    ensures { IfOk result (λ party. seat_of party ≡ seat) }
{
    match keys {
        Some(keys) => Party::new_owning(alloc, seat, Arc::try_clone(keys)?),
        None => Party::new(alloc, seat),
    }
}

/// Adds the party of a seat.
fn join<'a>(
    players: &mut Vec<Player<'a>>,
    alloc: Global,
    front: &'a Front,
    seat: Seat,
    keys: Option<&Arc<Keys>>,
) -> Result<(), AllocError>
    requires front { IsOf front.now seat }
    requires rest { (view_of seat).phase ≡ Rest }
    requires hand { (view_of seat).hand ≡ [] }
{
    let number = seat.party();
    let party = party_of(alloc, seat, keys)?;
    players.push(Player {
        front,
        number,
        party,
        next: number,
        jobs: VecDeque::new(alloc),
    })?;
    Ok(())
}

/// The parties of the seats of a front, in their order, which own shares of the keys, if there are any.
pub(crate) fn players_of<'a>(
    alloc: Global,
    front: &'a Front,
    seats: Vec<Seat>,
    keys: Option<&Arc<Keys>>,
) -> Result<Vec<Player<'a>>, AllocError>
    requires { IsIssued front.now seats.items }
{
    let mut players = Vec::new(alloc);
    let mut seats = VecDeque::from(seats);
    while let Some(seat) = seats.pop_front() {
        join(&mut players, alloc, front, seat, keys)?;
    }
    Ok(players)
}

impl Player<'_> {
    /// How many submitters the front has.
    pub(crate) fn submitters(&self) -> u32
        ensures { result ≡ submitters_of self.now.front.now }
    {
        self.front.cells() / SUBMITTER_CELLS
    }

    /// Whether this is a submitter.
    pub(crate) fn submits(&self) -> bool
        ensures { OnTrue result (Submits self.now.front.now self.now.party) }
    {
        self.number < self.submitters()
    }

    /// The first cell from this one on that has a job to be claimed.
    pub(crate) fn hunt(&mut self, from: u32) -> Option<u32> {
        if from >= self.front.cells() {
            return None;
        }
        self.party.hunt(self.front, from)
    }

    /// Claims a cell, if the front has it and the hand has room.
    pub(crate) fn claim(&mut self, cell: u32) -> Option<Claimed> {
        if cell >= self.front.cells() || self.party.hand() == HAND_ROOM {
            return None;
        }
        Some(self.party.claim(self.front, cell))
    }

    /// A turn from the first cell on. Returns false exactly where the front has no cell.
    pub(crate) fn turn<G: Gate>(&mut self, gate: &G) -> bool {
        if self.front.cells() == 0 {
            return false;
        }
        self.party.turn_at(self.front, 0, gate);
        true
    }

    /// Posts a job of a submitter, if a cell is free for it.
    pub(crate) fn posts(&mut self, job: Job) -> bool
        requires { Submits self.old.front.now self.old.party }
    {
        self.party.post(self.front, job).is_ok()
    }

    /// The cell of a submitter's job that is `count` behind its earliest one that is out.
    fn cell_behind(&self, count: u32) -> Option<u32>
        requires { count < SUBMITTER_CELLS }
    {
        if self.number >= MAX_SUBMITTERS.min(self.submitters()) {
            return None;
        }
        Some(cell_at(self.number, self.party.first_cell() + count))
    }

    /// Tries the cells of a submitter that are out, the earliest first, until one is claimed. Returns the number of its
    /// job.
    pub(crate) fn claim_from(&mut self, submitter: &Player) -> Option<u32> {
        for count in 0..submitter.party.out() {
            if self.claim(submitter.cell_behind(count)?) == Some(Claimed::Yes) {
                return submitter.jobs.get(count as usize).copied();
            }
        }
        None
    }
}
