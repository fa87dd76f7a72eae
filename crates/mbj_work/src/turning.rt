// A turn of a party: it claims what it finds, and gives back what is finished.
ghost use Rattle.std.specs.Prelude.{◌<◌, ◌≤◌};
ghost use Rattle.std.specs.Int.{from_bool};
ghost use Rattle.std.specs.Bool.{OnTrue};
ghost use Rattle.mbj_front.specs.Seats.{cells_of};
ghost use Rattle.mbj_work.specs.Calls.{worked, Makes};
ghost use Rattle.mbj_work.specs.Parties.{part_of, IsPartyOf, KeepsDue};
ghost use Rattle.mbj_work.specs.Hunts.{EndsUnfound};
ghost use Rattle.mbj_work.specs.Turns.{GivesBack, ClaimsInTurn};
ghost use Rattle.mbj_work.specs.declared.party.TheConstants.{CLAIMS};

use crate::gate::{Gate, OpenGate};
use crate::party::{CLAIMS, HAND_ROOM, Party};
use mbj_front::Front;

/// What a turn came to.
#[derive(Clone, Copy, Debug, PartialEq, Eq)]
pub struct Turn {
    /// How many jobs it claimed.
    pub claimed: u32,
    /// The cell from which the next turn goes on.
    pub from: u32,
    /// Whether its last hunt found no job.
    pub found_none: bool,
}

impl<'k> Party<'k> {
    /// Hunts for jobs from a cell on, and claims those that it finds, `CLAIMS` at most. If the hand is full it settles its first cell.
    /// All results that are finished then are handed back. It waits for nobody.
    pub fn turn(&mut self, front: &Front, from: u32) -> Turn
        requires front { IsPartyOf front.now self.old }
        requires cell { from < cells_of front.now }
        ensures front { IsPartyOf front.now self.new }
        ensures cell { result.from < cells_of front.now }
        ensures most { result.claimed ≤ CLAIMS }
        ensures hand { ClaimsInTurn result.claimed (part_of self.old).hand (part_of self.new).hand }
        ensures due { Makes worked (part_of self.old) (part_of self.new) }
        ensures looks { OnTrue result.found_none (EndsUnfound (cells_of front.now) (part_of self.old) (part_of self.new)) }
    {
        self.turn_at(front, from, &OpenGate)
    }

    /// `turn`, which passes the gate as `claim_at` and `settle_at` do.
    pub fn turn_at<G: Gate>(&mut self, front: &Front, from: u32, gate: &G) -> Turn
        requires front { IsPartyOf front.now self.old }
        requires cell { from < cells_of front.now }
        ensures front { IsPartyOf front.now self.new }
        ensures cell { result.from < cells_of front.now }
        ensures most { result.claimed ≤ CLAIMS }
        ensures hand { ClaimsInTurn result.claimed (part_of self.old).hand (part_of self.new).hand }
        ensures due { Makes worked (part_of self.old) (part_of self.new) }
        ensures looks { OnTrue result.found_none (EndsUnfound (cells_of front.now) (part_of self.old) (part_of self.new)) }
    {
        let turn = self.claim_some(front, from, gate);
        self.give_all_back(front, gate);
        turn
    }

    /// Hunts and claims, `CLAIMS` times at most, until a hunt finds no job.
    fn claim_some<G: Gate>(&mut self, front: &Front, from: u32, gate: &G) -> Turn
        requires front { IsPartyOf front.now self.old }
        requires cell { from < cells_of front.now }
        ensures front { IsPartyOf front.now self.new }
        ensures cell { result.from < cells_of front.now }
        ensures most { result.claimed ≤ CLAIMS }
        ensures hand { ClaimsInTurn result.claimed (part_of self.old).hand (part_of self.new).hand }
        ensures due { KeepsDue (part_of self.old) (part_of self.new) }
        ensures looks { OnTrue result.found_none (EndsUnfound (cells_of front.now) (part_of self.old) (part_of self.new)) }
    {
        let mut at = from;
        let mut claimed = 0;
        let mut left = CLAIMS;
        while left > 0 {
            left -= 1;
            let Some(cell) = self.hunt(front, at) else {
                return Turn {
                    claimed,
                    from: at,
                    found_none: true,
                };
            };
            at = cell;
            claimed += u32::from(self.work_on(front, cell, gate));
        }
        Turn {
            claimed,
            from: at,
            found_none: false,
        }
    }

    /// Makes room in the hand, and claims the cell if it is still ready. Returns whether it did.
    fn work_on<G: Gate>(&mut self, front: &Front, cell: u32, gate: &G) -> bool
        requires front { IsPartyOf front.now self.old }
        requires cell { cell < cells_of front.now }
        ensures front { IsPartyOf front.now self.new }
        ensures hand { ClaimsInTurn (from_bool result) (part_of self.old).hand (part_of self.new).hand }
        ensures due { KeepsDue (part_of self.old) (part_of self.new) }
    {
        self.make_room(front, gate);
        self.claim_ready(front, cell, gate)
    }

    /// Settles the first cell in the hand if the hand is full.
    fn make_room<G: Gate>(&mut self, front: &Front, gate: &G)
        requires { IsPartyOf front.now self.old }
        ensures front { IsPartyOf front.now self.new }
        ensures hand { GivesBack (part_of self.old).hand (part_of self.new).hand }
        ensures due { KeepsDue (part_of self.old) (part_of self.new) }
    {
        if self.hand() != HAND_ROOM {
            return;
        }
        self.settle_at(front, gate);
    }
}
