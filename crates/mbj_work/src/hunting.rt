ghost use Rattle.std.specs.Prelude.{◌≡◌, ◌<◌, IfSome, MatchOption};
ghost use Rattle.mbj_front.specs.Seats.{cells_of};
ghost use Rattle.mbj_work.specs.Calls.{worked, Makes};
ghost use Rattle.mbj_work.specs.Parties.{part_of, manager_of, IsPartyOf};
ghost use Rattle.mbj_work.specs.Hunts.{FindsReady, FindsNone};

use crate::party::Party;
use mbj_front::{Front, READY};

impl<'k> Party<'k> {
    /// Looks at each cell once, from one on and round, and returns the first that has a job to be claimed. Returns `None`
    /// exactly where each of these looks found another word.
    pub fn hunt(&mut self, front: &Front, from: u32) -> Option<u32>
        requires front { IsPartyOf front.now self.old }
        requires cell { from < cells_of front.now }
        ensures front { IsPartyOf front.now self.new }
        ensures cell { IfSome result (λ c. c < cells_of front.now) }
        ensures part { MatchOption result
            (FindsNone (cells_of front.now) from (part_of self.old) (part_of self.new))
            (λ c. FindsReady (cells_of front.now) from c (part_of self.old) (part_of self.new)) }
        ensures due { Makes worked (part_of self.old) (part_of self.new) }
        ensures manager { manager_of self.new ≡ manager_of self.old }
    {
        let cells = front.cells();
        for i in 0..cells {
            let cell = (from + i) % cells;
            if front.scan(&mut self.seat, cell) == READY {
                return Some(cell);
            }
        }
        None
    }
}
