ghost use Rattle.std.specs.Prelude.{◌≡◌, map};
ghost use Rattle.mbj_core.specs.declared.party.Phase.TheVariants.{Rest};
ghost use Rattle.mbj_work.specs.Parties.{part_of, manager_of};
ghost use Rattle.mbj_work.specs.Calls.{CollectsInOrder, DrainsCollectAll};
ghost use Rattle.mbj_ring.specs.declared.ring.TheConstants.{CELLS};
ghost use Rattle.mbj_work.specs.declared.party.TheConstants.{HAND_ROOM};

use crate::party::Party;

impl<'k> Party<'k> {
    /// A law: between its calls a party is at rest, and its manager owes the results of the jobs in the hand, in the order
    /// of the claims.
    pub fn owes_the_results_of_its_hand(&self)
        ensures rest { (part_of self.now).phase ≡ Rest }
        ensures owed { (manager_of self.now).owed ≡ map (λ e. e.1) (part_of self.now).hand }
    {
        let _ = &self.seat;
    }
}

/// A law: a hand holds as many cells as a manager's ring has.
pub fn a_hand_holds_a_ring()
    ensures { HAND_ROOM ≡ CELLS }
{}

/// A law: over every list of calls of one party, in any order and with any outcome that the calls' own clauses allow, what it
/// collected is a prefix of the results of the jobs that it posted, in the order of its posts and each once; and after a drain it
/// is all of them.
pub fn results_are_collected_in_order()
    ensures order { CollectsInOrder }
    ensures drained { DrainsCollectAll }
{}
