// How a worker serves all submitters.
ghost use Rattle.std.specs.Prelude.{◌≡◌, []};
ghost use Rattle.mbj_front.specs.Seats.{cells_of};
ghost use Rattle.mbj_work.specs.Calls.{worked, Makes};
ghost use Rattle.mbj_work.specs.Parties.{part_of, IsPartyOf, KeepsDue};
ghost use Rattle.mbj_work.specs.Hunts.{EndsUnfound};

use crate::gate::Gate;
use crate::party::Party;
use crossbeam_utils::Backoff;
use mbj_front::Front;
use std::sync::Wait;
use std::sync::atomic::AtomicBool;
use std::sync::atomic::Ordering::SeqCst;

impl<'k> Party<'k> {
    /// Hunts for jobs, claims and settles them in turn, and waits if there are none. After it has seen the stop flag,
    /// the first hunt that finds none is its last one. At return its hand is empty.
    pub fn serve<R: Wait, G: Gate>(&mut self, rt: &R, front: &Front, gate: &G, stop: &AtomicBool)
        requires { IsPartyOf front.now self.old }
        ensures front { IsPartyOf front.now self.new }
        ensures due { Makes worked (part_of self.old) (part_of self.new) }
        ensures hand { (part_of self.new).hand ≡ [] }
        ensures looks { EndsUnfound (cells_of front.now) (part_of self.old) (part_of self.new) }
    {
        self.work_until(rt, front, gate, stop);
        self.settle_all_at(front, gate);
    }

    /// Makes turns until the stop flag was seen and then a hunt found no job.
    fn work_until<R: Wait, G: Gate>(&mut self, rt: &R, front: &Front, gate: &G, stop: &AtomicBool)
        requires { IsPartyOf front.now self.old }
        ensures front { IsPartyOf front.now self.new }
        ensures due { KeepsDue (part_of self.old) (part_of self.new) }
        ensures looks { EndsUnfound (cells_of front.now) (part_of self.old) (part_of self.new) }
    {
        let backoff = Backoff::new();
        let mut from = 0;
        for _ in rt.forever() {
            let stopped = stop.load(SeqCst);
            let turn = self.turn_at(front, from, gate);
            from = turn.from;
            if turn.claimed > 0 {
                backoff.reset();
            }
            if turn.found_none {
                if stopped {
                    break;
                }
                self.settle_or_pause(front, gate, &backoff);
            }
        }
    }

    /// Pauses, and settles the first cell in the hand once it has paused for a while: a run with few lanes occupied takes as
    /// long as a full one, and the lanes may still fill up. All results that are finished then are handed back.
    fn settle_or_pause<G: Gate>(&mut self, front: &Front, gate: &G, backoff: &Backoff)
        requires { IsPartyOf front.now self.old }
        ensures front { IsPartyOf front.now self.new }
        ensures due { KeepsDue (part_of self.old) (part_of self.new) }
    {
        if !backoff.is_completed() || !self.settle_at(front, gate) {
            backoff.snooze();
        }
        self.give_all_back(front, gate);
    }
}
