use super::parties::{DIGEST, JOBS, generated_file};
use super::runs::{Host, Run};
use mbj_work::{Gate, Moment};
use std::alloc::Global;
use std::sync::atomic::Ordering::SeqCst;
use std::sync::atomic::{AtomicBool, AtomicU32};
use std::thread::yield_now;

/// How many turns a party is held at most; an ask for leave to help is a turn too.
pub(super) const MOST_TURNS: u32 = 10_000_000;

/// How many moments of other parties end a hold.
const OTHER_MOMENTS: u32 = 64;

/// Two submitters, which are parties 0 and 1, and three workers.
const WORDS: &str = "mbjobs run --submitters 2 --workers 3";

const WORKER: u32 = 2;

const SUBMITTER: u32 = 0;

/// Holds one party at its first moment of a kind, until others have passed `OTHER_MOMENTS` moments, and lets nobody help before.
#[derive(Drop)]
struct Holding {
    party: u32,
    moment: Moment,
    begun: AtomicBool,
    others: AtomicU32,
    turns: AtomicU32,
}

impl Holding {
    /// Takes a turn, and returns whether the hold is over.
    fn is_over(&self) -> bool {
        self.others.load(SeqCst) >= OTHER_MOMENTS || self.turns.fetch_add(1, SeqCst) >= MOST_TURNS
    }

    fn hold(&self) {
        self.begun.store(true, SeqCst);
        for _ in 0..MOST_TURNS {
            if self.is_over() {
                return;
            }
            yield_now();
        }
    }
}

impl Gate for Holding {
    fn pass(&self, party: u32, moment: Moment) {
        if party == self.party {
            if moment == self.moment {
                self.hold();
            }
        } else if self.begun.load(SeqCst) {
            self.others.fetch_add(1, SeqCst);
        }
    }

    fn may_help(&self, _party: u32) -> bool {
        yield_now();
        self.is_over()
    }
}

/// Runs generated jobs with the party held at each moment, and compares the digest of the text.
fn compare<R: Host>(rt: &R, alloc: Global, party: u32, moments: &[Moment]) {
    let file = generated_file(rt, alloc, 7, JOBS);
    for moment in moments {
        let gate = Holding {
            party,
            moment: *moment,
            begun: AtomicBool::new(false),
            others: AtomicU32::new(0),
            turns: AtomicU32::new(0),
        };
        let ending = Run::new(WORDS, file.held()).under(rt, alloc, &gate);
        ending.check_digest(rt, DIGEST, moment);
    }
}

// Each hold may last for all its turns, which take seconds: so these are two tests.
#[test]
fn a_held_worker_changes_no_text(rt: HostRuntime) {
    let moments = [Moment::Claimed, Moment::Finishing];
    compare(&rt, rt.alloc(), WORKER, &moments);
}

#[test]
fn a_held_submitter_changes_no_text(rt: HostRuntime) {
    let moments = [Moment::Posted, Moment::Collected];
    compare(&rt, rt.alloc(), SUBMITTER, &moments);
}
