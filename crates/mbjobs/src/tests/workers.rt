use super::holding_gates::MOST_TURNS;
use super::runs::{Host, Run};
use mbj_work::{Gate, Moment};
use std::alloc::Global;
use std::sync::atomic::Ordering::SeqCst;
use std::sync::atomic::{AtomicBool, AtomicU32};

/// The first job twice.
pub(super) const TWO_JOBS: &[u8] =
    b"null enc ch - - 0 0 hmac-sha1 0b0b0b0b0b0b0b0b0b0b0b0b0b0b0b0b0b0b0b0b - 0 8 20 4869205468657265\nnull enc ch - - 0 0 hmac-sha1 0b0b0b0b0b0b0b0b0b0b0b0b0b0b0b0b0b0b0b0b - 0 8 20 4869205468657265\n";

/// Holds each of two workers that has claimed a job until the other one has claimed one too, and lets nobody help before.
#[derive(Drop)]
struct BothAtWork {
    first: AtomicBool,
    second: AtomicBool,
    turns: AtomicU32,
}

impl BothAtWork {
    fn were_seen(&self) -> bool {
        self.first.load(SeqCst) && self.second.load(SeqCst)
    }

    /// Takes a turn, and returns whether the wait is over.
    fn is_over(&self) -> bool {
        self.were_seen() || self.turns.fetch_add(1, SeqCst) >= MOST_TURNS
    }
}

impl Gate for BothAtWork {
    fn pass(&self, party: u32, moment: Moment) {
        if moment != Moment::Claimed {
            return;
        }
        match party {
            1 => self.first.store(true, SeqCst),
            2 => self.second.store(true, SeqCst),
            _ => return,
        }
        for _ in 0..MOST_TURNS {
            if self.is_over() {
                return;
            }
        }
    }

    fn may_help(&self, _party: u32) -> bool {
        self.is_over()
    }
}

/// Runs the program by words that ask for two workers, and sees both at work at once.
fn see_both<'a, R: Host>(rt: &R, alloc: Global, words: &'a str, input: &'a [u8]) {
    let gate = BothAtWork {
        first: AtomicBool::new(false),
        second: AtomicBool::new(false),
        turns: AtomicU32::new(0),
    };
    let run = Run::by(words, input, (4_096, &[]), (64, &[]));
    let status = run.under(rt, alloc, &gate).status;
    assert!(rt; status == 0 && gate.were_seen());
}

#[test]
fn run_and_gen_have_two_workers_at_work_at_once(rt: HostRuntime) {
    let run = "mbjobs run --submitters 1 --workers 2";
    see_both(&rt, rt.alloc(), run, TWO_JOBS);
    let made = "mbjobs gen --seed 7 --jobs 600 --submitters 1 --workers 2";
    see_both(&rt, rt.alloc(), made, b"");
}
