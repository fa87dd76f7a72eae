use super::runs::Run;
use super::workers::TWO_JOBS;
use mbj_work::{Gate, Moment};
use std::sync::atomic::AtomicU32;
use std::sync::atomic::Ordering::SeqCst;

/// How often the submitter, which is party 0, and the worker, which is party 1, passed a moment.
#[derive(Drop)]
struct Tally {
    submitter: AtomicU32,
    worker: AtomicU32,
}

impl Tally {
    fn new() -> Tally {
        Tally {
            submitter: AtomicU32::new(0),
            worker: AtomicU32::new(0),
        }
    }

    fn count(&self, party: u32) {
        match party {
            0 => self.submitter.fetch_add(1, SeqCst),
            1 => self.worker.fetch_add(1, SeqCst),
            _ => 0,
        };
    }

    fn is(&self, submitter: u32, worker: u32) -> bool {
        self.submitter.load(SeqCst) == submitter && self.worker.load(SeqCst) == worker
    }
}

/// Counts what it is told, holds nobody up, and lets a submitter that waits help or not.
#[derive(Drop)]
struct Counting {
    helps: bool,
    posted: Tally,
    claimed: Tally,
    finishing: Tally,
    collected: Tally,
}

impl Gate for Counting {
    fn pass(&self, party: u32, moment: Moment) {
        match moment {
            Moment::Posted => self.posted.count(party),
            Moment::Claimed => self.claimed.count(party),
            Moment::Finishing => self.finishing.count(party),
            Moment::Collected => self.collected.count(party),
        }
    }

    fn may_help(&self, _party: u32) -> bool {
        self.helps
    }
}

/// Words, whether the gate lets the submitter help, and how many of the two jobs submitter and worker claim and finish. The
/// submitter posts and collects both.
type Row<'a> = (&'a str, bool, u32, u32);

const ROWS: [Row; 2] = [
    ("mbjobs run --submitters 1 --workers 0", true, 2, 0),
    ("mbjobs run --submitters 1 --workers 1", false, 0, 2),
];

#[test]
fn a_gate_is_told_each_moment_by_its_party(rt: HostRuntime) {
    for (words, helps, submitter, worker) in ROWS {
        let gate = Counting {
            helps,
            posted: Tally::new(),
            claimed: Tally::new(),
            finishing: Tally::new(),
            collected: Tally::new(),
        };
        let run = Run::by(words, TWO_JOBS, (4_096, &[]), (64, &[]));
        let status = run.under(&rt, rt.alloc(), &gate).status;
        assert!(rt; status == 0 && gate.posted.is(2, 0) && gate.collected.is(2, 0));
        assert!(rt; gate.claimed.is(submitter, worker) && gate.finishing.is(submitter, worker));
    }
}
