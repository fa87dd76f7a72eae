use crate::draws::Draws;
use crate::jobs::draw_job;
use crate::kinds::{Kind, draw_kind};
use mbj_io::MemSink;
use mbj_manager::Manager;
use mbj_ring::CELLS;
use mbj_text::write_done;
use mbj_types::{Done, RingFull};
use sha2::{Digest, Sha256};
use std::alloc::Global;
use std::process::Abort;
use std::test::Fail;

const SEED: u64 = 1;

const SEQUENCES: u32 = 200;

/// The most jobs of a burst.
const MOST_BURST: u32 = 8;

/// Room for the lines of all results, in bytes.
const ROOM: usize = 1 << 23;

/// The digest of the result lines of all jobs, as `tests/faults/reference.py results` prints them for the file of jobs that
/// `tests/c/sequences.c` writes with the same seed and as many sequences.
const DIGEST: &str = "44ed31b533a316a54030021f7b30c29f8986579f2ef2058c9d67a04f3a84b5d6";

/// A manager, and the lines of the results that it gave back.
#[derive(Drop)]
struct Run {
    manager: Manager,
    draws: Draws,
    lines: MemSink,
    given: u32,
}

impl Run {
    fn new(alloc: Global) -> Result<Run, Fail> {
        let lines = MemSink::new(alloc, ROOM, u32::MAX, &[])?;
        Ok(Run {
            manager: Manager::new(alloc)?,
            draws: Draws::new(SEED),
            lines,
            given: 0,
        })
    }

    /// Writes a result's line. Jobs come back in the order in which they were submitted.
    fn write(&mut self, done: Option<Done>) -> Result<(), Fail> {
        if let Some(done) = done {
            write_done(&mut self.lines, self.given, &done)?;
            self.given = self.given.wrapping_add(1);
        }
        Ok(())
    }

    fn write_each(&mut self, given: Vec<Done>) -> Result<(), Fail> {
        for done in given {
            self.write(Some(done))?;
        }
        Ok(())
    }

    /// Three jobs in four are of the kind that the sequence favours, so that lanes are filled.
    fn draw_kind(&mut self, favoured: Kind) -> Kind {
        if self.draws.below(4) == 0 {
            draw_kind(&mut self.draws)
        } else {
            favoured
        }
    }

    fn submit(&mut self, alloc: Global, favoured: Kind) -> Result<(), Fail> {
        let kind = self.draw_kind(favoured);
        match self.manager.get_next() {
            Ok(job) => draw_job(&mut self.draws, alloc, kind, job)?,
            Err(RingFull) => return Err("no cell is left".into()),
        };
        let done = self.manager.submit();
        self.write(done)
    }

    /// Fills open cell `i`.
    fn fill(&mut self, rt: &impl Abort, alloc: Global, i: u32, favoured: Kind) -> Result<(), Fail> {
        let kind = self.draw_kind(favoured);
        assert!(rt; i < self.manager.get_next_burst(0));
        draw_job(&mut self.draws, alloc, kind, self.manager.burst_mut(i))?;
        Ok(())
    }

    fn submit_burst(&mut self, rt: &impl Abort, alloc: Global, favoured: Kind) -> Result<(), Fail> {
        let wanted = self.draws.below(MOST_BURST) + 1;
        let open = self.manager.get_next_burst(wanted);
        for i in 0..open {
            self.fill(rt, alloc, i, favoured)?;
        }
        assert!(rt; open <= self.manager.get_next_burst(0));
        let mut given = Vec::with_capacity(alloc, CELLS as usize)?;
        self.manager.submit_burst(open, &mut given);
        self.write_each(given)
    }

    fn flush_burst(&mut self, alloc: Global) -> Result<(), Fail> {
        let most = self.draws.below(MOST_BURST) + 1;
        let mut given = Vec::with_capacity(alloc, MOST_BURST as usize)?;
        self.manager.flush_burst(most, &mut given);
        self.write_each(given)
    }

    fn step(&mut self, rt: &impl Abort, alloc: Global, favoured: Kind) -> Result<(), Fail> {
        match self.draws.below(8) {
            0 => {
                let done = self.manager.flush();
                self.write(done)
            }
            1 => {
                let done = self.manager.get_completed();
                self.write(done)
            }
            2 => self.submit_burst(rt, alloc, favoured),
            3 => self.flush_burst(alloc),
            _ => self.submit(alloc, favoured),
        }
    }

    fn drain(&mut self, rt: &impl Abort) -> Result<(), Fail> {
        for _ in 0..CELLS {
            let done = self.manager.flush();
            self.write(done)?;
        }
        assert!(rt; self.manager.flush().is_none());
        Ok(())
    }

    /// Every second sequence leaves what isn't given back to the next one, so that lanes which were left are used again.
    fn sequence(&mut self, rt: &impl Abort, alloc: Global) -> Result<(), Fail> {
        let favoured = draw_kind(&mut self.draws);
        for _ in 0..2 + self.draws.below(14) {
            self.step(rt, alloc, favoured)?;
        }
        if self.draws.below(2) == 0 {
            self.drain(rt)?;
        }
        Ok(())
    }

    fn run(&mut self, rt: &impl Abort, alloc: Global) -> Result<(), Fail> {
        for _ in 0..SEQUENCES {
            self.sequence(rt, alloc)?;
        }
        self.drain(rt)
    }

    fn expect_digest(&self, rt: &impl Abort, alloc: Global) -> Result<(), Fail> {
        let digest = hex::encode(alloc, Sha256::digest(self.lines.held()))?;
        assert_eq!(rt; digest.as_str(), DIGEST);
        Ok(())
    }
}

fn run_all(rt: &impl Abort, alloc: Global, run: &mut Run) -> Result<(), Fail> {
    run.run(rt, alloc)?;
    run.expect_digest(rt, alloc)
}

#[test]
fn drawn_sequences_give_the_standards_results(rt: HostRuntime) -> Result<(), Fail> {
    run_all(&rt, rt.alloc(), &mut Run::new(rt.alloc())?)
}
