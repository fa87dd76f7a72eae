use super::parties::{generated_file, words_with};
use super::runs::{Host, Run};
use mbj_work::{Gate, Moment};
use std::alloc::Global;
use std::sync::atomic::AtomicU64;
use std::sync::atomic::Ordering::SeqCst;
use std::thread::yield_now;

const SUBMITTERS: [u8; 4] = [1, 2, 3, 4];

const WORKERS: [u8; 5] = [0, 1, 2, 3, 4];

/// How often each number of submitters and of workers is run.
const SEEDS: u64 = 10;

/// The digest of the results of 64 jobs from seed 11, by `tests/faults/reference.py summary 11 64`.
const DIGEST: &str = "af8fea4e6116ad7a5810b6cced9eb0fc55cf740dde0250ee535349107fb4729e";

/// Yields up to three times at each moment, and lets a submitter help or not, as it draws.
#[derive(Drop)]
struct Yielding {
    seed: u64,
    draws: AtomicU64,
}

impl Yielding {
    /// Draws a number below 4: the highest bits of the next multiple of a number without a pattern.
    fn draw(&self) -> u64 {
        let count = self.draws.fetch_add(1, SeqCst);
        count
            .wrapping_add(self.seed)
            .wrapping_mul(0x9e37_79b9_7f4a_7c15)
            >> 62
    }
}

impl Gate for Yielding {
    fn pass(&self, _party: u32, _moment: Moment) {
        for _ in 0..self.draw() {
            yield_now();
        }
    }

    fn may_help(&self, _party: u32) -> bool {
        self.draw() < 2
    }
}

/// Runs a file from `SEEDS` seeds of the gate, and compares the digest of each text.
fn compare<R: Host>(rt: &R, alloc: Global, words: &str, file: &[u8]) {
    for seed in 0..SEEDS {
        let gate = Yielding {
            seed: seed << 32,
            draws: AtomicU64::new(0),
        };
        let ending = Run::new(words, file).under(rt, alloc, &gate);
        ending.check_digest(rt, DIGEST, &(words, seed));
    }
}

#[test]
fn two_hundred_schedules_give_one_text(rt: HostRuntime) {
    let file = generated_file(&rt, rt.alloc(), 11, 64);
    for submitters in &SUBMITTERS {
        for workers in &WORKERS {
            let words = words_with(rt.alloc(), "run", *submitters, *workers).expect(&rt, "memory");
            compare(&rt, rt.alloc(), &words, file.held());
        }
    }
}
