//! Bursts beside the single calls that they stand for, and the cells that bursts find open.
ghost use Rattle.std.specs.Prelude.{◌<◌};

use crate::compare::expect;
use crate::manager::{expect_none, write_tag_len};
use mbj_manager::Manager;
use mbj_ring::CELLS;
use mbj_types::{Auth, Bytes, Cipher, Done, Job, Kind, RingFull};
use std::alloc::{AllocError, Global};
use std::process::Abort;
use std::test::Fail;

const SEQUENCES: u64 = 200;

/// The steps of a sequence.
const STEPS: u32 = 8;

/// A burst has fewer jobs.
const MOST: u32 = 40;

/// This many jobs one after another are made in two ways alone, so that they fill lists.
const ALIKE: u32 = 128;

/// A cipher, the bytes of its key and of its IV, an authentication, the bytes of its key, and those of the tag.
type Make = (Cipher, usize, usize, Auth, usize, u8);

/// A way for each kind of list, those that wait for none, and a job that is refused for its tag.
const MAKES: [Make; 16] = [
    (Cipher::Null, 0, 0, Auth::Null, 0, 0),
    (Cipher::Cbc, 16, 16, Auth::HmacSha1, 20, 12),
    (Cipher::Cbc, 24, 16, Auth::Null, 0, 0),
    (Cipher::Cbc, 32, 16, Auth::HmacSha256States, 64, 16),
    (Cipher::Ctr, 16, 12, Auth::Cmac128, 16, 16),
    WAITING,
    (Cipher::Null, 0, 0, Auth::HmacSha512, 20, 32),
    (Cipher::Null, 0, 0, Auth::Sha1, 0, 20),
    (Cipher::Null, 0, 0, Auth::Sha256, 0, 32),
    (Cipher::Null, 0, 0, Auth::Sha512, 0, 64),
    (Cipher::Ccm, 16, 13, Auth::Ccm, 0, 8),
    (Cipher::Ccm, 24, 7, Auth::Ccm, 0, 16),
    (Cipher::Ccm, 32, 12, Auth::Ccm, 0, 4),
    (Cipher::Gcm, 16, 12, Auth::Gcm, 0, 16),
    (Cipher::Null, 0, 12, Auth::Gmac, 16, 16),
    (Cipher::Null, 0, 0, Auth::Null, 0, 1),
];

const WAITING: Make = (Cipher::Null, 0, 0, Auth::Cmac256, 32, 16);

/// What bursts gave back, and what single calls did.
type Given = [Vec<Done>; 2];

/// Draws a number below the bound: the highest byte of a linear congruential generator's state, of 64 bits.
fn draw(state: &mut u64, bound: u32) -> u32
    requires { 0 < bound }
    ensures { result < bound }
{
    *state = state
        .wrapping_mul(6_364_136_223_846_793_005)
        .wrapping_add(1_442_695_040_888_963_407);
    (*state >> 56) as u32 % bound
}

fn alike(alloc: Global, byte: u8, len: usize) -> Result<Bytes, AllocError> {
    Ok(Bytes::from_vec(Vec::from_elem(alloc, byte, len)?))
}

/// Makes a job of a packet of `len` bytes, all of which it ciphers and authenticates.
fn make(alloc: Global, make: Make, byte: u8, len: u32, job: &mut Job) -> Result<(), AllocError> {
    let (cipher, key, iv, auth, auth_key, tag_len) = make;
    job.cipher = cipher;
    job.cipher_len = len;
    job.key = alike(alloc, 0x2b, key)?;
    job.iv = alike(alloc, 0x0f, iv)?;
    job.auth = auth;
    job.hash_len = len;
    job.auth_key = alike(alloc, 0x0b, auth_key)?;
    job.tag_len = tag_len;
    job.packet = alike(alloc, byte, len as usize)?;
    Ok(())
}

/// The ways go round.
fn way_of(number: u32) -> Make {
    MAKES[number as usize % MAKES.len()]
}

/// Fills the job of that number.
fn fill(alloc: Global, number: u32, job: &mut Job) -> Result<(), AllocError> {
    let mut state = number as u64;
    let way = number / ALIKE + draw(&mut state, 2);
    let len = 16 * draw(&mut state, 5);
    make(alloc, way_of(way), (number & 0xff) as u8, len, job)
}

/// Fills the job of that number, or else leaves the job as it is.
fn fill_blank(alloc: Global, number: Option<u32>, job: &mut Job) -> Result<(), AllocError> {
    match number {
        Some(number) => fill(alloc, number, job),
        None => Ok(()),
    }
}

/// Fills the job in an open cell.
pub(crate) fn fill_at(
    rt: &impl Abort,
    alloc: Global,
    manager: &mut Manager,
    i: u32,
    number: u32,
) -> Result<(), AllocError> {
    assert!(rt; i < manager.get_next_burst(0));
    fill(alloc, number, manager.burst_mut(i))
}

/// Submits open jobs at once.
fn submit_burst(
    rt: &impl Abort,
    alloc: Global,
    manager: &mut Manager,
    n: u32,
) -> Result<Vec<Done>, AllocError> {
    assert!(rt; n <= manager.get_next_burst(0));
    let mut out = Vec::with_capacity(alloc, n as usize)?;
    manager.submit_burst(n, &mut out);
    Ok(out)
}

fn flush_burst(alloc: Global, manager: &mut Manager, n: u32) -> Result<Vec<Done>, AllocError> {
    let mut out = Vec::with_capacity(alloc, n as usize)?;
    manager.flush_burst(n, &mut out);
    Ok(out)
}

/// Submits the job of that number, or else the first open one as it stands there.
fn submit(
    alloc: Global,
    manager: &mut Manager,
    number: Option<u32>,
) -> Result<Option<Done>, AllocError> {
    match manager.get_next() {
        Ok(job) => fill_blank(alloc, number, job)?,
        Err(RingFull) => return Ok(None),
    }
    Ok(manager.submit())
}

/// Submits jobs one by one, the first of which has that number.
fn submit_each(
    alloc: Global,
    manager: &mut Manager,
    first: u32,
    n: u32,
) -> Result<Vec<Done>, AllocError> {
    let mut out = Vec::new(alloc);
    for i in 0..n {
        if let Some(done) = submit(alloc, manager, Some(first.wrapping_add(i)))? {
            out.push(done)?;
        }
    }
    Ok(out)
}

fn flush_each(alloc: Global, manager: &mut Manager, n: u32) -> Result<Vec<Done>, AllocError> {
    let mut out = Vec::new(alloc);
    for _ in 0..n {
        match manager.flush() {
            Some(done) => out.push(done)?,
            None => return Ok(out),
        }
    }
    Ok(out)
}

/// What one call gave back.
fn list(alloc: Global, given: Option<Done>) -> Result<Vec<Done>, AllocError> {
    let mut out = Vec::new(alloc);
    if let Some(done) = given {
        out.push(done)?;
    }
    Ok(out)
}

/// What one call gave back in each of two managers.
fn lists(alloc: Global, bursts: Option<Done>, singles: Option<Done>) -> Result<Given, AllocError> {
    Ok([list(alloc, bursts)?, list(alloc, singles)?])
}

/// A manager that has bursts and single calls, and one that has single calls alone, with the same jobs.
#[derive(Drop)]
struct Pair {
    bursts: Manager,
    singles: Manager,
    /// The number of the next job.
    next: u32,
    /// The jobs that are filled and open in the first manager.
    filled: u32,
}

impl Pair {
    fn new(alloc: Global) -> Result<Pair, AllocError> {
        Ok(Pair {
            bursts: Manager::new(alloc)?,
            singles: Manager::new(alloc)?,
            next: 0,
            filled: 0,
        })
    }

    /// Opens cells until `n` are open, and fills the new ones. A single call opens a cell as it submits the job.
    fn open(&mut self, rt: &impl Abort, alloc: Global, n: u32) -> Result<Given, AllocError> {
        let open = self.bursts.get_next_burst(n);
        for i in self.filled..open {
            fill_at(rt, alloc, &mut self.bursts, i, self.next.wrapping_add(i))?;
        }
        self.filled = open;
        Ok([Vec::new(alloc), Vec::new(alloc)])
    }

    fn submit(&mut self, rt: &impl Abort, alloc: Global, n: u32) -> Result<Given, AllocError> {
        let n = n.min(self.filled);
        let bursts = submit_burst(rt, alloc, &mut self.bursts, n)?;
        let singles = submit_each(alloc, &mut self.singles, self.next, n)?;
        self.next = self.next.wrapping_add(n);
        self.filled -= n;
        Ok([bursts, singles])
    }

    /// Submits one job: the first manager lends it as it is filled, where it is.
    fn submit_one(&mut self, alloc: Global) -> Result<Given, AllocError> {
        let blank = if self.filled == 0 {
            Some(self.next)
        } else {
            None
        };
        let bursts = submit(alloc, &mut self.bursts, blank)?;
        let singles = submit(alloc, &mut self.singles, Some(self.next))?;
        self.next = self.next.wrapping_add(1);
        self.filled = self.filled.saturating_sub(1);
        lists(alloc, bursts, singles)
    }

    fn flush(&mut self, alloc: Global, n: u32) -> Result<Given, AllocError> {
        let bursts = flush_burst(alloc, &mut self.bursts, n)?;
        let singles = flush_each(alloc, &mut self.singles, n)?;
        Ok([bursts, singles])
    }

    /// What both managers give back in a step that is drawn.
    fn step(
        &mut self,
        rt: &impl Abort,
        alloc: Global,
        state: &mut u64,
    ) -> Result<Given, AllocError> {
        let n = draw(state, MOST);
        match draw(state, 16) {
            0 => lists(alloc, self.bursts.flush(), self.singles.flush()),
            1 => lists(
                alloc,
                self.bursts.get_completed(),
                self.singles.get_completed(),
            ),
            2 => self.flush(alloc, 8 * n),
            3 | 4 => self.submit_one(alloc),
            5..=9 => self.open(rt, alloc, n),
            _ => self.submit(rt, alloc, n),
        }
    }

    fn expect_alike(&self, rt: &impl Abort) {
        let (bursts, singles) = (&self.bursts, &self.singles);
        expect(rt, "queue", bursts.queue_size(), singles.queue_size());
        expect(rt, "flush runs", bursts.flush_runs(), singles.flush_runs());
        for kind in &Kind::ALL {
            expect(rt, "waiting", bursts.waiting(*kind), singles.waiting(*kind));
            expect(rt, "rounds", bursts.rounds(*kind), singles.rounds(*kind));
            expect(rt, "blocks", bursts.blocks(*kind), singles.blocks(*kind));
        }
    }

    fn run(&mut self, rt: &impl Abort, alloc: Global, sequence: u64) -> Result<(), Fail> {
        let mut state = sequence;
        for _ in 0..STEPS {
            let [bursts, singles] = self.step(rt, alloc, &mut state)?;
            expect_same(rt, &bursts, &singles);
            self.expect_alike(rt);
        }
        Ok(())
    }
}

fn expect_same(rt: &impl Abort, found: &[Done], wanted: &[Done]) {
    expect(rt, "results", found.len(), wanted.len());
    for (found, wanted) in found.iter().zip(wanted) {
        expect(rt, "status", found.status, wanted.status);
        expect(
            rt,
            "packet",
            found.packet.as_slice(),
            wanted.packet.as_slice(),
        );
        expect(rt, "tag", found.tag.bytes(), wanted.tag.bytes());
    }
}

fn expect_full_runs(rt: &impl Abort, manager: &Manager) {
    for kind in &Kind::ALL {
        assert!(rt; manager.rounds(*kind) > 0, "full runs of {kind}");
    }
}

fn run_all(rt: &impl Abort, alloc: Global, pair: &mut Pair) -> Result<(), Fail> {
    for sequence in 0..SEQUENCES {
        pair.run(rt, alloc, sequence)?;
    }
    expect_full_runs(rt, &pair.bursts);
    Ok(())
}

#[test]
fn bursts_do_what_single_calls_do(rt: HostRuntime) -> Result<(), Fail> {
    run_all(&rt, rt.alloc(), &mut Pair::new(rt.alloc())?)
}

/// The cells that are asked for, and how many are open then.
fn open_all(rt: &impl Abort, manager: &mut Manager) {
    for (asked, open) in [
        (0, 0),
        (3, 3),
        (2, 3),
        (CELLS + 1, CELLS),
        (u32::MAX, CELLS),
    ] {
        expect(rt, "open", manager.get_next_burst(asked), open);
    }
}

// The first job waits, so that those behind it stay.
fn submit_all(rt: &impl Abort, alloc: Global, manager: &mut Manager) -> Result<(), Fail> {
    assert!(rt; manager.get_next_burst(0) > 0);
    make(alloc, WAITING, 0, 16, manager.burst_mut(0))?;
    let given = submit_burst(rt, alloc, manager, CELLS)?;
    expect(rt, "given back", given.len(), 0);
    expect(rt, "no cell is left", manager.get_next_burst(5), 0);
    assert!(rt; manager.is_full());
    Ok(())
}

fn flush_all(rt: &impl Abort, alloc: Global, manager: &mut Manager) -> Result<(), Fail> {
    assert!(rt; manager.flush().is_some());
    expect(rt, "the cell that was left", manager.get_next_burst(5), 1);
    let given = flush_burst(alloc, manager, CELLS)?;
    expect(rt, "given back", given.len(), CELLS as usize - 1);
    expect(rt, "it is open still", manager.get_next_burst(0), 1);
    Ok(())
}

fn open_submit_and_flush(
    rt: &impl Abort,
    alloc: Global,
    manager: &mut Manager,
) -> Result<(), Fail> {
    open_all(rt, manager);
    submit_all(rt, alloc, manager)?;
    flush_all(rt, alloc, manager)
}

#[test]
fn bursts_open_the_cells_that_are_left(rt: HostRuntime) -> Result<(), Fail> {
    open_submit_and_flush(&rt, rt.alloc(), &mut Manager::new(rt.alloc())?)
}

/// Writes a tag's length into an open job, and compares with what it was.
fn write_at(rt: &impl Abort, manager: &mut Manager, i: u32, tag_len: u8, old: u8) {
    assert!(rt; i < manager.get_next_burst(0));
    let job = manager.burst_mut(i);
    expect(rt, "tag length", job.tag_len, old);
    job.tag_len = tag_len;
}

// A null job with a tag length other than 0 is refused at once.
fn write_open(rt: &impl Abort, manager: &mut Manager) {
    expect(rt, "open", manager.get_next_burst(3), 3);
    write_at(rt, manager, 0, 7, 0);
    write_at(rt, manager, 2, 9, 0);
    expect_none(rt, manager.flush());
    expect(rt, "as it was filled", write_tag_len(manager, 1), 7);
    assert!(rt; manager.get_next_burst(0) > 0);
    assert!(rt; manager.submit().is_some());
    write_at(rt, manager, 0, 1, 0);
    write_at(rt, manager, 1, 1, 9);
}

#[test]
fn an_open_job_stays_as_it_is_filled(rt: HostRuntime) -> Result<(), Fail> {
    write_open(&rt, &mut Manager::new(rt.alloc())?);
    Ok(())
}
