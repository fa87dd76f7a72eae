ghost use Rattle.std.specs.Prelude.{◌≡◌, ◌+◌, ◌*◌, ◌<◌, IfOk, IfSome};
ghost use Rattle.std.specs.Bool.{OnTrue, OnFalse};
ghost use Rattle.mbj_types.specs.declared.job.Job.{Job};
ghost use Rattle.mbj_core.specs.CoreStates.{claimed_by};
ghost use Rattle.mbj_core.specs.declared.cells.TheConstants.{SUBMITTER_CELLS};
ghost use Rattle.mbj_types.specs.Result.{result_of};

use mbj_core::{Core, MAX_SUBMITTERS, MAX_WORKERS, SUBMITTER_CELLS};
use mbj_types::{Auth, Bytes, Cipher, Done, Job, MAX_PACKET_BYTES, PostFull, Status, Tag};
use std::alloc::{AllocError, Global};
use std::test::Fail;

/// What a party does with a core. A job is known by the one byte of its packet.
enum Move {
    /// As often as a submitter has cells.
    PostAll(u32, u8),
    Post(u32, u8),
    Claim(u32, u32),
    Finish(u32, u32),
    Collect(u32),
}

/// What it got: the byte of the job or the result that was handed out, if one was.
type Got = Option<u8>;

/// A job with no cipher and no authentication.
fn job(alloc: Global, byte: u8) -> Result<Job, AllocError> {
    let packet = Vec::from_slice(alloc, &[byte])?;
    let mut job = Job::blank(alloc);
    job.packet = Bytes::from_vec(packet);
    Ok(job)
}

/// The result of a job with no cipher and no authentication, and `None` for another job: its packet, and no tag.
fn result_of_null(alloc: Global, job: &Job) -> Result<Option<Done>, AllocError>
    ensures { IfOk result (λ made. IfSome made (λ done. done ≡ result_of job.now)) }
{
    if job.cipher != Cipher::Null {
        return Ok(None);
    }
    if job.auth != Auth::Null {
        return Ok(None);
    }
    let bytes = job.packet.as_slice().len();
    if job.tag_len != 0 || bytes > MAX_PACKET_BYTES {
        return Ok(None);
    }
    Ok(Some(Done {
        status: Status::Ok,
        packet: job.packet.copy(alloc)?,
        tag: Tag::from_slice(&[]),
    }))
}

fn byte_of(packet: &Bytes) -> Got {
    packet.as_slice().first().copied()
}

fn post(core: &mut Core, alloc: Global, s: u32, byte: u8) -> Result<Got, AllocError> {
    if s >= core.submitters() {
        return Ok(None);
    }
    match core.post(s, job(alloc, byte)?) {
        Ok(()) => Ok(None),
        Err(PostFull(job)) => Ok(byte_of(&job.packet)),
    }
}

/// Posts until a job comes back, at most as often as a submitter has cells.
fn post_all(core: &mut Core, alloc: Global, s: u32, byte: u8) -> Result<Got, AllocError> {
    for _ in 0..SUBMITTER_CELLS {
        let got = post(core, alloc, s, byte)?;
        if got.is_some() {
            return Ok(got);
        }
    }
    Ok(None)
}

fn claim(core: &mut Core, p: u32, cell: u32) -> Got {
    if p >= core.submitters() + core.workers() || cell >= SUBMITTER_CELLS * core.submitters() {
        return None;
    }
    byte_of(&core.claim(p, cell)?.packet)
}

/// Whether a party got the job of the cell. A caller learns what the core is once the job is given back.
fn claims(core: &mut Core, p: u32, cell: u32) -> bool
    requires party { p < core.old.submitters + core.old.workers }
    requires cell { cell < SUBMITTER_CELLS * core.old.submitters }
    ensures yes { OnTrue result ((job : Job) × (core.new ≡ claimed_by core.old p cell job)) }
    ensures not { OnFalse result (core.new ≡ core.old) }
{
    match core.claim(p, cell) {
        Some(_job) => true,
        None => false,
    }
}

fn finish(core: &mut Core, alloc: Global, p: u32, cell: u32) -> Result<Got, AllocError> {
    if p >= core.submitters() + core.workers() || cell >= SUBMITTER_CELLS * core.submitters() {
        return Ok(None);
    }
    let made = match core.held_job(p, cell) {
        Some(job) => result_of_null(alloc, job)?,
        None => None,
    };
    if let Some(done) = made {
        core.finish(p, cell, done);
    }
    Ok(None)
}

fn collect(core: &mut Core, s: u32) -> Got {
    if s >= core.submitters() {
        return None;
    }
    byte_of(&core.collect(s)?.packet)
}

fn play(core: &mut Core, alloc: Global, step: &Move) -> Result<Got, AllocError> {
    match step {
        Move::PostAll(s, byte) => post_all(core, alloc, *s, *byte),
        Move::Post(s, byte) => post(core, alloc, *s, *byte),
        Move::Claim(p, cell) => Ok(claim(core, *p, *cell)),
        Move::Finish(p, cell) => finish(core, alloc, *p, *cell),
        Move::Collect(s) => Ok(collect(core, *s)),
    }
}

/// A step, and what it gets.
type Step = (Move, Got);

/// Whether the steps get what they are to get.
fn get_all(alloc: Global, core: &mut Core, steps: &[Step]) -> Result<bool, AllocError> {
    for (step, got) in steps {
        if play(core, alloc, step)? != *got {
            return Ok(false);
        }
    }
    Ok(true)
}

// Two submitters and a worker, which is party 2. The results come in the order of the posts, whatever the order in
// which the jobs are finished.
const IN_ORDER: [Step; 16] = [
    (Move::Post(0, 10), None),
    (Move::Post(0, 11), None),
    (Move::Post(1, 20), None),
    (Move::Claim(2, 1), Some(11)),
    (Move::Claim(2, SUBMITTER_CELLS), Some(20)),
    (Move::Claim(2, 0), Some(10)),
    (Move::Claim(1, 0), None),
    (Move::Finish(2, SUBMITTER_CELLS), None),
    (Move::Finish(2, 1), None),
    (Move::Collect(0), None),
    (Move::Collect(1), Some(20)),
    (Move::Finish(2, 0), None),
    (Move::Collect(0), Some(10)),
    (Move::Collect(0), Some(11)),
    (Move::Collect(0), None),
    (Move::Collect(1), None),
];

#[test]
fn results_come_in_order(rt: HostRuntime) -> Result<(), Fail> {
    let mut core = Core::new(rt.alloc(), 2, 1)?;
    assert!(rt;
        !claims(&mut core, 2, 2 * SUBMITTER_CELLS - 1) && get_all(rt.alloc(), &mut core, &IN_ORDER)?
    );
    Ok(())
}

// With all cells of a submitter out its next job comes back, and another submitter's doesn't. Once a result is collected,
// its cell is that of the next job.
const WHEN_FULL: [Step; 13] = [
    (Move::PostAll(0, 1), None),
    (Move::Post(0, 2), Some(2)),
    (Move::Post(1, 3), None),
    (Move::Claim(0, 0), Some(1)),
    (Move::Post(0, 4), Some(4)),
    (Move::Finish(0, 0), None),
    (Move::Post(0, 5), Some(5)),
    (Move::Collect(0), Some(1)),
    (Move::Claim(1, 0), None),
    (Move::Post(0, 6), None),
    (Move::Post(0, 7), Some(7)),
    (Move::Claim(1, 0), Some(6)),
    (Move::Claim(0, SUBMITTER_CELLS), Some(3)),
];

#[test]
fn a_submitter_with_no_cell_left_posts_nothing(rt: HostRuntime) -> Result<(), Fail> {
    let mut core = Core::new(rt.alloc(), 2, 0)?;
    assert!(rt; get_all(rt.alloc(), &mut core, &WHEN_FULL)?);
    assert!(rt; core.out(0) == SUBMITTER_CELLS && core.first_cell(0) == 1);
    Ok(())
}

// Sixteen submitters and sixteen workers, the last of which claims the last submitter's job.
const OF_THE_LAST: [Step; 4] = [
    (Move::Post(15, 1), None),
    (Move::Claim(31, 15 * SUBMITTER_CELLS), Some(1)),
    (Move::Finish(31, 15 * SUBMITTER_CELLS), None),
    (Move::Collect(15), Some(1)),
];

#[test]
fn the_most_parties(rt: HostRuntime) -> Result<(), Fail> {
    let mut core = Core::new(rt.alloc(), MAX_SUBMITTERS, MAX_WORKERS)?;
    assert!(rt; core.workers() == 16 && get_all(rt.alloc(), &mut core, &OF_THE_LAST)?);
    Ok(())
}
