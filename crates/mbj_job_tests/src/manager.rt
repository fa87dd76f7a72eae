ghost use Rattle.std.specs.Prelude.{◌≡◌, ◌≤◌, IfOk, OnOk, length, Some};
ghost use Rattle.mbj_types.specs.declared.job.Job.{Job};

use crate::compare::expect;
use crate::fill::{put, put_block};
use mbj_hmac::Hmac512Kernel;
use mbj_manager::{Manager, results_come_back_in_order};
use mbj_types::{Auth, Bytes, Cipher, Done, Job, Kind, Order, Reason, RingFull, Status};
use std::alloc::{AllocError, Global};
use std::process::Abort;
use std::test::Fail;

/// RFC 2202, section 3, test case 1: the tag of "Hi There" under a key of 20 bytes 0b.
pub(crate) const TAG: [u8; 20] = [
    0xb6, 0x17, 0x31, 0x86, 0x55, 0x05, 0x72, 0x64, 0xe2, 0x8b, 0xc0, 0xb6, 0xfb, 0x37, 0x8c, 0x8e,
    0xf1, 0x46, 0xbe, 0x00,
];

// README.md quotes `authenticate`; tests/docs/run compares the two.
pub(crate) fn fill(alloc: Global, job: &mut Job) -> Result<(), AllocError> {
    job.auth = Auth::HmacSha1;
    job.auth_key = Bytes::from_slice(alloc, &[0x0b; 20])?;
    job.packet = Bytes::from_slice(alloc, b"Hi There")?;
    job.hash_len = 8;
    job.tag_len = 20;
    Ok(())
}

fn authenticate(alloc: Global, manager: &mut Manager) -> Result<Option<Done>, AllocError> {
    match manager.get_next() {
        Ok(job) => fill(alloc, job)?,
        Err(RingFull) => return Ok(None),
    }
    match manager.submit() {
        Some(done) => Ok(Some(done)),
        None => Ok(manager.flush()),
    }
}

/// The job's result.
fn check_authenticated(rt: &impl Abort, done: &Done) {
    expect(rt, "status", done.status, Status::Ok);
    expect(rt, "packet", done.packet.as_slice(), b"Hi There");
    expect(rt, "tag", done.tag.bytes(), &TAG);
}

pub(crate) fn check_taken_back(
    rt: &impl Abort,
    alloc: Global,
    manager: &mut Manager,
) -> Result<(), Fail> {
    match authenticate(alloc, manager)? {
        Some(done) => check_authenticated(rt, &done),
        None => assert!(rt; false),
    }
    Ok(())
}

#[test]
fn a_job_is_filled_submitted_and_taken_back(rt: HostRuntime) -> Result<(), Fail> {
    check_taken_back(&rt, rt.alloc(), &mut Manager::new(rt.alloc())?)
}

/// Writes the tag's length into the open job, and returns what it was. A full ring is `u8::MAX`.
pub(crate) fn write_tag_len(manager: &mut Manager, tag_len: u8) -> u8
    ensures { length manager.new.owed ≡ length manager.old.owed }
{
    match manager.get_next() {
        Ok(job) => {
            let old = job.tag_len;
            job.tag_len = tag_len;
            old
        }
        Err(RingFull) => u8::MAX,
    }
}

/// No job comes back.
pub(crate) fn expect_none(rt: &impl Abort, back: Option<Done>) {
    assert!(rt; back.is_none());
}

// A null job with a tag length other than 0 is refused for that length.
pub(crate) fn write_tag_lens(rt: &impl Abort, manager: &mut Manager) {
    expect(rt, "fresh", write_tag_len(manager, 7), 0);
    expect(rt, "lent again", write_tag_len(manager, 9), 7);
    expect_none(rt, manager.get_completed());
    expect_none(rt, manager.flush());
    expect(rt, "not submitted", write_tag_len(manager, 1), 9);
}

#[test]
fn the_same_cell_is_lent_until_it_is_submitted(rt: HostRuntime) -> Result<(), Fail> {
    write_tag_lens(&rt, &mut Manager::new(rt.alloc())?);
    Ok(())
}

fn cross<T: Send + Drop>(_value: T) {}

/// Submits a job that is refused for its tag length.
fn submit_refused(alloc: Global, manager: &mut Manager) -> Result<Option<Done>, AllocError> {
    let job = match manager.get_next() {
        Ok(job) => job,
        Err(RingFull) => return Ok(None),
    };
    put(alloc, &mut job.packet, b"packet")?;
    job.tag_len = 1;
    Ok(manager.submit())
}

/// The refused job's result.
fn check_refused(rt: &impl Abort, done: &Done) {
    let refused = Status::InvalidArgs(Reason::TagLength);
    expect(rt, "status", done.status, refused);
    expect(rt, "packet", done.packet.as_slice(), b"packet");
    expect(rt, "tag", done.tag.bytes(), &[]);
}

fn refuse(rt: &impl Abort, alloc: Global, manager: &mut Manager) -> Result<(), Fail> {
    match submit_refused(alloc, manager)? {
        Some(done) => check_refused(rt, &done),
        None => assert!(rt; false),
    }
    expect_none(rt, manager.get_completed());
    Ok(())
}

#[test]
fn a_refused_job_comes_back_in_its_place(rt: HostRuntime) -> Result<(), Fail> {
    refuse(&rt, rt.alloc(), &mut Manager::new(rt.alloc())?)
}

/// Submits an HMAC-SHA-512 under a key of 20 bytes 0b over zero bytes, with a tag of 64 bytes less `number`. Returns the
/// number of the job that comes back.
fn submit_hmac(
    manager: &mut Manager,
    alloc: Global,
    number: u8,
    zeros: u32,
) -> Result<Option<usize>, AllocError> {
    let job = match manager.get_next() {
        Ok(job) => job,
        Err(RingFull) => return Ok(None),
    };
    job.auth = Auth::HmacSha512;
    put(alloc, &mut job.auth_key, &[0x0b; 20])?;
    job.packet = Bytes::from_vec(Vec::from_elem(alloc, 0, zeros as usize)?);
    job.hash_len = zeros;
    job.tag_len = 64u8.saturating_sub(number);
    Ok(number_of(manager.submit()))
}

fn number_of(done: Option<Done>) -> Option<usize> {
    match done {
        Some(done) => Some(64usize.saturating_sub(done.tag.bytes().len())),
        None => None,
    }
}

/// A job's number and zero bytes, the number of the job that comes back, and how many wait then.
type Step = (u8, u32, Option<usize>, u32);

/// The rests are 4, 5, 4 and 6, twice. The full run by 4 ends every other job.
const STEPS: [Step; 8] = [
    (0, 0, None, 1),
    (1, 112, None, 2),
    (2, 0, None, 3),
    (3, 300, None, 4),
    (4, 0, None, 5),
    (5, 112, None, 6),
    (6, 0, None, 7),
    (7, 300, Some(0), 4),
];

fn check_waiting(rt: &impl Abort, manager: &Manager, wanted: u32) {
    let waiting = manager.waiting(Kind::HmacSha512);
    expect(rt, "waiting", waiting, wanted);
    let entries = manager.lanes::<Hmac512Kernel>().len();
    expect(rt, "in lanes", entries, wanted);
}

fn submit_each(rt: &impl Abort, alloc: Global, manager: &mut Manager) -> Result<(), Fail> {
    for step in &STEPS {
        let (number, zeros, back, waiting) = *step;
        let found = submit_hmac(manager, alloc, number, zeros)?;
        expect(rt, "back", found, back);
        check_waiting(rt, manager, waiting);
    }
    Ok(())
}

/// The flush runs by 1, twice.
fn flush_each(rt: &impl Abort, manager: &mut Manager) {
    expect(rt, "none", number_of(manager.get_completed()), None);
    for number in 1..STEPS.len() {
        expect(rt, "back", number_of(manager.flush()), Some(number));
    }
    expect(rt, "no more", number_of(manager.flush()), None);
}

fn check_counts(rt: &impl Abort, manager: &Manager) {
    expect(rt, "rounds", manager.rounds(Kind::HmacSha512), 4);
    expect(rt, "blocks", manager.blocks(Kind::HmacSha512), 32);
    expect(rt, "flush runs", manager.flush_runs(), 2);
}

fn fill_lanes(rt: &impl Abort, alloc: Global, manager: &mut Manager) -> Result<(), Fail> {
    submit_each(rt, alloc, manager)?;
    flush_each(rt, manager);
    check_counts(rt, manager);
    Ok(())
}

#[test]
fn jobs_wait_until_all_lanes_are_in_use(rt: HostRuntime) -> Result<(), Fail> {
    fill_lanes(&rt, rt.alloc(), &mut Manager::new(rt.alloc())?)
}

/// SP 800-38A, F.2.1: the key, the IV, the first block of the plaintext, and that of the ciphertext.
const CBC: [u128; 4] = [
    0x2b7e151628aed2a6abf7158809cf4f3c,
    0x000102030405060708090a0b0c0d0e0f,
    0x6bc1bee22e409f96e93d7e117393172a,
    0x7649abac8119b246cee98e9b12e9197d,
];

/// "Hi There" and a block.
fn two_parts() -> [u8; 24] {
    let mut packet = [0; 24];
    packet[..8].copy_from_slice(b"Hi There");
    packet[8..].copy_from_slice(&CBC[2].to_be_bytes());
    packet
}

/// Makes a job encrypt the block of its packet, and authenticate "Hi There".
fn encrypt_and_authenticate(alloc: Global, job: &mut Job) -> Result<(), AllocError> {
    job.cipher = Cipher::Cbc;
    job.cipher_off = 8;
    job.cipher_len = 16;
    job.auth = Auth::HmacSha1;
    job.hash_len = 8;
    job.tag_len = 20;
    put_block(alloc, &mut job.key, CBC[0])?;
    put_block(alloc, &mut job.iv, CBC[1])?;
    put(alloc, &mut job.auth_key, &[0x0b; 20])?;
    put(alloc, &mut job.packet, &two_parts())
}

/// That job, in an order.
fn job_of(alloc: Global, order: Order) -> Result<Job, AllocError> {
    let mut job = Job::blank(alloc);
    job.order = order;
    encrypt_and_authenticate(alloc, &mut job)?;
    Ok(job)
}

fn is_done(done: &Done) -> bool {
    let packet = done.packet.as_slice();
    done.status == Status::Ok
        && packet.strip_prefix(b"Hi There".as_slice()) == Some(CBC[3].to_be_bytes().as_slice())
        && done.tag.bytes() == TAG.as_slice()
}

fn expect_done(rt: &impl Abort, back: Option<Done>) {
    match back {
        Some(done) => assert!(rt; is_done(&done)),
        None => assert!(rt; false),
    }
}

fn submit_both(rt: &impl Abort, alloc: Global, manager: &mut Manager) -> Result<(), Fail> {
    for order in [Order::CipherHash, Order::HashCipher] {
        expect_none(rt, manager.make_room());
        expect_none(rt, manager.submit_job(job_of(alloc, order)?));
    }
    Ok(())
}

fn flush_both(rt: &impl Abort, manager: &mut Manager) {
    expect_done(rt, manager.flush());
    expect_done(rt, manager.flush());
    expect_none(rt, manager.flush());
    expect(rt, "flush runs", manager.flush_runs(), 3);
}

// The first job waits for CBC and the second one for HMAC. A flush runs CBC by one job, and HMAC by both; the next one runs
// CBC by the second job.
fn go_through_lanes(rt: &impl Abort, alloc: Global, manager: &mut Manager) -> Result<(), Fail> {
    submit_both(rt, alloc, manager)?;
    flush_both(rt, manager);
    Ok(())
}

#[test]
fn two_stages_go_through_lanes_in_either_order(rt: HostRuntime) -> Result<(), Fail> {
    go_through_lanes(&rt, rt.alloc(), &mut Manager::new(rt.alloc())?)
}

fn check_zeros(rt: &impl Abort, manager: &Manager) {
    expect(rt, "queue", manager.queue_size(), 0);
    expect(rt, "waiting", manager.waiting(Kind::Cbc128), 0);
    expect(rt, "rounds", manager.rounds(Kind::Cmac256), 0);
    expect(rt, "blocks", manager.blocks(Kind::HmacSha512), 0);
    expect(rt, "flush runs", manager.flush_runs(), 0);
}

#[test]
fn nothing_waits_and_nothing_is_counted(rt: HostRuntime) -> Result<(), Fail> {
    let manager = Manager::new(rt.alloc())?;
    check_zeros(&rt, &manager);
    results_come_back_in_order();
    cross(manager);
    Ok(())
}
