ghost use Rattle.std.specs.Mem.{FitsInMemory};
ghost use Rattle.std.specs.Prelude.{◌≡◌, ◌<◌, None, length};
ghost use Rattle.mbj_types.specs.Result.{result_of};
ghost use Rattle.mbj_lane.specs.Rounds.{end_of};
ghost use Rattle.mbj_stage.specs.CourseState.{owed};
ghost use Rattle.mbj_stage.specs.Handing.{IsNext};

use crate::fill::{put, put_block};
use mbj_cbc::CbcKernel;
use mbj_ccm::CcmKernel;
use mbj_cmac::CmacKernel;
use mbj_hmac::{Hmac1Kernel, Hmac256Kernel, Hmac512Kernel};
use mbj_lane::Kernel;
use mbj_stage::{Course, JobKernel, Stage};
use mbj_types::{Auth, Cipher, Dir, Done, Job, Kind, Order, Reason, Status, Tag};
use std::alloc::{AllocError, Global};
use std::process::Abort;
use std::slice;
use std::test::Fail;

/// The key of SP 800-38A, appendix F, and SP 800-38B, appendix D.1.
const KEY: u128 = 0x2b7e151628aed2a6abf7158809cf4f3c;

const IV: u128 = 0x000102030405060708090a0b0c0d0e0f;

/// The first block of the plaintext of SP 800-38A, appendix F.
const PLAINTEXT: u128 = 0x6bc1bee22e409f96e93d7e117393172a;

/// That block encrypted by CBC-AES128 (F.2.1).
const CIPHERTEXT: u128 = 0x7649abac8119b246cee98e9b12e9197d;

/// Its CMAC (SP 800-38B, D.1, example 2).
const CMAC: u128 = 0x070a16b46b4d4144f79bdd9dd04a287c;

/// Gives a job CBC and CMAC over a packet of one block.
fn fill_cbc_cmac(alloc: Global, job: &mut Job, packet: u128) -> Result<(), AllocError> {
    job.cipher = Cipher::Cbc;
    job.cipher_len = 16;
    job.auth = Auth::Cmac128;
    job.hash_len = 16;
    job.tag_len = 16;
    put_block(alloc, &mut job.key, KEY)?;
    put_block(alloc, &mut job.iv, IV)?;
    put_block(alloc, &mut job.auth_key, KEY)?;
    put_block(alloc, &mut job.packet, packet)
}

/// A job with CBC and CMAC over a packet of one block.
fn cbc_cmac(alloc: Global, dir: Dir, order: Order, packet: u128) -> Result<Job, AllocError> {
    let mut job = Job::blank(alloc);
    job.dir = dir;
    job.order = order;
    fill_cbc_cmac(alloc, &mut job, packet)?;
    Ok(job)
}

/// Advances an entry to its end, alone in its lanes.
fn advanced<K: Kernel>(entry: K::Entry) -> K::Entry
    requires { FitsInMemory K.Entry.row }
    ensures end { result ≡ end_of K.round K.rest_of entry }
    ensures done { K.rest_of result ≡ 0 }
{
    let mut entry = entry;
    let rest = K::rest(&entry);
    K::run(slice::from_mut(&mut entry), rest);
    entry
}

/// Does the next stage, in the lanes of a kernel.
fn do_lane_of<K: JobKernel>(course: &mut Course)
    requires memory { FitsInMemory K.Entry.row }
    requires fits { K.fits }
    requires next { IsNext K.kind course.old }
    ensures owed { owed course.new ≡ owed course.old }
    ensures here { course.new.out ≡ None }
    ensures fewer { length course.new.left < length course.old.left }
{
    let entry = K::hand_out(course);
    K::take_back(course, advanced::<K>(entry));
}

/// Does the next stage, which is in lanes.
fn do_lane(course: &mut Course, kind: Kind)
    requires next { IsNext kind course.old }
    ensures owed { owed course.new ≡ owed course.old }
    ensures here { course.new.out ≡ None }
    ensures fewer { length course.new.left < length course.old.left }
{
    match kind {
        Kind::Cbc128 => do_lane_of::<CbcKernel<10>>(course),
        Kind::Cbc192 => do_lane_of::<CbcKernel<12>>(course),
        Kind::Cbc256 => do_lane_of::<CbcKernel<14>>(course),
        Kind::Cmac128 => do_lane_of::<CmacKernel<10>>(course),
        Kind::Cmac256 => do_lane_of::<CmacKernel<14>>(course),
        Kind::HmacSha1 => do_lane_of::<Hmac1Kernel>(course),
        Kind::HmacSha256 => do_lane_of::<Hmac256Kernel>(course),
        Kind::HmacSha512 => do_lane_of::<Hmac512Kernel>(course),
        Kind::Ccm128 => do_lane_of::<CcmKernel<10>>(course),
        Kind::Ccm192 => do_lane_of::<CcmKernel<12>>(course),
        Kind::Ccm256 => do_lane_of::<CcmKernel<14>>(course),
    }
}

/// Does a job, stage after stage, and returns its result.
fn do_job(job: Job) -> Done
    ensures { result ≡ result_of job }
{
    let mut course = Course::begin(job);
    'stages: loop {
        match course.next_stage() {
            Stage::Now => course.run_now(),
            Stage::Lane(kind) => do_lane(&mut course, kind),
            Stage::Finished => return course.into_done(),
        }
    }
}

fn is(done: &Done, status: Status, packet: u128, tag: &[u8]) -> bool {
    done.status == status
        && done.packet.as_slice() == packet.to_be_bytes().as_slice()
        && done.tag.bytes() == tag
}

/// A job that succeeds makes this packet and this tag.
pub(crate) fn check_job(rt: &impl Abort, job: Job, packet: u128, tag: &[u8]) {
    let done = do_job(job);
    assert!(rt; is(&done, Status::Ok, packet, tag));
}

// The tag is over the plaintext, whether it is authenticated before encryption or after decryption.
#[test]
fn cipher_and_hash_go_in_the_order_of_the_job(rt: HostRuntime) -> Result<(), Fail> {
    let tag = CMAC.to_be_bytes();
    let sent = cbc_cmac(rt.alloc(), Dir::Enc, Order::HashCipher, PLAINTEXT)?;
    check_job(&rt, sent, CIPHERTEXT, &tag);
    let received = cbc_cmac(rt.alloc(), Dir::Dec, Order::CipherHash, CIPHERTEXT)?;
    check_job(&rt, received, PLAINTEXT, &tag);
    Ok(())
}

/// The tag of CMAC alone over the ciphertext.
fn tag_of_ciphertext(alloc: Global) -> Result<Tag, AllocError> {
    let mut job = cbc_cmac(alloc, Dir::Enc, Order::HashCipher, CIPHERTEXT)?;
    job.cipher = Cipher::Null;
    let alone = do_job(job);
    Ok(alone.tag)
}

// With the order the other way, the tag is that of CMAC alone over the ciphertext.
#[test]
fn hash_after_cipher_is_over_the_ciphertext(rt: HostRuntime) -> Result<(), Fail> {
    let alone = tag_of_ciphertext(rt.alloc())?;
    let both = cbc_cmac(rt.alloc(), Dir::Enc, Order::CipherHash, PLAINTEXT)?;
    check_job(&rt, both, CIPHERTEXT, alone.bytes());
    Ok(())
}

fn fill_gcm(alloc: Global, job: &mut Job) -> Result<(), AllocError> {
    job.cipher = Cipher::Gcm;
    job.cipher_len = 16;
    job.auth = Auth::Gcm;
    job.tag_len = 16;
    put_block(alloc, &mut job.key, 0)?;
    put(alloc, &mut job.iv, &[0; 12])?;
    put_block(alloc, &mut job.packet, 0)
}

// The GCM specification, test case 2.
#[test]
fn gcm_makes_text_and_tag(rt: HostRuntime) -> Result<(), Fail> {
    let mut job = Job::blank(rt.alloc());
    fill_gcm(rt.alloc(), &mut job)?;
    let tag = 0xab6e47d42cec13bdf53a67b21257bddfu128.to_be_bytes();
    check_job(&rt, job, 0x0388dace60b6a392f328c2b971b2fe78, &tag);
    Ok(())
}

/// A CCM job over 4 bytes, with the key, the nonce, the data and the length of the tag of SP 800-38C, example 1.
fn fill_ccm(alloc: Global, job: &mut Job, packet: &[u8]) -> Result<(), AllocError> {
    job.cipher = Cipher::Ccm;
    job.cipher_len = 4;
    job.auth = Auth::Ccm;
    job.tag_len = 4;
    put_block(alloc, &mut job.key, 0x404142434445464748494a4b4c4d4e4f)?;
    put(
        alloc,
        &mut job.iv,
        &[0x10, 0x11, 0x12, 0x13, 0x14, 0x15, 0x16],
    )?;
    put(alloc, &mut job.aad, &[0, 1, 2, 3, 4, 5, 6, 7])?;
    put(alloc, &mut job.packet, packet)
}

/// That job in a direction makes this packet, and the example's tag.
fn check_ccm(
    rt: &impl Abort,
    alloc: Global,
    dir: Dir,
    given: &[u8],
    made: &[u8],
) -> Result<(), Fail> {
    let mut job = Job::blank(alloc);
    job.dir = dir;
    fill_ccm(alloc, &mut job, given)?;
    let done = do_job(job);
    assert!(rt; done.packet.as_slice() == made);
    assert!(rt; done.tag.bytes() == [0x4d, 0xac, 0x25, 0x5d].as_slice());
    Ok(())
}

// SP 800-38C, appendix C.1: the tag is over the plaintext, whether it is ciphered behind its MAC or deciphered before.
#[test]
fn ccm_makes_text_and_tag(rt: HostRuntime) -> Result<(), Fail> {
    let plaintext = [0x20, 0x21, 0x22, 0x23];
    let ciphertext = [0x71, 0x62, 0x01, 0x5b];
    check_ccm(&rt, rt.alloc(), Dir::Enc, &plaintext, &ciphertext)?;
    check_ccm(&rt, rt.alloc(), Dir::Dec, &ciphertext, &plaintext)
}

/// A job with CBC and the digest of SHA-384 over a packet of one block.
fn cbc_sha384(alloc: Global, order: Order) -> Result<Job, AllocError> {
    let mut job = cbc_cmac(alloc, Dir::Enc, order, PLAINTEXT)?;
    job.auth = Auth::Sha384;
    Ok(job)
}

// The leftmost bytes of the digests of the plaintext and of the ciphertext, by Python's hashlib.
#[test]
fn a_digest_goes_in_the_order_of_the_job(rt: HostRuntime) -> Result<(), Fail> {
    let before = cbc_sha384(rt.alloc(), Order::HashCipher)?;
    let of_plaintext = 0x0961bb6be5c7e896af1a57b8fd0f37ddu128.to_be_bytes();
    check_job(&rt, before, CIPHERTEXT, &of_plaintext);
    let after = cbc_sha384(rt.alloc(), Order::CipherHash)?;
    let of_ciphertext = 0x54c0f98b933ef8d941747d5f592e6832u128.to_be_bytes();
    check_job(&rt, after, CIPHERTEXT, &of_ciphertext);
    Ok(())
}

/// The result of a course that is finished from the beginning.
fn result_at_once(rt: &impl Abort, job: Job) -> Done {
    let course = Course::begin(job);
    assert_eq!(rt; course.next_stage(), Stage::Finished);
    course.into_done()
}

#[test]
fn a_refused_job_keeps_its_packet(rt: HostRuntime) -> Result<(), Fail> {
    let mut job = cbc_cmac(rt.alloc(), Dir::Enc, Order::CipherHash, PLAINTEXT)?;
    job.cipher_len = 15;
    let done = result_at_once(&rt, job);
    let refused = Status::InvalidArgs(Reason::CipherLength);
    assert!(rt; is(&done, refused, PLAINTEXT, &[]));
    Ok(())
}
