mod lanes;

use crate::compare::expect;
use crate::fill::put;
use mbj_types::{
    Auth, Bytes, Cipher, Done, Job, Kind, PostFull, Reason, RingFull, Status, Tag,
    kinds_are_told_in_order, limits_are_these_numbers, xor_in_place,
};
use std::alloc::{AllocError, Global};
use std::fmt::Display;
use std::process::Abort;
use std::test::Fail;

/// Takes a value that may cross to another thread.
fn cross<T: Send + Drop>(_value: T) {}

#[test]
fn bytes_go_in_and_out(rt: HostRuntime) -> Result<(), Fail> {
    let bytes = Bytes::from_slice(rt.alloc(), b"packet")?;
    expect(&rt, "lent", bytes.as_slice(), b"packet");
    let vec = bytes.into_vec();
    expect(&rt, "taken out", vec.as_slice(), b"packet");
    Ok(())
}

#[test]
fn a_tag_holds_up_to_64_bytes(rt: HostRuntime) {
    expect(&rt, "3 bytes", Tag::from_slice(b"tag").bytes(), b"tag");
    expect(&rt, "no byte", Tag::from_slice(&[]).bytes(), &[]);
    expect(&rt, "64 bytes", Tag::from_slice(&[7; 64]).bytes(), &[7; 64]);
}

#[test]
fn jobs_and_results_may_cross_to_another_thread(rt: HostRuntime) {
    let job = Job::blank(rt.alloc());
    expect(&rt, "auth", job.auth, Auth::Null);
    expect(&rt, "packet", job.packet.as_slice(), &[]);
    cross(PostFull(job));
    cross(Done {
        status: Status::InvalidArgs(Reason::GcmPair),
        packet: Bytes::from_vec(Vec::new(rt.alloc())),
        tag: Tag::from_slice(&[]),
    });
}

fn fill(alloc: Global, job: &mut Job) -> Result<(), AllocError> {
    job.auth = Auth::HmacSha1;
    job.tag_len = 12;
    put(alloc, &mut job.aad, b"header")?;
    put(alloc, &mut job.packet, b"packet")
}

fn check_copied(rt: &impl Abort, copy: &Job) {
    expect(rt, "auth", copy.auth, Auth::HmacSha1);
    expect(rt, "aad", copy.aad.as_slice(), b"header");
    expect(rt, "packet", copy.packet.as_slice(), b"packet");
    expect(rt, "tag_len", copy.tag_len, 12);
}

fn check_blank(rt: &impl Abort, blank: &Job) {
    expect(rt, "cipher", blank.cipher, Cipher::Null);
    expect(rt, "auth", blank.auth, Auth::Null);
    expect(rt, "tag_len", blank.tag_len, 0);
    expect(rt, "key", blank.key.as_slice(), &[]);
    expect(rt, "packet", blank.packet.as_slice(), &[]);
}

/// Puts a copy of the job in its place, where the job that was copied is dropped.
fn replace_by_copy(alloc: Global, job: &mut Job) -> Result<(), AllocError> {
    *job = job.copy(alloc)?;
    Ok(())
}

/// Copies a blank job, and fills and copies it.
fn check_copies(rt: &impl Abort, alloc: Global, job: &mut Job) -> Result<(), Fail> {
    replace_by_copy(alloc, job)?;
    check_blank(rt, job);
    fill(alloc, job)?;
    replace_by_copy(alloc, job)?;
    check_copied(rt, job);
    Ok(())
}

#[test]
fn a_copied_job_is_equal_and_stands_alone(rt: HostRuntime) -> Result<(), Fail> {
    check_copies(&rt, rt.alloc(), &mut Job::blank(rt.alloc()))
}

#[test]
fn reasons_and_lanes_have_their_numbers(rt: HostRuntime) {
    expect(&rt, "first row", Reason::PacketLong.number(), 1);
    expect(&rt, "last row", Reason::TagLength.number(), 10);
    expect(&rt, "CMAC", Kind::Cmac256.lanes(), 32);
    expect(&rt, "SHA-512", Kind::HmacSha512.lanes(), 8);
    expect(&rt, "name", Kind::ALL[5].name(), "hmac-sha1");
    limits_are_these_numbers();
    kinds_are_told_in_order();
}

fn check_shown(
    rt: &impl Abort,
    alloc: Global,
    value: &impl Display,
    want: &str,
) -> Result<(), Fail> {
    let shown = format!(in alloc; "{value}")?;
    expect(rt, "shown", shown.as_str(), want);
    Ok(())
}

fn check_post_full(rt: &impl Abort, alloc: Global) -> Result<(), Fail> {
    check_shown(
        rt,
        alloc,
        &PostFull(Job::blank(alloc)),
        "every cell of the submitter has a job that was not collected",
    )
}

#[test]
fn refusals_say_what_is_wrong(rt: HostRuntime) -> Result<(), Fail> {
    let alloc = rt.alloc();
    check_shown(
        &rt,
        alloc,
        &Reason::GcmPair,
        "the authentication doesn't go with the cipher",
    )?;
    check_shown(
        &rt,
        alloc,
        &RingFull,
        "every cell of the manager's ring has a job that was not given back",
    )?;
    check_post_full(&rt, alloc)
}

#[test]
fn bytes_are_xored_as_far_as_the_text_goes(rt: HostRuntime) {
    let mut text = [0x00, 0x0f, 0xff];
    xor_in_place(&mut text, &[0xf0, 0xff, 0xff, 0x55]);
    expect(&rt, "text", text.as_slice(), &[0xf0, 0xf0, 0x00]);
}
