use super::*;
use mbj_types::BLOCK_BYTES;

/// Compares the tag, and the byte behind it, which stayed as it was.
fn expect_mac(rt: &impl Abort, tag: &[u8; MAX_TAG_BYTES]) {
    expect_bytes(rt, &tag[..20], &MAC);
    expect_number(rt, u32::from(tag[20]), 0xee);
}

fn check_mac(rt: &impl Abort, alloc: Global, handle: &mut Handle) {
    let job = mac_job(b"Hi There");
    expect_number(rt, mbj_c_fill(alloc, handle, &job), 0);
    let mut tag = [0xee; MAX_TAG_BYTES];
    let returned = submit_or_flush(alloc, handle, &mut [], &mut tag);
    expect_returned(rt, returned, given(0, 20, 0));
    expect_mac(rt, &tag);
}

// A job without a cipher gives no byte of its packet back.
#[test]
fn a_mac_is_given_back(rt: HostRuntime) {
    let alloc = rt.alloc();
    let mut handle = opened(&rt, alloc);
    check_mac(&rt, alloc, &mut handle);
    close(&rt, alloc, handle);
}

fn expect_held(rt: &impl Abort, alloc: Global, handle: &mut Handle, is_held: bool) {
    let held = mbj_c_held_bytes(alloc, handle);
    assert!(rt; (held > 0) == is_held);
}

// Without a manager there is nothing to keep or to free.
#[test]
fn no_manager_keeps_nothing(rt: HostRuntime) {
    let alloc = rt.alloc();
    let mut handle = Handle::empty(alloc);
    mbj_c_trim(alloc, &mut handle);
    expect_held(&rt, alloc, &mut handle, false);
    assert!(rt; handle.into_manager().is_none());
}

// The blocks of a short job stay until the manager is trimmed.
fn check_kept(rt: &impl Abort, alloc: Global, mut handle: Handle) {
    expect_held(rt, alloc, &mut handle, false);
    check_mac(rt, alloc, &mut handle);
    expect_held(rt, alloc, &mut handle, true);
    mbj_c_trim(alloc, &mut handle);
    expect_held(rt, alloc, &mut handle, false);
    close(rt, alloc, handle);
}

#[test]
fn a_manager_keeps_short_blocks_until_it_is_trimmed(rt: HostRuntime) {
    let alloc = rt.alloc();
    check_kept(&rt, alloc, opened(&rt, alloc));
}

#[test]
fn a_keeping_manager_keeps_blocks_until_it_is_trimmed(rt: HostRuntime) {
    let alloc = rt.alloc();
    let mut handle = Handle::empty(alloc);
    expect_number(&rt, mbj_c_new_keeping(alloc, &mut handle), 0);
    check_kept(&rt, alloc, handle);
}

#[test]
fn a_manager_may_keep_nothing(rt: HostRuntime) {
    let alloc = rt.alloc();
    let mut handle = Handle::empty(alloc);
    expect_number(&rt, mbj_c_new_keeping_none(alloc, &mut handle), 0);
    check_mac(&rt, alloc, &mut handle);
    expect_held(&rt, alloc, &mut handle, false);
    close(&rt, alloc, handle);
}

/// A packet with a byte before the range and two behind it.
fn packet_round_text() -> [u8; 19] {
    let mut packet = [0xaa; 19];
    packet[1..17].copy_from_slice(&CBC_TEXT);
    packet
}

fn check_ciphertext(rt: &impl Abort, alloc: Global, handle: &mut Handle) {
    let packet = packet_round_text();
    let job = cbc_job(&packet, 1);
    expect_number(rt, mbj_c_fill(alloc, handle, &job), 0);
    let (mut dst, mut tag) = ([0xee; BLOCK_BYTES + 1], [0; MAX_TAG_BYTES]);
    let returned = submit_or_flush(alloc, handle, &mut dst, &mut tag);
    expect_returned(rt, returned, given(16, 0, 0));
    expect_bytes(rt, &dst[..16], &CBC_CIPHERTEXT);
    expect_number(rt, u32::from(dst[16]), 0xee);
}

#[test]
fn the_ciphered_range_alone_is_given_back(rt: HostRuntime) {
    let alloc = rt.alloc();
    let mut handle = opened(&rt, alloc);
    check_ciphertext(&rt, alloc, &mut handle);
    close(&rt, alloc, handle);
}

/// Submits a job that the table refuses: its result needs no room for bytes, and has a reason.
fn check_refused_job(
    rt: &impl Abort,
    alloc: Global,
    handle: &mut Handle,
    job: &RawJob<'_>,
    reason: u32,
) {
    expect_number(rt, mbj_c_fill(alloc, handle, job), 0);
    let mut tag = [0; MAX_TAG_BYTES];
    let returned = make(alloc, handle, Export::Submit, &mut [], &mut tag);
    expect_returned(rt, returned, given(0, 0, reason));
}

// CTR takes no range of 0 bytes, for reason 6.
#[test]
fn a_refused_job_comes_back_with_its_reason(rt: HostRuntime) {
    let alloc = rt.alloc();
    let mut handle = opened(&rt, alloc);
    let mut job = cbc_job(b"packet", 0);
    job.cipher = CTR;
    job.cipher_len = 0;
    check_refused_job(&rt, alloc, &mut handle, &job, 6);
    close(&rt, alloc, handle);
}

// 2^32 + 16 bytes are refused, and not taken for 16, for reason 5; and likewise by reason 8 of an authentication's range.
#[test]
fn ranges_beyond_32_bits_are_refused(rt: HostRuntime) {
    let alloc = rt.alloc();
    let mut handle = opened(&rt, alloc);
    let mut job = cbc_job(&CBC_TEXT, 0);
    job.cipher_len = (1 << 32) + 16;
    check_refused_job(&rt, alloc, &mut handle, &job, 5);
    let mut job = mac_job(b"Hi There");
    job.hash_off = 1 << 32;
    check_refused_job(&rt, alloc, &mut handle, &job, 8);
    close(&rt, alloc, handle);
}

fn expect_counts(rt: &impl Abort, counts: Counts, expected: Counts) {
    assert_eq!(rt; counts, expected);
}

fn check_counts(rt: &impl Abort, alloc: Global, handle: &mut Handle) {
    let before = Counts {
        rounds: 1,
        blocks: 2,
        flush_runs: 3,
        waiting: 4,
    };
    let none = Counts {
        rounds: 0,
        blocks: 0,
        flush_runs: 0,
        waiting: 0,
    };
    let mut counts = before;
    assert!(rt; !mbj_c_count(alloc, handle, 0, &mut counts));
    expect_number(rt, mbj_c_new(alloc, handle), 0);
    assert!(rt; !mbj_c_count(alloc, handle, 11, &mut counts));
    expect_counts(rt, counts, before);
    assert!(rt; mbj_c_count(alloc, handle, 10, &mut counts));
    expect_counts(rt, counts, none);
}

#[test]
fn lanes_are_counted_by_kind(rt: HostRuntime) {
    let alloc = rt.alloc();
    let mut handle = Handle::empty(alloc);
    check_counts(&rt, alloc, &mut handle);
    close(&rt, alloc, handle);
}

fn crosses<V: Send>(_value: &V) {}

// A handle may go to another thread.
#[test]
fn a_handle_crosses_threads(rt: HostRuntime) {
    let alloc = rt.alloc();
    let handle = opened(&rt, alloc);
    crosses(&handle);
    close(&rt, alloc, handle);
}

#[test]
fn the_version_is_told(rt: HostRuntime) {
    expect_number(&rt, mbj_c_version(), 0x1_0000);
}
