ghost use Rattle.std.specs.Prelude.{◌≤◌, length};
ghost use Rattle.mbj_types.specs.declared.limits.TheConstants.{MAX_TAG_BYTES};

use super::*;

/// The codes of refusals, as they are returned to C.
const WORD: u32 = 22;

const NO_MANAGER: u32 = 24;

const NO_JOB: u32 = 25;

const NO_ROOM: u32 = 26;

/// What is returned before a burst.
const UNTOLD: RawBurst = RawBurst {
    made: 99,
    given: 99,
    refusal: 99,
};

fn room<'a>(dst: &'a mut [u8], tag: &'a mut [u8]) -> RawDone<'a> {
    RawDone {
        dst,
        tag,
        dst_len: 99,
        tag_len: 99,
        status: 99,
        reason: 99,
    }
}

fn expect_burst(rt: &impl Abort, returned: RawBurst, made: usize, given: usize, refusal: u32) {
    let expected = RawBurst {
        made,
        given,
        refusal,
    };
    assert_eq!(rt; returned, expected);
}

/// Fills a job that authenticates, one with a code that is none, and one that enciphers.
fn check_filling(rt: &impl Abort, alloc: Global, handle: &mut Handle, expected: [u32; 4]) {
    let mut unknown = null_job(b"packet");
    unknown.auth = 21;
    let jobs = [mac_job(b"Hi There"), unknown, cbc_job(&CBC_TEXT, 0)];
    let mut refusals = [99; 4];
    let filled = mbj_c_fill_burst(alloc, handle, &jobs, &mut refusals);
    assert_eq!(rt; refusals, expected);
    expect_number(rt, filled, if expected[0] == 0 { 2 } else { 0 });
}

/// Submits two jobs, which wait for lanes, and flushes them to two rooms.
fn flush_to_rooms(
    rt: &impl Abort,
    alloc: Global,
    handle: &mut Handle,
    first_dst: &mut [u8],
    first_tag: &mut [u8],
    second_dst: &mut [u8],
    second_tag: &mut [u8],
) {
    let mut outs = [room(first_dst, first_tag), room(second_dst, second_tag)];
    let mut returned = UNTOLD;
    mbj_c_submit_burst(alloc, handle, &mut outs, &mut returned);
    expect_burst(rt, returned, 2, 0, 0);
    mbj_c_flush_burst(alloc, handle, &mut outs, &mut returned);
    expect_burst(rt, returned, 2, 2, 0);
}

/// A room with these bytes at its front, and behind them what it had before.
fn room_with(bytes: &[u8]) -> [u8; MAX_TAG_BYTES]
    requires { length bytes.now ≤ MAX_TAG_BYTES }
{
    let mut room = [0xee; MAX_TAG_BYTES];
    room[..bytes.len()].copy_from_slice(bytes);
    room
}

/// Each result goes to the room of its place.
fn check_results(rt: &impl Abort, alloc: Global, handle: &mut Handle) {
    let (mut mac, mut tag) = ([0xee; MAX_TAG_BYTES], [0xee; MAX_TAG_BYTES]);
    let (mut nothing, mut dst) = ([0xee; 1], [0xee; MAX_TAG_BYTES]);
    flush_to_rooms(
        rt,
        alloc,
        handle,
        &mut nothing,
        &mut mac,
        &mut dst,
        &mut tag,
    );
    expect_bytes(rt, &mac, &room_with(&MAC));
    expect_bytes(rt, &nothing, &[0xee]);
    expect_bytes(rt, &dst, &room_with(&CBC_CIPHERTEXT));
}

#[test]
fn each_job_of_a_burst_has_its_own_answer_and_room(rt: HostRuntime) {
    let alloc = rt.alloc();
    let mut handle = opened(&rt, alloc);
    check_filling(&rt, alloc, &mut handle, [0, WORD, 0, 99]);
    check_results(&rt, alloc, &mut handle);
    close(&rt, alloc, handle);
}

/// A burst with one room, which holds this many bytes.
fn expect_refused(
    rt: &impl Abort,
    alloc: Global,
    handle: &mut Handle,
    dst: &mut [u8],
    refusal: u32,
) {
    let mut tag = [0xee; MAX_TAG_BYTES];
    let mut outs = [room(dst, &mut tag)];
    let mut returned = UNTOLD;
    mbj_c_submit_burst(alloc, handle, &mut outs, &mut returned);
    expect_burst(rt, returned, 0, 0, refusal);
}

#[test]
fn bursts_are_refused_as_single_calls_are(rt: HostRuntime) {
    let alloc = rt.alloc();
    let mut handle = Handle::empty(alloc);
    check_filling(
        &rt,
        alloc,
        &mut handle,
        [NO_MANAGER, NO_MANAGER, NO_MANAGER, 99],
    );
    expect_refused(&rt, alloc, &mut handle, &mut [], NO_MANAGER);
    expect_number(&rt, mbj_c_new(alloc, &mut handle), 0);
    expect_refused(&rt, alloc, &mut handle, &mut [], NO_JOB);
    let job = cbc_job(&CBC_TEXT, 0);
    expect_number(&rt, mbj_c_fill(alloc, &mut handle, &job), 0);
    expect_refused(&rt, alloc, &mut handle, &mut [0xee; 15], NO_ROOM);
    close(&rt, alloc, handle);
}

fn check_completed(rt: &impl Abort, alloc: Global, handle: &mut Handle) {
    let jobs = [null_job(b"packet"), null_job(b"packet")];
    let mut refusals = [99; 1];
    expect_number(rt, mbj_c_fill_burst(alloc, handle, &jobs, &mut refusals), 1);
    expect_refused_after(rt, alloc, handle);
}

/// Of two submissions the first one gives its job back, and for the second one there is no job. Nothing is finished then.
fn expect_refused_after(rt: &impl Abort, alloc: Global, handle: &mut Handle) {
    let (mut first, mut second) = ([0xee; MAX_TAG_BYTES], [0xee; MAX_TAG_BYTES]);
    let mut outs = [room(&mut [], &mut first), room(&mut [], &mut second)];
    let mut returned = UNTOLD;
    mbj_c_submit_burst(alloc, handle, &mut outs, &mut returned);
    expect_burst(rt, returned, 1, 1, NO_JOB);
    mbj_c_get_completed_burst(alloc, handle, &mut outs, &mut returned);
    expect_burst(rt, returned, 2, 0, 0);
}

#[test]
fn as_many_jobs_are_filled_as_have_a_place_for_their_answer(rt: HostRuntime) {
    let alloc = rt.alloc();
    let mut handle = opened(&rt, alloc);
    check_completed(&rt, alloc, &mut handle);
    close(&rt, alloc, handle);
}
