use super::*;
use mbj_ring::CELLS;

/// The codes of refusals, as they are returned to C.
const FULL: u32 = 21;

const WORD: u32 = 22;

const NO_MANAGER: u32 = 24;

const NO_JOB: u32 = 25;

const NO_ROOM: u32 = 26;

const HAS_MANAGER: u32 = 27;

/// Fills and submits the job, and returns for what filling is refused; 0 if it isn't.
fn fill_and_submit(alloc: Global, handle: &mut Handle, job: &RawJob<'_>) -> u32 {
    let refusal = mbj_c_fill(alloc, handle, job);
    if refusal == 0 {
        make(
            alloc,
            handle,
            Export::Submit,
            &mut [],
            &mut [0; MAX_TAG_BYTES],
        );
    }
    refusal
}

fn check_filling(rt: &impl Abort, alloc: Global, handle: &mut Handle) {
    let null = null_job(b"Hi There");
    let mut waiting = null;
    waiting.auth = HMAC_SHA512;
    waiting.hash_len = 8;
    waiting.tag_len = 64;
    expect_number(rt, fill_and_submit(alloc, handle, &waiting), 0);
    for _ in 0..CELLS + 44 {
        let size = mbj_c_queue_size(alloc, handle);
        let refusal = fill_and_submit(alloc, handle, &null);
        expect_number(rt, refusal, if size == CELLS { FULL } else { 0 });
    }
}

// If one job waits for lanes, the jobs behind it fill the ring. If every job is done at once, the ring never fills. Either
// way filling is refused exactly where all cells are in use.
#[test]
fn filling_is_refused_where_all_cells_are_in_use(rt: HostRuntime) {
    let alloc = rt.alloc();
    let mut handle = opened(&rt, alloc);
    check_filling(&rt, alloc, &mut handle);
    close(&rt, alloc, handle);
}

fn check_without_manager(rt: &impl Abort, alloc: Global, handle: &mut Handle) {
    let returned = make(
        alloc,
        handle,
        Export::Flush,
        &mut [],
        &mut [7; MAX_TAG_BYTES],
    );
    expect_returned(rt, returned, nothing(NO_MANAGER));
    let job = null_job(b"packet");
    expect_number(rt, mbj_c_fill(alloc, handle, &job), NO_MANAGER);
    assert!(rt; !mbj_c_free(alloc, handle));
    expect_number(rt, mbj_c_queue_size(alloc, handle), 0);
}

#[test]
fn calls_without_a_manager_are_refused(rt: HostRuntime) {
    let alloc = rt.alloc();
    let mut handle = Handle::empty(alloc);
    check_without_manager(&rt, alloc, &mut handle);
    expect_number(&rt, mbj_c_new(alloc, &mut handle), 0);
    expect_number(&rt, mbj_c_new(alloc, &mut handle), HAS_MANAGER);
    close(&rt, alloc, handle);
}

/// Filling is refused at each of these codes, of a cipher, a direction, an order and an authentication.
fn check_codes(rt: &impl Abort, alloc: Global, handle: &mut Handle, codes: [u32; 4]) {
    let null = null_job(b"packet");
    let mut job = null;
    job.cipher = codes[0];
    expect_number(rt, mbj_c_fill(alloc, handle, &job), WORD);
    job = null;
    job.dir = codes[1];
    expect_number(rt, mbj_c_fill(alloc, handle, &job), WORD);
    job = null;
    job.order = codes[2];
    expect_number(rt, mbj_c_fill(alloc, handle, &job), WORD);
    job = null;
    job.auth = codes[3];
    expect_number(rt, mbj_c_fill(alloc, handle, &job), WORD);
}

/// A submission without a job is refused, and so is the filling of a job with a code that is none.
fn check_without_job(rt: &impl Abort, alloc: Global, handle: &mut Handle) {
    let returned = make(
        alloc,
        handle,
        Export::Submit,
        &mut [],
        &mut [7; MAX_TAG_BYTES],
    );
    expect_returned(rt, returned, nothing(NO_JOB));
    check_codes(rt, alloc, handle, [5, 2, 2, 21]);
    check_codes(rt, alloc, handle, [255; 4]);
    check_codes(rt, alloc, handle, [u32::MAX; 4]);
}

#[test]
fn filling_is_refused_where_a_code_is_none(rt: HostRuntime) {
    let alloc = rt.alloc();
    let mut handle = opened(&rt, alloc);
    check_without_job(&rt, alloc, &mut handle);
    close(&rt, alloc, handle);
}

/// A submission is refused if the room for the range or the tag is a byte short, and nothing is written.
fn check_without_room(
    rt: &impl Abort,
    alloc: Global,
    handle: &mut Handle,
    dst: &mut [u8],
    tag: &mut [u8],
) {
    let (mut short_dst, mut short_tag) = ([7; 15], [7; MAX_TAG_BYTES - 1]);
    let returned = make(alloc, handle, Export::Submit, &mut short_dst, tag);
    expect_returned(rt, returned, nothing(NO_ROOM));
    let returned = make(alloc, handle, Export::Submit, dst, &mut short_tag);
    expect_returned(rt, returned, nothing(NO_ROOM));
    expect_bytes(rt, dst, &[7; 16]);
}

/// The job is given back by a submission or a flush, and nothing is left then.
fn check_given_once(
    rt: &impl Abort,
    alloc: Global,
    handle: &mut Handle,
    dst: &mut [u8],
    tag: &mut [u8],
) {
    let returned = submit_or_flush(alloc, handle, dst, tag);
    expect_returned(rt, returned, given(16, 0, 0));
    expect_bytes(rt, dst, &CBC_CIPHERTEXT);
    let returned = make(alloc, handle, Export::Completed, dst, tag);
    expect_returned(rt, returned, nothing(0));
    let returned = make(alloc, handle, Export::Flush, dst, tag);
    expect_returned(rt, returned, nothing(0));
}

fn check_refusals(rt: &impl Abort, alloc: Global, handle: &mut Handle) {
    let (mut dst, mut tag) = ([7; 16], [7; MAX_TAG_BYTES]);
    let mut packet = [0; 40];
    packet[24..].copy_from_slice(&CBC_TEXT);
    let job = cbc_job(&packet, 24);
    expect_number(rt, mbj_c_fill(alloc, handle, &job), 0);
    check_without_room(rt, alloc, handle, &mut dst, &mut tag);
    check_given_once(rt, alloc, handle, &mut dst, &mut tag);
}

#[test]
fn refused_calls_change_nothing(rt: HostRuntime) {
    let alloc = rt.alloc();
    let mut handle = opened(&rt, alloc);
    check_refusals(&rt, alloc, &mut handle);
    close(&rt, alloc, handle);
}
