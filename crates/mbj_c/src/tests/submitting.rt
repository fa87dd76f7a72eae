use super::*;
use mbj_ring::CELLS;

/// The codes of refusals, as they are returned to C.
const FULL: u32 = 21;

const WORD: u32 = 22;

const NO_MANAGER: u32 = 24;

const NO_JOB: u32 = 25;

const NO_ROOM: u32 = 26;

/// Fills and submits the job by one call, with room for a result, whose numbers are 99 before it.
fn submit_job(
    alloc: Global,
    handle: &mut Handle,
    job: &RawJob<'_>,
    dst: &mut [u8],
    tag: &mut [u8],
) -> Returned {
    let mut out = RawDone {
        dst,
        tag,
        dst_len: 99,
        tag_len: 99,
        status: 99,
        reason: 99,
    };
    let mut refusal = 99;
    let given = mbj_c_submit_job(alloc, handle, job, &mut out, &mut refusal);
    Returned {
        given,
        dst_len: out.dst_len,
        tag_len: out.tag_len,
        reason: out.reason,
        refusal,
    }
}

fn expect_nothing(
    rt: &impl Abort,
    alloc: Global,
    handle: &mut Handle,
    job: &RawJob<'_>,
    refusal: u32,
) {
    let returned = submit_job(alloc, handle, job, &mut [7; 16], &mut [7; MAX_TAG_BYTES]);
    expect_returned(rt, returned, nothing(refusal));
}

/// One job waits for lanes, and the job behind it too: a flush gives the first one's result, and then the second one's.
fn check_results(rt: &impl Abort, alloc: Global, handle: &mut Handle) {
    expect_nothing(rt, alloc, handle, &mac_job(b"Hi There"), 0);
    expect_nothing(rt, alloc, handle, &cbc_job(&CBC_TEXT, 0), 0);
    let (mut dst, mut tag) = ([7; 16], [7; MAX_TAG_BYTES]);
    let returned = make(alloc, handle, Export::Flush, &mut dst, &mut tag);
    expect_returned(rt, returned, given(0, 20, 0));
    expect_bytes(rt, &tag[..20], &MAC);
    let returned = make(alloc, handle, Export::Flush, &mut dst, &mut tag);
    expect_returned(rt, returned, given(16, 0, 0));
    expect_bytes(rt, &dst, &CBC_CIPHERTEXT);
}

/// A job that is done at once is given back by the call that submits it, and one that the table refuses too: CTR takes no range of 0
/// bytes, for reason 6.
fn check_given(rt: &impl Abort, alloc: Global, handle: &mut Handle) {
    let mut tag = [7; MAX_TAG_BYTES];
    let null = null_job(b"packet");
    let returned = submit_job(alloc, handle, &null, &mut [], &mut tag);
    expect_returned(rt, returned, given(0, 0, 0));
    let mut job = cbc_job(b"packet", 0);
    job.cipher = CTR;
    job.cipher_len = 0;
    let returned = submit_job(alloc, handle, &job, &mut [], &mut tag);
    expect_returned(rt, returned, given(0, 0, 6));
}

#[test]
fn one_call_fills_submits_and_gives_back(rt: HostRuntime) {
    let alloc = rt.alloc();
    let mut handle = opened(&rt, alloc);
    check_results(&rt, alloc, &mut handle);
    check_given(&rt, alloc, &mut handle);
    close(&rt, alloc, handle);
}

/// Refused for a code that is none, and then because all cells are in use. Neither call fills a job.
fn check_unfilled(rt: &impl Abort, alloc: Global, handle: &mut Handle) {
    let waiting = mac_job(b"Hi There");
    let mut unknown = waiting;
    unknown.cipher = 5;
    expect_nothing(rt, alloc, handle, &unknown, WORD);
    expect_nothing(rt, alloc, handle, &waiting, 0);
    let null = null_job(b"packet");
    for _ in 1..CELLS {
        expect_nothing(rt, alloc, handle, &null, 0);
    }
    expect_nothing(rt, alloc, handle, &null, FULL);
    let returned = make(
        alloc,
        handle,
        Export::Submit,
        &mut [],
        &mut [7; MAX_TAG_BYTES],
    );
    expect_returned(rt, returned, nothing(NO_JOB));
    expect_number(rt, mbj_c_queue_size(alloc, handle), CELLS);
}

#[test]
fn one_call_is_refused_as_filling_is(rt: HostRuntime) {
    let alloc = rt.alloc();
    let mut handle = Handle::empty(alloc);
    expect_nothing(&rt, alloc, &mut handle, &null_job(b"packet"), NO_MANAGER);
    expect_number(&rt, mbj_c_new(alloc, &mut handle), 0);
    check_unfilled(&rt, alloc, &mut handle);
    close(&rt, alloc, handle);
}

/// The call takes the place of a job that was filled before. If it lacks room the job stays filled, and the next submission takes it.
fn check_filled(rt: &impl Abort, alloc: Global, handle: &mut Handle) {
    let job = cbc_job(&CBC_TEXT, 0);
    let (mut dst, mut tag) = ([7; 16], [7; MAX_TAG_BYTES]);
    expect_number(rt, mbj_c_fill(alloc, handle, &mac_job(b"Hi There")), 0);
    let returned = submit_job(alloc, handle, &job, &mut [7; 15], &mut tag);
    expect_returned(rt, returned, nothing(NO_ROOM));
    let returned = submit_job(alloc, handle, &job, &mut dst, &mut [7; MAX_TAG_BYTES - 1]);
    expect_returned(rt, returned, nothing(NO_ROOM));
    expect_number(rt, mbj_c_queue_size(alloc, handle), 0);
    let returned = submit_or_flush(alloc, handle, &mut dst, &mut tag);
    expect_returned(rt, returned, given(16, 0, 0));
    expect_bytes(rt, &dst, &CBC_CIPHERTEXT);
    let returned = make(alloc, handle, Export::Flush, &mut dst, &mut tag);
    expect_returned(rt, returned, nothing(0));
}

#[test]
fn one_call_without_room_leaves_its_job_filled(rt: HostRuntime) {
    let alloc = rt.alloc();
    let mut handle = opened(&rt, alloc);
    check_filled(&rt, alloc, &mut handle);
    close(&rt, alloc, handle);
}
