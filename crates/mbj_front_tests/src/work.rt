ghost use Rattle.std.specs.Prelude.{◌≡◌, ◌≤◌, IfOk, length};
ghost use Rattle.mbj_core.specs.declared.cells.TheConstants.{MAX_WORKERS};

use mbj_keys::Keys;
use mbj_types::{Auth, Bytes, Done, Job, Reason, Status};
use mbj_work::{Gate, Moment, OpenGate, run_private, run_shared};
use std::alloc::{AllocError, Global};
use std::sync::Wait;
use std::test::Fail;
use std::thread::Threads;

/// RFC 2202, section 3, test case 1: the tag of "Hi There" under a key of 20 bytes 0b.
pub(crate) const HI_THERE: &[u8; 20] =
    b"\xb6\x17\x31\x86\x55\x05\x72\x64\xe2\x8b\xc0\xb6\xfb\x37\x8c\x8e\xf1\x46\xbe\x00";

/// Test case 2: the tag of "what do ya want for nothing?" under the key "Jefe".
const JEFE: &[u8; 20] =
    b"\xef\xfc\xdf\x6a\xe5\xeb\x2f\xa2\xd2\x74\x16\xd5\xf1\x84\xdf\x9c\x25\x9a\x7c\x79";

/// A key, a packet and the length of a tag.
type Request<'a> = (&'a [u8], &'a [u8], u8);

fn fill(alloc: Global, job: &mut Job, request: Request) -> Result<(), AllocError> {
    let (key, packet, tag_len) = request;
    job.auth = Auth::HmacSha1;
    job.auth_key = Bytes::from_slice(alloc, key)?;
    job.packet = Bytes::from_slice(alloc, packet)?;
    job.hash_len = packet.len().min(100) as u32;
    job.tag_len = tag_len;
    Ok(())
}

/// A job with HMAC-SHA-1 over a whole packet.
pub(crate) fn hmac_sha1(alloc: Global, request: Request) -> Result<Job, AllocError> {
    let mut job = Job::blank(alloc);
    fill(alloc, &mut job, request)?;
    Ok(job)
}

/// Three jobs, the second of which is refused.
const THREE_JOBS: [Request; 3] = [
    (b"Jefe", b"what do ya want for nothing?", 20),
    (b"Jefe", b"", 21),
    (&[0x0b; 20], b"Hi There", 20),
];

fn jobs_of(alloc: Global, requests: &[Request]) -> Result<Vec<Job>, AllocError> {
    let mut jobs = Vec::new(alloc);
    for request in requests {
        jobs.push(hmac_sha1(alloc, *request)?)?;
    }
    Ok(jobs)
}

/// A submitter with the three jobs, and one with the last of them.
fn two_lists(alloc: Global) -> Result<Vec<Vec<Job>>, AllocError>
    ensures { IfOk result (λ lists. length lists.items ≡ 2) }
{
    let mut lists = Vec::with_capacity(alloc, 2)?;
    lists.push_reserved(jobs_of(alloc, &THREE_JOBS)?);
    lists.push_reserved(jobs_of(alloc, &THREE_JOBS[2..])?);
    Ok(lists)
}

fn has_tag(done: &Done, tag: &[u8; 20]) -> bool {
    done.status == Status::Ok && done.tag.bytes() == tag.as_slice()
}

/// Whether these are the results of the two lists.
fn are_results_of_two_lists(results: &[Vec<Done>]) -> bool {
    let [three, one] = results else {
        return false;
    };
    let ([first, second, third], [only]) = (three.as_slice(), one.as_slice()) else {
        return false;
    };
    has_tag(first, JEFE)
        && second.status == Status::InvalidArgs(Reason::TagLength)
        && has_tag(third, HI_THERE)
        && has_tag(only, HI_THERE)
}

/// Whether the two lists get their results if each has a manager of its own.
fn are_done_apart<R: Threads + Sync>(rt: &R, alloc: Global) -> Result<bool, AllocError> {
    let results = run_private(rt, alloc, two_lists(alloc)?)?;
    Ok(are_results_of_two_lists(&results))
}

/// Whether they get them over a front with this many workers.
fn are_done_over_a_front<R: Threads + Wait + Sync>(
    rt: &R,
    alloc: Global,
    workers: u32,
) -> Result<bool, AllocError>
    requires { workers ≤ MAX_WORKERS }
{
    let keys = Keys::new(alloc, Vec::new(alloc))?;
    let results = run_shared(rt, alloc, &keys, two_lists(alloc)?, workers, &OpenGate)?;
    Ok(are_results_of_two_lists(&results))
}

#[test]
fn each_list_gets_its_results_in_order(rt: HostRuntime) -> Result<(), Fail> {
    assert!(rt; are_done_apart(&rt, rt.alloc())?);
    for workers in [0, 2] {
        assert!(rt; are_done_over_a_front(&rt, rt.alloc(), workers)?);
    }
    Ok(())
}

#[test]
fn the_open_gate_holds_nobody_up(rt: HostRuntime) {
    OpenGate.pass(0, Moment::Posted);
    assert!(rt; OpenGate.may_help(0));
}
