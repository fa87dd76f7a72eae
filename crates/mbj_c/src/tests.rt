//! What the tests share: vectors of the standards, jobs, and calls whose results are compared.

mod bursts;
mod direct;
mod keys;
mod refusals;
mod results;
mod stored;
mod submitting;
mod verified;

use super::*;
use mbj_direct::{GcmState, GmacState};
use mbj_types::MAX_TAG_BYTES;
use std::alloc::Global;
use std::process::Abort;

/// The numbers of ciphers and authentications, as C gives them.
const CBC: u32 = 1;

const CTR: u32 = 2;

const HMAC_SHA1: u32 = 1;

const HMAC_SHA512: u32 = 5;

const NOTHING: [u8; 0] = [];

/// RFC 2202, section 3, test case 1: the key, and the tag of "Hi There".
const MAC_KEY: [u8; 20] = [0x0b; 20];

const MAC: [u8; 20] = [
    0xb6, 0x17, 0x31, 0x86, 0x55, 0x05, 0x72, 0x64, 0xe2, 0x8b, 0xc0, 0xb6, 0xfb, 0x37, 0x8c, 0x8e,
    0xf1, 0x46, 0xbe, 0x00,
];

/// SP 800-38A, F.2.1 (CBC-AES128.Encrypt): the key, the IV, and the first block and its ciphertext.
const CBC_KEY: [u8; 16] = [
    0x2b, 0x7e, 0x15, 0x16, 0x28, 0xae, 0xd2, 0xa6, 0xab, 0xf7, 0x15, 0x88, 0x09, 0xcf, 0x4f, 0x3c,
];

const CBC_IV: [u8; 16] = [0, 1, 2, 3, 4, 5, 6, 7, 8, 9, 10, 11, 12, 13, 14, 15];

const CBC_TEXT: [u8; 16] = [
    0x6b, 0xc1, 0xbe, 0xe2, 0x2e, 0x40, 0x9f, 0x96, 0xe9, 0x3d, 0x7e, 0x11, 0x73, 0x93, 0x17, 0x2a,
];

const CBC_CIPHERTEXT: [u8; 16] = [
    0x76, 0x49, 0xab, 0xac, 0x81, 0x19, 0xb2, 0x46, 0xce, 0xe9, 0x8e, 0x9b, 0x12, 0xe9, 0x19, 0x7d,
];

/// A job that does nothing with this packet.
fn null_job(packet: &[u8]) -> RawJob<'_> {
    RawJob {
        cipher: 0,
        dir: 0,
        order: 0,
        auth: 0,
        key: &NOTHING,
        iv: &NOTHING,
        auth_key: &NOTHING,
        aad: &NOTHING,
        packet,
        cipher_off: 0,
        cipher_len: 0,
        hash_off: 0,
        hash_len: 0,
        tag_len: 0,
        session: u32::MAX,
    }
}

/// A job that enciphers 16 bytes of the packet, from `off` on.
fn cbc_job(packet: &[u8], off: u64) -> RawJob<'_> {
    let mut job = null_job(packet);
    job.cipher = CBC;
    job.key = &CBC_KEY;
    job.iv = &CBC_IV;
    job.cipher_off = off;
    job.cipher_len = 16;
    job
}

/// A job that authenticates 8 bytes of the packet.
fn mac_job(packet: &[u8]) -> RawJob<'_> {
    let mut job = null_job(packet);
    job.auth = HMAC_SHA1;
    job.auth_key = &MAC_KEY;
    job.hash_len = 8;
    job.tag_len = 20;
    job
}

/// What a call returned: whether it gave a result, the lengths, the reason, and the code of a refusal.
#[derive(Clone, Copy, Debug, PartialEq)]
struct Returned {
    given: bool,
    dst_len: usize,
    tag_len: u32,
    reason: u32,
    refusal: u32,
}

/// A call that gave nothing, and for what refusal.
fn nothing(refusal: u32) -> Returned {
    Returned {
        given: false,
        dst_len: 99,
        tag_len: 99,
        reason: 99,
        refusal,
    }
}

/// A call that gave a result, and what it returned of it.
fn given(dst_len: usize, tag_len: u32, reason: u32) -> Returned {
    Returned {
        given: true,
        dst_len,
        tag_len,
        reason,
        refusal: 0,
    }
}

/// The calls under test.
enum Export {
    Submit,
    Completed,
    Flush,
}

/// Makes the call with room for a result, whose numbers are 99 before it.
fn make(
    alloc: Global,
    handle: &mut Handle,
    export: Export,
    dst: &mut [u8],
    tag: &mut [u8],
) -> Returned {
    let mut out = RawDone {
        dst,
        tag,
        dst_len: 99,
        tag_len: 99,
        status: 99,
        reason: 99,
    };
    let mut refusal = 99;
    let given = match export {
        Export::Submit => mbj_c_submit(alloc, handle, &mut out, &mut refusal),
        Export::Completed => mbj_c_get_completed(alloc, handle, &mut out, &mut refusal),
        Export::Flush => mbj_c_flush(alloc, handle, &mut out, &mut refusal),
    };
    Returned {
        given,
        dst_len: out.dst_len,
        tag_len: out.tag_len,
        reason: out.reason,
        refusal,
    }
}

/// Submits what is filled, and flushes if that gives nothing.
fn submit_or_flush(alloc: Global, handle: &mut Handle, dst: &mut [u8], tag: &mut [u8]) -> Returned {
    let returned = make(alloc, handle, Export::Submit, dst, tag);
    if returned.given {
        return returned;
    }
    make(alloc, handle, Export::Flush, dst, tag)
}

fn expect_number(rt: &impl Abort, number: u32, expected: u32) {
    assert_eq!(rt; number, expected);
}

fn expect_returned(rt: &impl Abort, returned: Returned, expected: Returned) {
    assert_eq!(rt; returned, expected);
}

fn expect_bytes(rt: &impl Abort, bytes: &[u8], expected: &[u8]) {
    assert_eq!(rt; bytes, expected);
}

/// A handle with a manager.
fn opened(rt: &impl Abort, alloc: Global) -> Handle {
    let mut handle = Handle::empty(alloc);
    expect_number(rt, mbj_c_new(alloc, &mut handle), 0);
    handle
}

/// Frees the manager that there is, and lets the empty handle go.
fn close(rt: &impl Abort, alloc: Global, mut handle: Handle) {
    assert!(rt; mbj_c_free(alloc, &mut handle));
    assert!(rt; handle.into_manager().is_none());
}
