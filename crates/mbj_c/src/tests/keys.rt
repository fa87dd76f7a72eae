//! Sets of key sessions, their handles, and managers that use them.
use super::*;

/// FIPS 197, A.2 and A.3.
const KEY_192: [u8; 24] = [
    0x8e, 0x73, 0xb0, 0xf7, 0xda, 0x0e, 0x64, 0x52, 0xc8, 0x10, 0xf3, 0x2b, 0x80, 0x90, 0x79, 0xe5,
    0x62, 0xf8, 0xea, 0xd2, 0x52, 0x2c, 0x6b, 0x7b,
];

const KEY_256: [u8; 32] = [
    0x60, 0x3d, 0xeb, 0x10, 0x15, 0xca, 0x71, 0xbe, 0x2b, 0x73, 0xae, 0xf0, 0x85, 0x7d, 0x77, 0x81,
    0x1f, 0x35, 0x2c, 0x07, 0x3b, 0x61, 0x08, 0xd7, 0x2d, 0x98, 0x10, 0xa3, 0x09, 0x14, 0xdf, 0xf4,
];

/// The codes of refusals that calls of key sessions have of their own, and two that they share.
const NO_MANAGER: u32 = 24;

const KEY_LENGTH: u32 = 12;

const HAS_KEYS: u32 = 17;

const NO_KEYS: u32 = 18;

const TOO_MANY_KEYS: u32 = 19;

fn bytes(bytes: &[u8]) -> RawBytes<'_> {
    RawBytes { bytes }
}

/// A handle with a set of the three keys.
fn three_keys(rt: &impl Abort, alloc: Global) -> KeysHandle {
    let mut handle = KeysHandle::empty(alloc);
    let keys = [bytes(&CBC_KEY), bytes(&KEY_192), bytes(&KEY_256)];
    expect_number(rt, mbj_keys_new(alloc, &mut handle, &keys), 0);
    handle
}

/// Frees the set that there is, and lets the empty handle go.
fn close_keys(rt: &impl Abort, alloc: Global, mut handle: KeysHandle) {
    assert!(rt; mbj_keys_free(alloc, &mut handle));
    assert!(rt; !mbj_keys_free(alloc, &mut handle));
    assert!(rt; handle.into_set().is_none());
}

/// Keys of which no set is made, and the code for that.
fn expect_no_set(rt: &impl Abort, alloc: Global, keys: &[RawBytes<'_>], refusal: u32) {
    let mut handle = KeysHandle::empty(alloc);
    expect_number(rt, mbj_keys_new(alloc, &mut handle, keys), refusal);
    assert!(rt; handle.into_set().is_none());
}

#[test]
fn a_set_is_made_of_keys_of_aes(rt: HostRuntime) {
    let alloc = rt.alloc();
    let key = bytes(&CBC_KEY);
    expect_no_set(&rt, alloc, &[bytes(&NOTHING)], KEY_LENGTH);
    expect_no_set(&rt, alloc, &[key, bytes(&KEY_256[..31])], KEY_LENGTH);
    expect_no_set(&rt, alloc, &[bytes(&CBC_KEY[..15]), key], KEY_LENGTH);
    expect_no_set(&rt, alloc, &[key; 257], TOO_MANY_KEYS);
    expect_no_set(&rt, alloc, &[bytes(&NOTHING); 257], TOO_MANY_KEYS);
    let mut handle = KeysHandle::empty(alloc);
    expect_number(&rt, mbj_keys_new(alloc, &mut handle, &[key; 256]), 0);
    expect_number(&rt, mbj_keys_new(alloc, &mut handle, &[key]), HAS_KEYS);
    expect_number(&rt, mbj_keys_new(alloc, &mut handle, &[key; 257]), HAS_KEYS);
    close_keys(&rt, alloc, handle);
}

#[test]
fn two_handles_share_a_set(rt: HostRuntime) {
    let alloc = rt.alloc();
    let (mut one, mut other) = (three_keys(&rt, alloc), KeysHandle::empty(alloc));
    expect_number(&rt, mbj_keys_share(alloc, &mut other, &mut one), NO_KEYS);
    expect_number(&rt, mbj_keys_share(alloc, &mut one, &mut other), 0);
    expect_number(&rt, mbj_keys_share(alloc, &mut one, &mut other), HAS_KEYS);
    close_keys(&rt, alloc, one);
    close_keys(&rt, alloc, other);
}

#[test]
fn a_manager_uses_a_set_that_there_is(rt: HostRuntime) {
    let alloc = rt.alloc();
    let (mut keys, mut no_keys) = (three_keys(&rt, alloc), KeysHandle::empty(alloc));
    let (mut manager, mut no_manager) = (opened(&rt, alloc), Handle::empty(alloc));
    expect_number(
        &rt,
        mbj_c_use_keys(alloc, &mut no_manager, &mut no_keys),
        NO_MANAGER,
    );
    expect_number(
        &rt,
        mbj_c_use_keys(alloc, &mut no_manager, &mut keys),
        NO_MANAGER,
    );
    expect_number(
        &rt,
        mbj_c_use_keys(alloc, &mut manager, &mut no_keys),
        NO_KEYS,
    );
    expect_number(&rt, mbj_c_use_keys(alloc, &mut manager, &mut keys), 0);
    expect_number(&rt, mbj_c_use_keys(alloc, &mut manager, &mut keys), 0);
    close_keys(&rt, alloc, keys);
    close(&rt, alloc, manager);
    assert!(rt; no_keys.into_set().is_none());
    assert!(rt; no_manager.into_manager().is_none());
}

/// Does the job of SP 800-38A, F.2.1, with this session beside its key.
fn expect_ciphertext(rt: &impl Abort, alloc: Global, manager: &mut Handle, session: u32) {
    let mut job = cbc_job(&CBC_TEXT, 0);
    job.session = session;
    expect_number(rt, mbj_c_fill(alloc, manager, &job), 0);
    let (mut dst, mut tag) = ([0; 16], [0; MAX_TAG_BYTES]);
    expect_returned(
        rt,
        submit_or_flush(alloc, manager, &mut dst, &mut tag),
        given(16, 0, 0),
    );
    expect_bytes(rt, &dst, &CBC_CIPHERTEXT);
}

#[test]
fn a_jobs_own_key_decides(rt: HostRuntime) {
    let alloc = rt.alloc();
    let (mut keys, mut manager) = (three_keys(&rt, alloc), opened(&rt, alloc));
    expect_ciphertext(&rt, alloc, &mut manager, 0);
    expect_number(&rt, mbj_c_use_keys(alloc, &mut manager, &mut keys), 0);
    close_keys(&rt, alloc, keys);
    // the session with the key, one with another key, numbers of no session, and none
    for session in [0, 1, 3, 256, u32::MAX - 1, u32::MAX] {
        expect_ciphertext(&rt, alloc, &mut manager, session);
    }
    close(&rt, alloc, manager);
}
