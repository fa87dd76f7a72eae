use super::direct::{AAD, CCM_KEY, CCM_TAG, CIPHERTEXT, NONCE, PLAINTEXT, ZEROS_SEALED, ZEROS_TAG};
use super::*;

/// The code of a refusal, as it is returned to C.
const WRONG_TAG: u32 = 20;

/// What becomes of the block of test case 2 of the GCM specification if it comes with this tag.
fn expect_block(rt: &impl Abort, tag: &[u8], code: u32) {
    let mut text = ZEROS_SEALED;
    let found = mbj_gcm_open(&[0; 16], &[0; 12], &NOTHING, &mut text, tag);
    expect_number(rt, found, code);
    expect_bytes(rt, &text, &[0; 16]);
}

#[test]
fn a_text_is_opened_by_its_tag_alone(rt: HostRuntime) {
    for len in 1..17 {
        expect_block(&rt, &ZEROS_TAG[..len], 0);
    }
    for at in 0..16 {
        let mut tag = ZEROS_TAG;
        tag[at] ^= 1;
        expect_block(&rt, &tag, WRONG_TAG);
    }
}

/// What becomes of example 1 of SP 800-38C if it comes with this tag.
fn expect_ccm(rt: &impl Abort, alloc: Global, tag: &[u8], code: u32, wanted: &[u8]) {
    let mut text = CIPHERTEXT;
    let found = mbj_ccm_open(alloc, &CCM_KEY, &NONCE, &AAD, &mut text, tag);
    expect_number(rt, found, code);
    expect_bytes(rt, &text, wanted);
}

#[test]
fn a_text_of_ccm_is_opened_by_its_tag_alone(rt: HostRuntime) {
    let alloc = rt.alloc();
    expect_ccm(&rt, alloc, &CCM_TAG, 0, &PLAINTEXT);
    for at in 0..4 {
        let mut tag = CCM_TAG;
        tag[at] ^= 0x80;
        expect_ccm(&rt, alloc, &tag, WRONG_TAG, &[0; 4]);
    }
}

#[test]
fn tags_are_the_same_where_all_bytes_are(rt: HostRuntime) {
    expect_number(&rt, mbj_c_is_same_tag(&NOTHING, &NOTHING), 1);
    expect_number(&rt, mbj_c_is_same_tag(&ZEROS_TAG, &ZEROS_TAG), 1);
    expect_number(&rt, mbj_c_is_same_tag(&ZEROS_TAG, &ZEROS_TAG[..15]), 0);
    for at in 0..16 {
        let mut tag = ZEROS_TAG;
        tag[at] ^= 1;
        expect_number(&rt, mbj_c_is_same_tag(&ZEROS_TAG, &tag), 0);
    }
}

#[test]
fn bytes_are_wiped(rt: HostRuntime) {
    let mut bytes = [7; 5];
    mbj_c_wipe(&mut bytes[1..4]);
    expect_bytes(&rt, &bytes, &[7, 0, 0, 0, 7]);
}

/// Test case 1 of the GCM specification (McGrew and Viega, appendix B): no data, and no text, under the zero key.
const TAG_OF_NOTHING: [u8; 16] = [
    0x58, 0xe2, 0xfc, 0xce, 0xfa, 0x7e, 0x30, 0x61, 0x36, 0x7f, 0x1d, 0x57, 0xa4, 0xe7, 0x45, 0x5a,
];

/// The codes of refusals, as they are returned to C.
const IV_LENGTH: u32 = 13;

const TAG_LENGTH: u32 = 14;

const NO_STATE: u32 = 16;

/// A state that has taken no data.
fn begun_state(rt: &impl Abort) -> GmacState {
    let mut state = GmacState::blank();
    expect_number(rt, mbj_gmac_init(&mut state, &[0; 16], &[0; 12]), 0);
    expect_number(rt, mbj_gmac_update(&mut state, &NOTHING), 0);
    state
}

/// Ends with the first bytes of the tag of no data, 16 at most.
fn expect_end(rt: &impl Abort, state: &mut GmacState, len: usize) {
    let mut tag = [0xee; 16];
    let len = len.min(16);
    expect_number(rt, mbj_gmac_finish(state, &mut tag[..len]), 0);
    expect_bytes(rt, &tag[..len], &TAG_OF_NOTHING[..len]);
}

#[test]
fn gmac_is_made_in_parts(rt: HostRuntime) {
    let mut state = begun_state(&rt);
    let mut copy = state;
    expect_end(&rt, &mut state, 16);
    expect_end(&rt, &mut copy, 4);
    let mut tag = [0xee; 16];
    expect_number(&rt, mbj_gmac_finish(&mut state, &mut tag), NO_STATE);
    expect_bytes(&rt, &tag, &[0xee; 16]);
}

#[test]
fn gmac_refuses_what_is_no_state_iv_or_tag(rt: HostRuntime) {
    let mut state = GmacState::blank();
    expect_number(&rt, mbj_gmac_update(&mut state, &AAD), NO_STATE);
    let code = mbj_gmac_init(&mut state, &[0; 16], &NOTHING);
    expect_number(&rt, code, IV_LENGTH);
    let mut begun = begun_state(&rt);
    let mut tag = [0xee; 17];
    expect_number(&rt, mbj_gmac_finish(&mut begun, &mut tag), TAG_LENGTH);
    expect_bytes(&rt, &tag, &[0xee; 17]);
}
