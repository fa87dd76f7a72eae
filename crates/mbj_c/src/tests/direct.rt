use super::*;

/// The code of the direction that seals, and of one that is none.
const SEAL: u32 = 0;

const SHA1: u32 = 0;

const NO_HASH: u32 = 5;

const NO_DIR: u32 = 2;

/// The codes of refusals, as they are returned to C.
const WORD: u32 = 22;

const NO_ROOM: u32 = 26;

const KEY_LENGTH: u32 = 12;

const IV_LENGTH: u32 = 13;

const TAG_LENGTH: u32 = 14;

const AAD_LENGTH: u32 = 15;

const NO_STATE: u32 = 16;

/// RFC 4493, 4: the subkeys of `CBC_KEY`.
const SUBKEYS: [[u8; 16]; 2] = [
    [
        0xfb, 0xee, 0xd6, 0x18, 0x35, 0x71, 0x33, 0x66, 0x7c, 0x85, 0xe0, 0x8f, 0x72, 0x36, 0xa8,
        0xde,
    ],
    [
        0xf7, 0xdd, 0xac, 0x30, 0x6a, 0xe2, 0x66, 0xcc, 0xf9, 0x0b, 0xc1, 0x1e, 0xe4, 0x6d, 0x51,
        0x3b,
    ],
];

#[test]
fn subkeys_go_to_the_fronts_of_their_rooms(rt: HostRuntime) {
    let (mut first, mut second) = ([0xee; 16], [0xee; 16]);
    let code = mbj_cmac_subkeys(&CBC_KEY[..15], &mut first, &mut second);
    expect_number(&rt, code, KEY_LENGTH);
    let code = mbj_cmac_subkeys(&CBC_KEY, &mut first, &mut second[..15]);
    expect_number(&rt, code, NO_ROOM);
    expect_bytes(&rt, &first, &[0xee; 16]);
    let code = mbj_cmac_subkeys(&CBC_KEY, &mut first, &mut second);
    expect_number(&rt, code, 0);
    expect_bytes(&rt, &first, &SUBKEYS[0]);
    expect_bytes(&rt, &second, &SUBKEYS[1]);
}

/// Test case 2 of the GCM specification (McGrew and Viega, appendix B): a block of zeros under the zero key.
pub(super) const ZEROS_SEALED: [u8; 16] = [
    0x03, 0x88, 0xda, 0xce, 0x60, 0xb6, 0xa3, 0x92, 0xf3, 0x28, 0xc2, 0xb9, 0x71, 0xb2, 0xfe, 0x78,
];

pub(super) const ZEROS_TAG: [u8; 16] = [
    0xab, 0x6e, 0x47, 0xd4, 0x2c, 0xec, 0x13, 0xbd, 0xf5, 0x3a, 0x67, 0xb2, 0x12, 0x57, 0xbd, 0xdf,
];

#[test]
fn a_text_is_sealed_and_opened(rt: HostRuntime) {
    let (mut text, mut tag) = ([0; 16], [0; 16]);
    expect_number(
        &rt,
        mbj_gcm_seal(&[0; 16], &[0; 12], &NOTHING, &mut text, &mut tag),
        0,
    );
    expect_bytes(&rt, &text, &ZEROS_SEALED);
    expect_bytes(&rt, &tag, &ZEROS_TAG);
    let mut front = [0xee; 4];
    let found = mbj_gcm_decrypt_unverified(&[0; 16], &[0; 12], &NOTHING, &mut text, &mut front);
    expect_number(&rt, found, 0);
    expect_bytes(&rt, &text, &[0; 16]);
    expect_bytes(&rt, &front, &ZEROS_TAG[..4]);
}

#[test]
fn a_text_is_sealed_in_parts(rt: HostRuntime) {
    let (mut first, mut second, mut tag) = ([0; 5], [0; 11], [0; 16]);
    let mut state = GcmState::blank();
    let begun = mbj_gcm_init(&mut state, SEAL, &[0; 16], &[0; 12], &NOTHING);
    expect_number(&rt, begun, 0);
    expect_number(&rt, mbj_gcm_update(&mut state, &mut first), 0);
    expect_number(&rt, mbj_gcm_update(&mut state, &mut second), 0);
    expect_number(&rt, mbj_gcm_finish(&mut state, &mut tag), 0);
    expect_bytes(&rt, &first, &ZEROS_SEALED[..5]);
    expect_bytes(&rt, &second, &ZEROS_SEALED[5..]);
    expect_bytes(&rt, &tag, &ZEROS_TAG);
    expect_number(&rt, mbj_gcm_update(&mut state, &mut first), NO_STATE);
}

#[test]
fn texts_of_gcm_are_refused(rt: HostRuntime) {
    let (mut text, mut tag) = ([7; 3], [0xee; 17]);
    let mut state = GcmState::blank();
    let code = mbj_gcm_seal(&[0; 15], &[0; 12], &NOTHING, &mut text, &mut tag);
    expect_number(&rt, code, KEY_LENGTH);
    let code = mbj_gcm_open(&[0; 16], &NOTHING, &NOTHING, &mut text, &tag);
    expect_number(&rt, code, IV_LENGTH);
    let code = mbj_gcm_seal(&[0; 16], &[0; 12], &NOTHING, &mut text, &mut tag);
    expect_number(&rt, code, TAG_LENGTH);
    let code = mbj_gcm_init(&mut state, NO_DIR, &[0; 16], &[0; 12], &NOTHING);
    expect_number(&rt, code, WORD);
    expect_number(&rt, mbj_gcm_finish(&mut state, &mut tag), NO_STATE);
    expect_bytes(&rt, &text, &[7; 3]);
    expect_bytes(&rt, &tag, &[0xee; 17]);
}

/// FIPS 197, appendix A.1: round key 10 of `CBC_KEY`.
const LAST_ROUND_KEY: [u8; 16] = [
    0xd0, 0x14, 0xf9, 0xa8, 0xc9, 0xee, 0x25, 0x89, 0xe1, 0x3f, 0x0c, 0xc8, 0xb6, 0x63, 0x0c, 0xa6,
];

#[test]
fn schedules_go_to_the_fronts_of_their_rooms(rt: HostRuntime) {
    let (mut enc, mut dec) = ([0xee; 177], [0xee; 177]);
    let refused = mbj_aes_keys(&CBC_KEY, &mut enc, &mut dec[..175]);
    expect_number(&rt, refused, NO_ROOM);
    expect_bytes(&rt, &enc, &[0xee; 177]);
    expect_number(&rt, mbj_aes_keys(&CBC_KEY, &mut enc, &mut dec), 0);
    expect_bytes(&rt, &enc[..16], &CBC_KEY);
    expect_bytes(&rt, &enc[160..176], &LAST_ROUND_KEY);
    expect_bytes(&rt, &dec[..16], &LAST_ROUND_KEY);
    expect_bytes(&rt, &dec[160..176], &CBC_KEY);
    expect_bytes(&rt, &[enc[176], dec[176]], &[0xee; 2]);
}

/// FIPS 180-4's example: SHA-1 of "abc".
const DIGEST: [u8; 20] = [
    0xa9, 0x99, 0x3e, 0x36, 0x47, 0x06, 0x81, 0x6a, 0xba, 0x3e, 0x25, 0x71, 0x78, 0x50, 0xc2, 0x6c,
    0x9c, 0xd0, 0xd8, 0x9d,
];

#[test]
fn a_digest_goes_to_the_front_of_its_room(rt: HostRuntime) {
    let mut out = [0xee; 20];
    expect_number(&rt, mbj_digest(NO_HASH, b"abc", &mut out), WORD);
    expect_number(&rt, mbj_digest(SHA1, b"abc", &mut out[..19]), NO_ROOM);
    expect_bytes(&rt, &out, &[0xee; 20]);
    expect_number(&rt, mbj_digest(SHA1, b"abc", &mut out), 0);
    expect_bytes(&rt, &out, &DIGEST);
}

/// SP 800-38C, appendix C, example 1.
pub(super) const CCM_KEY: [u8; 16] = [
    0x40, 0x41, 0x42, 0x43, 0x44, 0x45, 0x46, 0x47, 0x48, 0x49, 0x4a, 0x4b, 0x4c, 0x4d, 0x4e, 0x4f,
];

pub(super) const NONCE: [u8; 7] = [0x10, 0x11, 0x12, 0x13, 0x14, 0x15, 0x16];

pub(super) const AAD: [u8; 8] = [0, 1, 2, 3, 4, 5, 6, 7];

pub(super) const PLAINTEXT: [u8; 4] = [0x20, 0x21, 0x22, 0x23];

pub(super) const CIPHERTEXT: [u8; 4] = [0x71, 0x62, 0x01, 0x5b];

pub(super) const CCM_TAG: [u8; 4] = [0x4d, 0xac, 0x25, 0x5d];

#[test]
fn a_text_is_sealed_and_opened_by_ccm(rt: HostRuntime) {
    let alloc = rt.alloc();
    let (mut text, mut tag) = (PLAINTEXT, [0xee; 4]);
    let sealed = mbj_ccm_seal(alloc, &CCM_KEY, &NONCE, &AAD, &mut text, &mut tag);
    expect_number(&rt, sealed, 0);
    expect_bytes(&rt, &text, &CIPHERTEXT);
    expect_bytes(&rt, &tag, &CCM_TAG);
    let mut again = [0xee; 4];
    let found = mbj_ccm_decrypt_unverified(alloc, &CCM_KEY, &NONCE, &AAD, &mut text, &mut again);
    expect_number(&rt, found, 0);
    expect_bytes(&rt, &text, &PLAINTEXT);
    expect_bytes(&rt, &again, &CCM_TAG);
}

#[test]
fn texts_of_ccm_are_refused(rt: HostRuntime) {
    let alloc = rt.alloc();
    let (mut text, mut tag) = (PLAINTEXT, [0xee; 5]);
    let key = mbj_ccm_seal(alloc, &CCM_KEY[1..], &NONCE, &AAD, &mut text, &mut tag);
    expect_number(&rt, key, KEY_LENGTH);
    let nonce = mbj_ccm_seal(alloc, &CCM_KEY, &NONCE[1..], &AAD, &mut text, &mut tag);
    expect_number(&rt, nonce, IV_LENGTH);
    let aad = mbj_ccm_open(alloc, &CCM_KEY, &NONCE, &[0; 65280], &mut text, &tag);
    expect_number(&rt, aad, AAD_LENGTH);
    let odd = mbj_ccm_open(alloc, &CCM_KEY, &NONCE, &AAD, &mut text, &tag);
    expect_number(&rt, odd, TAG_LENGTH);
    expect_bytes(&rt, &text, &PLAINTEXT);
    expect_bytes(&rt, &tag, &[0xee; 5]);
}
