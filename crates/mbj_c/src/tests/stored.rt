use super::*;

/// The code of SHA-1, and one that is no hash's.
const SHA1: u32 = 0;

const NO_HASH: u32 = 5;

/// The codes of refusals, as they are returned to C.
const WORD: u32 = 22;

const NO_ROOM: u32 = 26;

const TEXT_LENGTH: u32 = 11;

/// The states of the key "Jefe" with SHA-1, as OpenSSL's SHA_CTX holds them behind its two padded blocks, and the byte of the room behind them.
const JEFE_STATES: [u8; 41] = [
    0x62, 0x4d, 0x8e, 0xa7, 0x3f, 0x2b, 0x18, 0x03, 0x95, 0x54, 0xb9, 0xe4, 0x28, 0xc0, 0x65, 0xf5,
    0xa9, 0xfc, 0xb9, 0x8e, 0x20, 0x88, 0x37, 0x2a, 0xf5, 0x06, 0x10, 0xa1, 0xf8, 0x2f, 0x8b, 0x05,
    0x8e, 0x4b, 0xfe, 0x32, 0x28, 0x0b, 0x4e, 0x35, 0xee,
];

// Room behind the states stays as it was.
#[test]
fn states_go_to_the_front_of_their_room(rt: HostRuntime) {
    let mut out = [0xee; 41];
    expect_number(&rt, mbj_hmac_states(SHA1, b"Jefe", &mut out), 0);
    expect_bytes(&rt, &out, &JEFE_STATES);
}

/// A refused call writes nothing.
fn expect_refused(rt: &impl Abort, answer: u32, out: &[u8; 20], refusal: u32) {
    expect_number(rt, answer, refusal);
    expect_bytes(rt, out, &[0xee; 20]);
}

#[test]
fn calls_without_a_manager_are_refused(rt: HostRuntime) {
    let mut out = [0xee; 20];
    let answer = mbj_hmac_states(NO_HASH, b"Jefe", &mut out);
    expect_refused(&rt, answer, &out, WORD);
    let answer = mbj_hmac_states(SHA1, b"Jefe", &mut out);
    expect_refused(&rt, answer, &out, NO_ROOM);
    let answer = mbj_one_block(NO_HASH, &[0x36; 64], &mut out);
    expect_refused(&rt, answer, &out, WORD);
    let answer = mbj_one_block(SHA1, &[0x36; 63], &mut out);
    expect_refused(&rt, answer, &out, TEXT_LENGTH);
    let answer = mbj_one_block(SHA1, &[0x36; 64], &mut out[..19]);
    expect_refused(&rt, answer, &out, NO_ROOM);
}
