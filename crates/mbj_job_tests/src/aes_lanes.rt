ghost use Rattle.std.specs.Prelude.{◌≡◌, ◌≤◌, length};
ghost use Rattle.mbj_aes_lanes.specs.KeyLanes.{IsFull};
ghost use Rattle.mbj_aes_lanes.specs.Lanes.{IsScheduleSize};

use crate::compare::expect;
use mbj_aes::{MAX_ROUND_KEYS, Schedule};
use mbj_aes_lanes::{
    LaneKeys, chained, decrypt_lanes, decrypt_same, decrypt32, encrypt_lanes, encrypt_same,
    encrypt32,
};
use mbj_types::{AES_LANES, Lane8};
use std::fmt::Debug;
use std::process::Abort;
use std::simd::{u8x16, u8x32};

/// The keys of FIPS 197, appendix C, are the first 16, 24 and 32 of these bytes.
const COUNTING: [u8; 32] = [
    0x00, 0x01, 0x02, 0x03, 0x04, 0x05, 0x06, 0x07, 0x08, 0x09, 0x0a, 0x0b, 0x0c, 0x0d, 0x0e, 0x0f,
    0x10, 0x11, 0x12, 0x13, 0x14, 0x15, 0x16, 0x17, 0x18, 0x19, 0x1a, 0x1b, 0x1c, 0x1d, 0x1e, 0x1f,
];

/// The plaintext of FIPS 197, appendix C.
const PLAINTEXT: u128 = 0x00112233445566778899aabbccddeeff;

/// PLAINTEXT under the first 16 bytes of COUNTING.
const CIPHERTEXT: u128 = 0x69c4e0d86a7b0430d8cdb78070b4c55a;

/// The zero block under the zero key.
const ZEROS: u128 = 0x66e94bd4ef8a2c3b884cfa59ca342b2e;

/// The block in each place, encrypted by one call and decrypted by another.
fn check_places(
    rt: &impl Abort,
    key: &Schedule,
    places: &mut [[u8; 16]],
    plaintext: u128,
    ciphertext: u128,
)
    requires { length places.old ≤ AES_LANES }
{
    places.fill(plaintext.to_be_bytes());
    encrypt_same(key, places);
    for place in places.iter() {
        expect(rt, "encrypted", *place, ciphertext.to_be_bytes());
    }
    decrypt_same(key, places);
    for place in places.iter() {
        expect(rt, "decrypted", *place, plaintext.to_be_bytes());
    }
}

/// The block in every lane under one schedule, encrypted and decrypted.
fn check_full_lanes(rt: &impl Abort, schedule: &Schedule, plaintext: u128, ciphertext: u128) {
    let mut blocks = [plaintext.to_be_bytes(); AES_LANES];
    encrypt32(&LaneKeys::all(schedule), &mut blocks);
    expect(
        rt,
        "encrypted",
        blocks,
        [ciphertext.to_be_bytes(); AES_LANES],
    );
    decrypt32(&LaneKeys::all(schedule), &mut blocks);
    expect(
        rt,
        "decrypted",
        blocks,
        [plaintext.to_be_bytes(); AES_LANES],
    );
}

/// A block under the key in one to seven places, in every place and in every lane. The place behind them stays.
fn check_key(rt: &impl Abort, key: &[u8], plaintext: u128, ciphertext: u128) {
    assert!(rt; matches!(key.len(), 16 | 24 | 32));
    let schedule = Schedule::expand(key);
    let mut blocks = [[0; 16]; AES_LANES];
    for many in 1..8usize {
        check_places(rt, &schedule, &mut blocks[..many], plaintext, ciphertext);
        expect(rt, "behind", blocks[many], [0; 16]);
    }
    check_places(
        rt,
        &schedule,
        &mut [[0; 16]; AES_LANES],
        plaintext,
        ciphertext,
    );
    check_places(rt, &schedule, &mut [], plaintext, ciphertext);
    check_full_lanes(rt, &schedule, plaintext, ciphertext);
}

#[test]
fn blocks_under_one_key_are_those_of_the_standard(rt: HostRuntime) {
    check_key(&rt, &COUNTING[..16], PLAINTEXT, CIPHERTEXT);
    check_key(
        &rt,
        &COUNTING[..24],
        PLAINTEXT,
        0xdda97ca4864cdfe06eaf70a0ec0d7191,
    );
    check_key(
        &rt,
        &COUNTING,
        PLAINTEXT,
        0x8ea2b7ca516745bfeafc49904b496089,
    );
    check_key(&rt, &[0; 16], 0, ZEROS);
}

/// Lanes, of which the even ones have one key and the odd ones the other.
fn alternating(even: &Schedule, odd: &Schedule) -> LaneKeys
    requires even { length even.now ≡ 176 }
    requires odd { length odd.now ≡ 176 }
    ensures { IsFull result }
{
    let mut keys = LaneKeys::all(odd);
    'lanes: for pair in 0..AES_LANES as u32 / 2 {
        keys.put(2 * pair, even);
    }
    keys
}

/// Each two neighbouring blocks are these two.
fn check_pairs(rt: &impl Abort, blocks: &[[u8; 16]; AES_LANES], wanted: [u128; 2]) {
    let wanted = wanted.map(|block| block.to_be_bytes());
    for pair in blocks.as_chunks::<2>().0 {
        expect(rt, "pair", *pair, wanted);
    }
}

#[test]
fn lanes_under_two_keys_go_side_by_side(rt: HostRuntime) {
    let counting = Schedule::expand(&COUNTING[..16]);
    let keys = alternating(&counting, &Schedule::expand(&[0; 16]));
    let mut blocks = [[0; 16]; AES_LANES];
    for pair in 0..AES_LANES / 2 {
        blocks[2 * pair] = PLAINTEXT.to_be_bytes();
    }
    encrypt32(&keys, &mut blocks);
    check_pairs(&rt, &blocks, [CIPHERTEXT, ZEROS]);
    decrypt32(&keys, &mut blocks);
    check_pairs(&rt, &blocks, [PLAINTEXT, 0]);
}

#[test]
fn a_block_is_xored_with_the_chain_and_enciphered(rt: HostRuntime) {
    let key = Schedule::expand(&[0; 16]);
    let block = chained(&key, &[0x3c; 16], &[0x3c; 16]);
    expect(&rt, "block", block, ZEROS.to_be_bytes());
}

/// Puts each byte in every lane of its vector.
fn spread<V: Lane8>(vectors: &mut [V], bytes: &[u8])
    ensures { length vectors.new ≡ length vectors.old }
{
    for i in 0..vectors.len().min(bytes.len()) {
        vectors[i] = V::splat(bytes[i]);
    }
}

/// The round keys of a schedule, and zeros behind them.
fn round_keys(key: &Schedule) -> [[u8; 16]; MAX_ROUND_KEYS] {
    let mut keys = [[0; 16]; MAX_ROUND_KEYS];
    for r in 0..key.rounds() + 1 {
        keys[r as usize] = key.round_key(r);
    }
    keys
}

/// Each byte of the block is in every lane of its vector.
fn expect_in_every_lane<V: Lane8 + PartialEq + Debug + Drop>(
    rt: &impl Abort,
    vectors: &[V],
    block: &[u8; 16],
)
    requires { length vectors.now ≡ 16 }
{
    for i in 0..16usize {
        expect(rt, "lanes", vectors[i], V::splat(block[i]));
    }
}

/// The plaintext in every lane is encrypted, and decrypted.
fn check_lanes<V: Lane8 + PartialEq + Debug + Drop>(
    rt: &impl Abort,
    keys: &[V],
    state: &mut [V],
    ciphertext: u128,
)
    requires keys { IsScheduleSize (length keys.now) }
    requires state { length state.old ≡ 16 }
{
    let (plaintext, ciphertext) = (PLAINTEXT.to_be_bytes(), ciphertext.to_be_bytes());
    spread(state, &plaintext);
    encrypt_lanes(keys, state);
    expect_in_every_lane(rt, state, &ciphertext);
    decrypt_lanes(keys, state);
    expect_in_every_lane(rt, state, &plaintext);
}

/// The same key and the same block in every lane of 16, and of 32. The schedule has `N` bytes.
fn check_widths<const N: usize>(rt: &impl Abort, key: &[u8], ciphertext: u128)
    requires { IsScheduleSize N }
{
    assert!(rt; matches!(key.len(), 16 | 24 | 32));
    let keys = round_keys(&Schedule::expand(key));
    let mut narrow = [u8x16::splat(0); N];
    spread(&mut narrow, keys.as_flattened());
    check_lanes(rt, &narrow, &mut [u8x16::splat(0); 16], ciphertext);
    let mut wide = [u8x32::splat(0); N];
    spread(&mut wide, keys.as_flattened());
    check_lanes(rt, &wide, &mut [u8x32::splat(0); 16], ciphertext);
}

#[test]
fn lanes_of_every_width_are_served(rt: HostRuntime) {
    check_widths::<176>(&rt, &COUNTING[..16], CIPHERTEXT);
    check_widths::<208>(&rt, &COUNTING[..24], 0xdda97ca4864cdfe06eaf70a0ec0d7191);
    check_widths::<240>(&rt, &COUNTING, 0x8ea2b7ca516745bfeafc49904b496089);
}
