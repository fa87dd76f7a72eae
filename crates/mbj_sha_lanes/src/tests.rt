//! The words of blocks, by the padded message "abc" of NIST's examples of FIPS 180-4.
use super::*;
use std::process::Abort;
use std::simd::{u32x8, u64x8};
use std::test::Fail;

/// The message and the bit 1 behind it.
const MESSAGE: [u8; 4] = [b'a', b'b', b'c', 0x80];

/// How many bits the message has. They end its block.
const BITS: u8 = 24;

fn expect_word(rt: &impl Abort, found: u64, wanted: u64) {
    assert_eq!(rt; found, wanted);
}

/// Zeros, and the padded message as the block of one lane.
fn with_message<const BYTES: usize>(rt: &impl Abort, lane: usize) -> [[u8; BYTES]; 8] {
    let mut blocks = [[0; BYTES]; 8];
    assert!(rt; lane < 8 && MESSAGE.len() < BYTES);
    let block = &mut blocks[lane];
    block[..MESSAGE.len()].copy_from_slice(&MESSAGE);
    block[BYTES - 1] = BITS;
    blocks
}

fn check_words32(rt: &impl Abort, lane: usize) {
    assert!(rt; lane < 8);
    let blocks: [[u8; 64]; 8] = with_message(rt, lane);
    let words = u32x8::block_words(&blocks);
    expect_word(rt, words[0].word(lane) as u64, 0x61626380);
    expect_word(rt, words[15].word(lane) as u64, 24);
    expect_word(rt, words[0].word((lane + 1) % 8) as u64, 0);
}

fn check_words64(rt: &impl Abort, lane: usize) {
    assert!(rt; lane < 8);
    let blocks: [[u8; 128]; 8] = with_message(rt, lane);
    let words = u64x8::block_words(&blocks);
    expect_word(rt, words[0].word(lane), 0x6162638000000000);
    expect_word(rt, words[15].word(lane), 24);
    expect_word(rt, words[0].word((lane + 1) % 8), 0);
}

#[test]
fn the_words_of_a_block_stand_in_its_lane(rt: HostRuntime) {
    for lane in 0..8 {
        check_words32(&rt, lane);
        check_words64(&rt, lane);
    }
}
