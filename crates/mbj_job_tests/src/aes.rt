use crate::compare::expect;
use mbj_aes::{Schedule, blocks_stay_blocks, each_undoes_the_other, examples_of_the_standard};

/// Takes a value that may cross to another thread.
fn cross<T: Send + Drop>(_value: T) {}

/// The keys of FIPS 197, appendix C, are the first 16, 24 and 32 of these bytes.
const COUNTING: [u8; 32] = [
    0x00, 0x01, 0x02, 0x03, 0x04, 0x05, 0x06, 0x07, 0x08, 0x09, 0x0a, 0x0b, 0x0c, 0x0d, 0x0e, 0x0f,
    0x10, 0x11, 0x12, 0x13, 0x14, 0x15, 0x16, 0x17, 0x18, 0x19, 0x1a, 0x1b, 0x1c, 0x1d, 0x1e, 0x1f,
];

/// FIPS 197, appendix A.1: the key, which is round key 0, and two of the others with their numbers.
const ROUND_KEYS: [(u32, u128); 3] = [
    (0, 0x2b7e151628aed2a6abf7158809cf4f3c),
    (1, 0xa0fafe1788542cb123a339392a6c7605),
    (10, 0xd014f9a8c9ee2589e13f0cc8b6630ca6),
];

/// Whether the round key of this number is these bytes.
fn has_round_key(schedule: &Schedule, round: u32, key: u128) -> bool {
    round <= schedule.rounds() && schedule.round_key(round) == key.to_be_bytes()
}

#[test]
fn round_keys_are_those_of_the_standard(rt: HostRuntime) {
    let schedule = Schedule::expand(&ROUND_KEYS[0].1.to_be_bytes());
    for (round, key) in &ROUND_KEYS {
        assert!(rt; has_round_key(&schedule, *round, *key), "{round}");
    }
}

#[test]
fn a_schedule_is_copied_and_may_cross_to_another_thread(rt: HostRuntime) {
    let schedule = Schedule::expand(&COUNTING);
    cross(schedule);
    let second = [
        0x10, 0x11, 0x12, 0x13, 0x14, 0x15, 0x16, 0x17, 0x18, 0x19, 0x1a, 0x1b, 0x1c, 0x1d, 0x1e,
        0x1f,
    ];
    expect(&rt, "second", schedule.round_key(1), second);
    each_undoes_the_other();
    blocks_stay_blocks();
    examples_of_the_standard();
}
