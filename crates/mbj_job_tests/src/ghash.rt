use crate::compare::expect;
use mbj_ghash::Ghash;
use std::process::Abort;

// The enciphered zero block under the zero key, as in test cases 1 and 2 of the GCM specification.
const SUBKEY: u128 = 0x66e94bd4ef8a2c3b884cfa59ca342b2e;

// GHASH under that subkey of this many first blocks of the text, by another program.
const AFTER_BLOCKS: [(usize, u128); 8] = [
    (0, 0x00000000000000000000000000000000),
    (1, 0xcd9a157e625ae9d70b5a799c41371df3),
    (4, 0xe38c1d4b6bb66ab501ac296381e609bb),
    (11, 0xf3ef6522bd46e0a5c5b97a6b209fbede),
    (12, 0x5823ba041c7667894b9403254dfcaf8e),
    (13, 0x3f65633846b90dc1e718a40ed17086a4),
    (16, 0x0b55e2fc3312a6fb411b6c12bd7c542a),
    (19, 0xee2cf673cb2f5b116e2351ca55eae247),
];

// GHASH of the first block of the text and a part of this many bytes behind it, by another program.
const AFTER_PARTS: [(usize, u128); 6] = [
    (0, 0xcd9a157e625ae9d70b5a799c41371df3),
    (1, 0x8dd86d1a83d4255754be4b7b1b54c3b6),
    (15, 0x90acbf78d9e4a59761c3209597a30e1f),
    (16, 0x803a3f8e6f88ded5b5177f2042a1c66d),
    (17, 0x51da862001e2ae1c82c2ee0c9521799c),
    (200, 0x02ec2342dcf81ff66cade12512f4a4bf),
];

// Hash subkeys: that one, and elements that are small or have ends of ones.
const SUBKEYS: [u128; 4] = [
    SUBKEY,
    1,
    1 << 127,
    0xff00_0000_0000_0000_0000_0000_0000_00ff,
];

// The most blocks that are hashed: some are taken one by one, more by fours, and some behind fours.
const MOST_BLOCKS: usize = 40;

// `R` of the standard: 11100001 and 120 bits 0 (SP 800-38D, 6.3).
const R: u128 = 0xe1 << 120;

// Byte `i` is 7 times `i`, modulo 251.
fn text() -> [u8; 16 * MOST_BLOCKS] {
    let mut bytes = [0; 16 * MOST_BLOCKS];
    for (i, byte) in bytes.iter_mut().enumerate() {
        *byte = (7 * i % 251) as u8;
    }
    bytes
}

// The product of two blocks (SP 800-38D, 6.3, algorithm 1): bit 0 is the highest.
fn product(x: u128, y: u128) -> u128 {
    let mut z = 0;
    let mut v = y;
    for i in 0..128u32 {
        if x >> (127 - i) & 1 == 1 {
            z ^= v;
        }
        v = if v & 1 == 0 { v >> 1 } else { v >> 1 ^ R };
    }
    z
}

// GHASH under `h` of blocks (SP 800-38D, 6.4, algorithm 2).
fn hash_by_definition(h: u128, blocks: &[[u8; 16]]) -> u128 {
    let mut y = 0;
    for block in blocks {
        y = product(y ^ u128::from_be_bytes(*block), h);
    }
    y
}

/// Compares the value of a hash.
fn expect_value(rt: &impl Abort, what: &str, hash: &Ghash, wanted: u128) {
    expect(rt, what, u128::from_be_bytes(hash.value()), wanted);
}

// Test case 2 of the GCM specification: a block of ciphertext, and the block of the two bit lengths.
#[test]
fn values_are_those_of_the_gcm_specification(rt: HostRuntime) {
    let mut hash = Ghash::new(SUBKEY.to_be_bytes());
    expect_value(&rt, "fresh", &hash, 0);
    hash.update_block(&0x0388dace60b6a392f328c2b971b2fe78u128.to_be_bytes());
    expect_value(&rt, "ciphertext", &hash, 0x5e2ec746917062882c85b0685353deb7);
    hash.update_block(&0x80u128.to_be_bytes());
    expect_value(&rt, "lengths", &hash, 0xf38cbb1ad69223dcc3457ae5b6b0f885);
}

/// The blocks have this value under the subkey `h`, hashed together and one by one.
fn check_blocks(rt: &impl Abort, h: u128, blocks: &[[u8; 16]], value: u128) {
    let mut together = Ghash::new(h.to_be_bytes());
    together.update_blocks(blocks);
    let mut one_by_one = Ghash::new(h.to_be_bytes());
    for block in blocks {
        one_by_one.update_block(block);
    }
    expect_value(rt, "together", &together, value);
    expect(rt, "one by one", one_by_one.value(), together.value());
}

#[test]
fn blocks_are_hashed_together_as_one_by_one(rt: HostRuntime) {
    let bytes = text();
    let blocks = bytes.as_chunks::<16>().0;
    for (count, value) in AFTER_BLOCKS {
        check_blocks(&rt, SUBKEY, &blocks[..count.min(blocks.len())], value);
    }
}

#[test]
fn values_are_those_of_the_definition(rt: HostRuntime) {
    let bytes = text();
    let blocks = bytes.as_chunks::<16>().0;
    for h in SUBKEYS {
        for count in 0..=MOST_BLOCKS {
            let some = &blocks[..count.min(blocks.len())];
            check_blocks(&rt, h, some, hash_by_definition(h, some));
        }
    }
}

/// A block and the part behind it have this value.
fn check_part(rt: &impl Abort, block: &[u8], part: &[u8], value: u128) {
    let mut hash = Ghash::new(SUBKEY.to_be_bytes());
    hash.update_padded(block);
    hash.update_padded(part);
    expect_value(rt, "value", &hash, value);
}

#[test]
fn a_part_is_filled_with_zeros_and_one_of_no_bytes_has_no_block(rt: HostRuntime) {
    let bytes = text();
    let (front, behind) = bytes.split_at(16);
    for (len, value) in AFTER_PARTS {
        check_part(&rt, front, &behind[..len.min(behind.len())], value);
    }
}
