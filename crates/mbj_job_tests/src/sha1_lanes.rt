use crate::compare::expect;
use crate::message::letter_blocks;
use mbj_sha1_lanes::{compress, compress_lanes};
use mbj_types::SHA1_LANES;
use std::simd::u32x4;

/// The initial hash value (FIPS 180-4, 5.3.1).
const INITIAL: [u32; 5] = [0x67452301, 0xefcdab89, 0x98badcfe, 0x10325476, 0xc3d2e1f0];

/// The digests of the messages of letters, by Python's `hashlib`.
const DIGESTS: [[u32; 5]; SHA1_LANES] = [
    [0xda39a3ee, 0x5e6b4b0d, 0x3255bfef, 0x95601890, 0xafd80709],
    [0x86f7e437, 0xfaa5a7fc, 0xe15d1ddc, 0xb9eaeaea, 0x377667b8],
    [0xda23614e, 0x02469a0d, 0x7c7bd1bd, 0xab5c9c47, 0x4b1904dc],
    [0xa9993e36, 0x4706816a, 0xba3e2571, 0x7850c26c, 0x9cd0d89d],
    [0x81fe8bfe, 0x87576c3e, 0xcb22426f, 0x8e578473, 0x82917acf],
    [0x03de6c57, 0x0bfe24bf, 0xc328ccd7, 0xca46b76e, 0xadaf4334],
    [0x1f8ac10f, 0x23c5b5bc, 0x1167bda8, 0x4b833e5c, 0x057a77d2],
    [0x2fb5e134, 0x19fc8924, 0x6865e7a3, 0x24f476ec, 0x624e8740],
    [0x425af12a, 0x0743502b, 0x322e93a0, 0x15bcf868, 0xe324d56a],
    [0xc63b19f1, 0xe4c8b5f7, 0x6b25c49b, 0x8b87f57d, 0x8e4872a1],
    [0xd68c19a0, 0xa345b7ea, 0xb78d5e11, 0xe991c026, 0xec60db63],
    [0x5dfac39f, 0x71ad4d35, 0xa153ba4f, 0xc12d943a, 0x0e178e6a],
    [0xeb4608ce, 0xbfcfd4df, 0x81410cbd, 0x06507ea6, 0xaf978d9c],
    [0x4b9892b6, 0x527214af, 0xc655b8aa, 0x52f4d203, 0xc15e7c9c],
    [0x85d7c5ff, 0x403abe72, 0xdf5b8a27, 0x08821ee3, 0x3cd0bcce],
    [0x2938dcc2, 0xe3aa7798, 0x7c7e5d4a, 0x0f269667, 0x06d06782],
];

#[test]
fn each_block_goes_into_the_state_of_its_number(rt: HostRuntime) {
    let mut states = [INITIAL; SHA1_LANES];
    compress(&mut states, &letter_blocks());
    for i in 0..SHA1_LANES {
        expect(&rt, "digest", states[i], DIGESTS[i]);
    }
}

#[test]
fn lanes_of_another_width_do_the_same(rt: HostRuntime) {
    let mut states = INITIAL.map(|word| u32x4::splat(word));
    let mut words = [u32x4::splat(0); 16];
    words[0] = u32x4::from_array([0x6162_6380, 0x8000_0000, 0x6162_6380, 0x8000_0000]);
    words[15] = u32x4::from_array([24, 0, 24, 0]);
    compress_lanes(&mut states, &mut words);
    for j in 0..5usize {
        let (abc, nothing) = (DIGESTS[3][j], DIGESTS[0][j]);
        let wanted = [abc, nothing, abc, nothing];
        expect(&rt, "lanes", states[j].to_array(), wanted);
    }
}
