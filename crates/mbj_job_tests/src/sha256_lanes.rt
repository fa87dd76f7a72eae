use crate::compare::expect;
use crate::message::letter_blocks;
use mbj_sha256_lanes::{compress, compress_lanes};
use mbj_types::SHA256_LANES;
use std::simd::u32x4;

/// The initial hash value of SHA-256 (FIPS 180-4, 5.3.3).
const INITIAL: [u32; 8] = [
    0x6a09e667, 0xbb67ae85, 0x3c6ef372, 0xa54ff53a, 0x510e527f, 0x9b05688c, 0x1f83d9ab, 0x5be0cd19,
];

/// The SHA-256 digests of the messages of letters, by Python's `hashlib`.
const DIGESTS: [[u32; 8]; SHA256_LANES] = [
    [
        0xe3b0c442, 0x98fc1c14, 0x9afbf4c8, 0x996fb924, 0x27ae41e4, 0x649b934c, 0xa495991b,
        0x7852b855,
    ],
    [
        0xca978112, 0xca1bbdca, 0xfac231b3, 0x9a23dc4d, 0xa786eff8, 0x147c4e72, 0xb9807785,
        0xafee48bb,
    ],
    [
        0xfb8e20fc, 0x2e4c3f24, 0x8c60c39b, 0xd652f3c1, 0x347298bb, 0x977b8b4d, 0x5903b850,
        0x55620603,
    ],
    [
        0xba7816bf, 0x8f01cfea, 0x414140de, 0x5dae2223, 0xb00361a3, 0x96177a9c, 0xb410ff61,
        0xf20015ad,
    ],
    [
        0x88d4266f, 0xd4e6338d, 0x13b845fc, 0xf289579d, 0x209c8978, 0x23b9217d, 0xa3e16193,
        0x6f031589,
    ],
    [
        0x36bbe50e, 0xd96841d1, 0x0443bcb6, 0x70d6554f, 0x0a34b761, 0xbe67ec9c, 0x4a8ad2c0,
        0xc44ca42c,
    ],
    [
        0xbef57ec7, 0xf53a6d40, 0xbeb640a7, 0x80a639c8, 0x3bc29ac8, 0xa9816f1f, 0xc6c5c6dc,
        0xd93c4721,
    ],
    [
        0x7d1a5412, 0x7b222502, 0xf5b79b5f, 0xb0803061, 0x152a44f9, 0x2b37e23c, 0x6527baf6,
        0x65d4da9a,
    ],
    [
        0x9c56cc51, 0xb374c3ba, 0x189210d5, 0xb6d4bf57, 0x790d351c, 0x96c47c02, 0x190ecf1e,
        0x430635ab,
    ],
    [
        0x19cc02f2, 0x6df43cc5, 0x71bc9ed7, 0xb0c4d292, 0x24a3ec22, 0x95292217, 0x25ef76d0,
        0x21c8326f,
    ],
    [
        0x72399361, 0xda6a7754, 0xfec986dc, 0xa5b7cbaf, 0x1c810a28, 0xded4abaf, 0x56b2106d,
        0x06cb78b0,
    ],
    [
        0xca2f2069, 0xea0c6e46, 0x58222e06, 0xf8dd6396, 0x59cbb5e6, 0x7cbbba67, 0x34bc334a,
        0x3799bc68,
    ],
    [
        0xd682ed4c, 0xa4d989c1, 0x34ec94f1, 0x551e1ec5, 0x80dd6d5a, 0x6ecde9f3, 0xd35e6e4a,
        0x717fbde4,
    ],
    [
        0xff10304f, 0x1af23606, 0xede1e2d8, 0xabcdc94c, 0x229047a6, 0x1458d809, 0xd8bbd53e,
        0xde1f6598,
    ],
    [
        0x0653c7e9, 0x92d7aad4, 0x0cb26357, 0x38b870e4, 0xc154afb3, 0x46340d02, 0xc797d490,
        0xdd52d5f9,
    ],
    [
        0x41c7760c, 0x50efde99, 0xbf574ed8, 0xfffc7a6d, 0xd3405d54, 0x6d3da929, 0xb214c894,
        0x5acf8a97,
    ],
];

#[test]
fn each_block_goes_into_the_state_of_its_number(rt: HostRuntime) {
    let mut states = [INITIAL; SHA256_LANES];
    compress(&mut states, &letter_blocks());
    for i in 0..SHA256_LANES {
        expect(&rt, "digest", states[i], DIGESTS[i]);
    }
}

#[test]
fn lanes_of_another_width_do_the_same(rt: HostRuntime) {
    let mut states = INITIAL.map(|word| u32x4::splat(word));
    let mut words = [u32x4::splat(0); 16];
    words[0] = u32x4::from_array([0x6162_6380, 0x8000_0000, 0x6162_6380, 0x8000_0000]);
    words[15] = u32x4::from_array([24, 0, 24, 0]);
    compress_lanes(&mut states, &mut words);
    for j in 0..8usize {
        let (abc, nothing) = (DIGESTS[3][j], DIGESTS[0][j]);
        let wanted = [abc, nothing, abc, nothing];
        expect(&rt, "lanes", states[j].to_array(), wanted);
    }
}
