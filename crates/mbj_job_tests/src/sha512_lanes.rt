use crate::compare::expect;
use crate::message::{letter_blocks, letters};
use mbj_sha512_lanes::{compress, compress_lanes};
use mbj_types::SHA512_LANES;
use sha2::{Digest, Sha512};
use std::simd::u64x2;

/// The initial hash value of SHA-512 (FIPS 180-4, 5.3.5).
const INITIAL: [u64; 8] = [
    0x6a09_e667_f3bc_c908,
    0xbb67_ae85_84ca_a73b,
    0x3c6e_f372_fe94_f82b,
    0xa54f_f53a_5f1d_36f1,
    0x510e_527f_ade6_82d1,
    0x9b05_688c_2b3e_6c1f,
    0x1f83_d9ab_fb41_bd6b,
    0x5be0_cd19_137e_2179,
];

/// The digest of "abc" under SHA-512.
const OF_ABC: [u64; 8] = [
    0xddaf_35a1_9361_7aba,
    0xcc41_7349_ae20_4131,
    0x12e6_fa4e_89a9_7ea2,
    0x0a9e_eee6_4b55_d39a,
    0x2192_992a_274f_c1a8,
    0x36ba_3c23_a3fe_ebbd,
    0x454d_4423_643c_e80e,
    0x2a9a_c94f_a54c_a49f,
];

/// The digest of the empty message under SHA-512.
const OF_NOTHING: [u64; 8] = [
    0xcf83_e135_7eef_b8bd,
    0xf154_2850_d66d_8007,
    0xd620_e405_0b57_15dc,
    0x83f4_a921_d36c_e9ce,
    0x47d0_d13c_5d85_f2b0,
    0xff83_18d2_877e_ec2f,
    0x63b9_31bd_4741_7a81,
    0xa538_327a_f927_da3e,
];

/// The words of the digest by the crate `sha2`.
fn by_sha2(message: &[u8]) -> [u64; 8] {
    let digest = Sha512::digest(message);
    let mut words = [0; 8];
    for (word, bytes) in words.iter_mut().zip(digest.as_chunks::<8>().0) {
        *word = u64::from_be_bytes(*bytes);
    }
    words
}

#[test]
fn each_message_has_the_digest_of_the_crate_for_one(rt: HostRuntime) {
    let mut states = [INITIAL; SHA512_LANES];
    compress(&mut states, &letter_blocks());
    for i in 0..SHA512_LANES {
        expect(&rt, "digest", states[i], by_sha2(letters(i)));
    }
}

#[test]
fn lanes_of_another_width_have_the_digests_of_the_standard(rt: HostRuntime) {
    let mut states = INITIAL.map(|word| u64x2::splat(word));
    let mut words = [u64x2::splat(0); 16];
    words[0] = u64x2::from_array([0x6162_6380_0000_0000, 0x8000_0000_0000_0000]);
    words[15] = u64x2::from_array([24, 0]);
    compress_lanes(&mut states, &mut words);
    for j in 0..8usize {
        let wanted = [OF_ABC[j], OF_NOTHING[j]];
        expect(&rt, "lanes", states[j].to_array(), wanted);
    }
}
