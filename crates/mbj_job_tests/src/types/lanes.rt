//! Every vector as a lane word: all calls, through the bound, on lanes that differ.
use crate::compare::expect;
use mbj_types::{Lane8, Lane32, Lane64};
use std::simd::{u8x16, u8x32, u32x4, u32x8, u32x16, u64x2, u64x4, u64x8};

const LEFT8: [u8; 32] = [
    0x52, 0xf2, 0x26, 0x65, 0xa6, 0x0c, 0x12, 0xd2, 0x89, 0x18, 0x5d, 0x95, 0x0e, 0xe8, 0x81, 0x36,
    0x09, 0x16, 0x6f, 0x6b, 0x11, 0x3d, 0x17, 0x8d, 0x6c, 0x0f, 0xd3, 0x90, 0x1f, 0xf2, 0x39, 0xa1,
];

const RIGHT8: [u8; 32] = [
    0xa0, 0x95, 0xf2, 0x0f, 0x93, 0x95, 0x65, 0x0c, 0xf9, 0x38, 0x0b, 0x8e, 0xdb, 0x22, 0x4a, 0x6b,
    0x24, 0x8a, 0x1e, 0x92, 0x4e, 0x8f, 0xd0, 0xae, 0x2e, 0x1a, 0x94, 0x92, 0xa3, 0x30, 0x5f, 0x18,
];

// (left + (right & 0x8c)) ^ (!left << 3) ^ (right >> 2), word by word
const MIXED8: [u8; 32] = [
    0x92, 0x3b, 0x52, 0xa2, 0xca, 0x2d, 0x67, 0xb5, 0x9f, 0x16, 0x77, 0x52, 0x28, 0x58, 0x6b, 0x6c,
    0xb4, 0xf4, 0xfc, 0x6f, 0x7e, 0xfa, 0xe3, 0xa2, 0xeb, 0x91, 0x12, 0x4c, 0xb7, 0x96, 0x62, 0x5f,
];

fn mixed8<V: Lane8>(left: V, right: V) -> V {
    left.plus(right.anded(V::splat(0x8c)))
        .xored(left.inverted().shl(3))
        .xored(right.shr(2))
}

#[test]
fn every_call_of_a_lane8_works_lane_by_lane(rt: HostRuntime) {
    let mixed = mixed8(
        u8x16::from_slice(&LEFT8[..16]),
        u8x16::from_slice(&RIGHT8[..16]),
    );
    expect(&rt, "u8x16", mixed.to_array().as_slice(), &MIXED8[..16]);
    let mixed = mixed8(
        u8x32::from_slice(&LEFT8[..32]),
        u8x32::from_slice(&RIGHT8[..32]),
    );
    expect(&rt, "u8x32", mixed.to_array().as_slice(), &MIXED8[..32]);
}

// A table, places of it and beyond it, and what is found there.
const TABLE: [u8; 16] = [
    0x52, 0xf2, 0x26, 0x65, 0xa6, 0x0c, 0x12, 0xd2, 0x89, 0x18, 0x5d, 0x95, 0x0e, 0xe8, 0x81, 0x36,
];

const AT: [u8; 16] = [15, 0, 128, 1, 7, 255, 8, 14, 2, 13, 3, 12, 200, 4, 11, 5];

const FOUND: [u8; 16] = [
    0x36, 0x52, 0x00, 0xf2, 0xd2, 0x00, 0x89, 0x81, 0x26, 0xe8, 0x65, 0x0e, 0x00, 0xa6, 0x95, 0x0c,
];

// Other places in the second half.
const AT_TWICE: [u8; 32] = [
    15, 0, 128, 1, 7, 255, 8, 14, 2, 13, 3, 12, 200, 4, 11, 5, 9, 10, 6, 129, 5, 11, 4, 200, 12, 3,
    13, 2, 14, 8, 255, 7,
];

const FOUND_TWICE: [u8; 32] = [
    0x36, 0x52, 0x00, 0xf2, 0xd2, 0x00, 0x89, 0x81, 0x26, 0xe8, 0x65, 0x0e, 0x00, 0xa6, 0x95, 0x0c,
    0x18, 0x5d, 0x12, 0x00, 0x0c, 0x95, 0xa6, 0x00, 0x0e, 0x65, 0xe8, 0x26, 0x81, 0x89, 0x00, 0xd2,
];

#[test]
fn a_table_is_looked_up_in_every_lane(rt: HostRuntime) {
    let found = u8x16::from_array(AT).looked_up(&TABLE);
    expect(&rt, "u8x16", found.to_array(), FOUND);
    let found = u8x32::from_array(AT_TWICE).looked_up(&TABLE);
    expect(&rt, "u8x32", found.to_array(), FOUND_TWICE);
}

const LEFT32: [u32; 16] = [
    0xb64ce422, 0x1012f037, 0x907a70c3, 0x0f4205b4, 0x9e7769b1, 0x34b9b5df, 0x7f150524, 0xae2eb154,
    0x881ed162, 0x6d76b07e, 0xc6f87718, 0x506bf2ef, 0x7731af10, 0x95e761d1, 0xec66a787, 0x7403e430,
];

const RIGHT32: [u32; 16] = [
    0x5c90a958, 0x4cbd87ad, 0x3f98e277, 0xcb5c7427, 0x2e05319a, 0xb2f14c94, 0xc7a2ea20, 0x3e7d1bfb,
    0x14f4733f, 0x930d6eaf, 0x4cdd2055, 0x86734721, 0x7ebff206, 0xe00902c7, 0x57ee05cd, 0xbabced20,
];

// (left + (right & 0xf2e6_cc3a)) ^ (!left << 7) ^ (right >> 5), word by word
const MIXED32: [u32; 16] = [
    0xdda407f0, 0xa4557c62, 0x01c069e6, 0x89218ff7, 0x05406747, 0x41289b8b, 0x32f7b795, 0x09c604d1,
    0x6933fc85, 0xbf45575d, 0x861eedaa, 0x1cfb2536, 0x8d05e702, 0x7ea83ec5, 0xf15fe7a1, 0xdd70b0b9,
];

fn mixed32<V: Lane32>(left: V, right: V) -> V {
    left.plus(right.anded(V::splat(0xf2e6_cc3a)))
        .xored(left.inverted().shl(7))
        .xored(right.shr(5))
}

#[test]
fn every_call_of_a_lane32_works_lane_by_lane(rt: HostRuntime) {
    let mixed = mixed32(
        u32x4::from_slice(&LEFT32[..4]),
        u32x4::from_slice(&RIGHT32[..4]),
    );
    expect(&rt, "u32x4", mixed.to_array().as_slice(), &MIXED32[..4]);
    let mixed = mixed32(
        u32x8::from_slice(&LEFT32[..8]),
        u32x8::from_slice(&RIGHT32[..8]),
    );
    expect(&rt, "u32x8", mixed.to_array().as_slice(), &MIXED32[..8]);
    let mixed = mixed32(
        u32x16::from_slice(&LEFT32[..16]),
        u32x16::from_slice(&RIGHT32[..16]),
    );
    expect(&rt, "u32x16", mixed.to_array().as_slice(), &MIXED32[..16]);
}

const LEFT64: [u64; 8] = [
    0x9be4_bcfc_49b6_4a08,
    0x12bd_4ace_faec_bd38,
    0x830e_07bc_1e39_8f10,
    0x2a3a_f4d4_6b0a_18e8,
    0x5790_f82e_c1d3_fcff,
    0xeeea_cbe2_26e8_7555,
    0x6bf4_6c69_7d2c_af82,
    0xf646_e1f4_0a09_7c97,
];

const RIGHT64: [u64; 8] = [
    0x13de_ef86_ab10_31d0,
    0x8ede_0d7a_c3ba_ea9e,
    0xca02_135e_92b1_d3f2,
    0xd17f_9aca_e01f_5057,
    0x5712_4242_5051_c1cc,
    0x59a5_4a7b_b1fe_e08f,
    0x7f26_144b_9828_9fcd,
    0xcc01_1cdd_9474_031b,
];

// (left + (right & 0x919a_72d1_74c9_df6a)) ^ (!left << 37) ^ (right >> 11), word by word
const MIXED64: [u64; 8] = [
    0x644b_da41_9963_394e,
    0x312e_c83e_942d_f01f,
    0x3bc7_47ae_4569_3448,
    0x25f3_ca87_924f_6ac0,
    0xad29_b827_5a5f_b47f,
    0x2291_6fda_18c7_0a83,
    0x2693_97c8_0446_4bd9,
    0xc88f_1fe6_85fb_f121,
];

fn mixed64<V: Lane64>(left: V, right: V) -> V {
    left.plus(right.anded(V::splat(0x919a_72d1_74c9_df6a)))
        .xored(left.inverted().shl(37))
        .xored(right.shr(11))
}

#[test]
fn every_call_of_a_lane64_works_lane_by_lane(rt: HostRuntime) {
    let mixed = mixed64(
        u64x2::from_slice(&LEFT64[..2]),
        u64x2::from_slice(&RIGHT64[..2]),
    );
    expect(&rt, "u64x2", mixed.to_array().as_slice(), &MIXED64[..2]);
    let mixed = mixed64(
        u64x4::from_slice(&LEFT64[..4]),
        u64x4::from_slice(&RIGHT64[..4]),
    );
    expect(&rt, "u64x4", mixed.to_array().as_slice(), &MIXED64[..4]);
    let mixed = mixed64(
        u64x8::from_slice(&LEFT64[..8]),
        u64x8::from_slice(&RIGHT64[..8]),
    );
    expect(&rt, "u64x8", mixed.to_array().as_slice(), &MIXED64[..8]);
}
