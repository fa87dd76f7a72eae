ghost use Rattle.std.specs.Prelude.{◌≤◌, length};

use crate::compare::expect;
use mbj_aes::Schedule;
use mbj_aes_lanes::encrypt_same;
use mbj_gcm::{seal, unseal, unsealing_undoes_sealing};
use mbj_ghash::Ghash;
use std::process::Abort;

// Test cases 1 and 2 of the GCM specification (McGrew and Viega, appendix B): no text, and a block of zeros.
#[test]
fn zeros_are_sealed_as_in_the_gcm_specification(rt: HostRuntime) {
    let key = Schedule::expand(&[0; 16]);
    let tag = seal(&key, &[0; 12], &[], &mut []);
    expect_block(
        &rt,
        "tag of nothing",
        tag,
        0x58e2fccefa7e3061367f1d57a4e7455a,
    );

    let mut text = [0; 16];
    let tag = seal(&key, &[0; 12], &[], &mut text);
    expect_block(&rt, "text", text, 0x0388dace60b6a392f328c2b971b2fe78);
    expect_block(&rt, "tag", tag, 0xab6e47d42cec13bdf53a67b21257bddf);
}

/// Compares the 16 bytes of a block or a tag.
fn expect_block(rt: &impl Abort, what: &str, found: [u8; 16], wanted: u128) {
    expect(rt, what, u128::from_be_bytes(found), wanted);
}

// The inputs of test cases 4 to 6, 10 to 12 and 16 to 18 of the GCM specification: keys are first bytes of `KEY`, and
// neither the text nor the additional data is whole blocks.
const KEY: [u8; 32] = [
    0xfe, 0xff, 0xe9, 0x92, 0x86, 0x65, 0x73, 0x1c, 0x6d, 0x6a, 0x8f, 0x94, 0x67, 0x30, 0x83, 0x08,
    0xfe, 0xff, 0xe9, 0x92, 0x86, 0x65, 0x73, 0x1c, 0x6d, 0x6a, 0x8f, 0x94, 0x67, 0x30, 0x83, 0x08,
];

const IV: [u8; 12] = [
    0xca, 0xfe, 0xba, 0xbe, 0xfa, 0xce, 0xdb, 0xad, 0xde, 0xca, 0xf8, 0x88,
];

const SHORT_IV: [u8; 8] = [0xca, 0xfe, 0xba, 0xbe, 0xfa, 0xce, 0xdb, 0xad];

const LONG_IV: [u8; 60] = [
    0x93, 0x13, 0x22, 0x5d, 0xf8, 0x84, 0x06, 0xe5, 0x55, 0x90, 0x9c, 0x5a, 0xff, 0x52, 0x69, 0xaa,
    0x6a, 0x7a, 0x95, 0x38, 0x53, 0x4f, 0x7d, 0xa1, 0xe4, 0xc3, 0x03, 0xd2, 0xa3, 0x18, 0xa7, 0x28,
    0xc3, 0xc0, 0xc9, 0x51, 0x56, 0x80, 0x95, 0x39, 0xfc, 0xf0, 0xe2, 0x42, 0x9a, 0x6b, 0x52, 0x54,
    0x16, 0xae, 0xdb, 0xf5, 0xa0, 0xde, 0x6a, 0x57, 0xa6, 0x37, 0xb3, 0x9b,
];

const AAD: [u8; 20] = [
    0xfe, 0xed, 0xfa, 0xce, 0xde, 0xad, 0xbe, 0xef, 0xfe, 0xed, 0xfa, 0xce, 0xde, 0xad, 0xbe, 0xef,
    0xab, 0xad, 0xda, 0xd2,
];

const PLAINTEXT: [u8; 60] = [
    0xd9, 0x31, 0x32, 0x25, 0xf8, 0x84, 0x06, 0xe5, 0xa5, 0x59, 0x09, 0xc5, 0xaf, 0xf5, 0x26, 0x9a,
    0x86, 0xa7, 0xa9, 0x53, 0x15, 0x34, 0xf7, 0xda, 0x2e, 0x4c, 0x30, 0x3d, 0x8a, 0x31, 0x8a, 0x72,
    0x1c, 0x3c, 0x0c, 0x95, 0x95, 0x68, 0x09, 0x53, 0x2f, 0xcf, 0x0e, 0x24, 0x49, 0xa6, 0xb5, 0x25,
    0xb1, 0x6a, 0xed, 0xf5, 0xaa, 0x0d, 0xe6, 0x57, 0xba, 0x63, 0x7b, 0x39,
];

/// How many bytes of `KEY`, the IV, and what comes of the plaintext and `AAD`: the ciphertext, in hex, and the tag.
type Sealing = (usize, &'static [u8], &'static str, u128);

const SEALINGS: [Sealing; 7] = [
    // Test case 4.
    (
        16,
        &IV,
        "42831ec2217774244b7221b784d0d49ce3aa212f2c02a4e035c17e2329aca12e21d514b25466931c7d8f6a5aac84aa051ba30b396a0aac973d58e091",
        0x5bc94fbc3221a5db94fae95ae7121a47,
    ),
    // Test case 5.
    (
        16,
        &SHORT_IV,
        "61353b4c2806934a777ff51fa22a4755699b2a714fcdc6f83766e5f97b6c742373806900e49f24b22b097544d4896b424989b5e1ebac0f07c23f4598",
        0x3612d2e79e3b0785561be14aaca2fccb,
    ),
    // Test case 6.
    (
        16,
        &LONG_IV,
        "8ce24998625615b603a033aca13fb894be9112a5c3a211a8ba262a3cca7e2ca701e4a9a4fba43c90ccdcb281d48c7c6fd62875d2aca417034c34aee5",
        0x619cc5aefffe0bfa462af43c1699d050,
    ),
    // Test case 11.
    (
        24,
        &SHORT_IV,
        "0f10f599ae14a154ed24b36e25324db8c566632ef2bbb34f8347280fc4507057fddc29df9a471f75c66541d4d4dad1c9e93a19a58e8b473fa0f062f7",
        0x65dcc57fcf623a24094fcca40d3533f8,
    ),
    // Test case 12.
    (
        24,
        &LONG_IV,
        "d27e88681ce3243c4830165a8fdcf9ff1de9a1d8e6b447ef6ef7b79828666e4581e79012af34ddd9e2f037589b292db3e67c036745fa22e7e9b7373b",
        0xdcf566ff291c25bbb8568fc3d376a6d9,
    ),
    // Test case 17.
    (
        32,
        &SHORT_IV,
        "c3762df1ca787d32ae47c13bf19844cbaf1ae14d0b976afac52ff7d79bba9de0feb582d33934a4f0954cc2363bc73f7862ac430e64abe499f47c9b1f",
        0x3a337dbf46a792c45e454913fe2ea8f2,
    ),
    // Test case 18.
    (
        32,
        &LONG_IV,
        "5a8def2f0c9e53f1f75d7853659e2a20eeb2b22aafde6419a058ab4f6f746bf40fc0c3b780f244452da3ebf1c5d82cdea2418997200ef82e44ae7e3f",
        0xa44a8266ee1c8eb0c8b5d4cf5ae9f19a,
    ),
];

/// The plaintext is sealed to the ciphertext and the tag, and unsealed again.
fn expect_sealed(rt: &impl Abort, key: &Schedule, iv: &[u8], ciphertext: &[u8; 60], wanted: u128)
    requires some_iv { 1 ≤ length iv.now }
    requires iv_fits { length iv.now ≤ 65535 }
{
    let mut text = PLAINTEXT;
    let tag = seal(key, iv, &AAD, &mut text);
    expect(rt, "sealed", text, *ciphertext);
    expect_block(rt, "tag", tag, wanted);

    let tag = unseal(key, iv, &AAD, &mut text);
    expect(rt, "unsealed", text, PLAINTEXT);
    expect_block(rt, "tag again", tag, wanted);
}

fn check_sealing(rt: &impl Abort, sealing: &Sealing) {
    let (key_len, iv, ciphertext, tag) = *sealing;
    let mut wanted = [0; 60];
    assert!(rt; hex::decode_to_slice(ciphertext, &mut wanted).is_ok());
    assert!(rt; matches!(key_len, 16 | 24 | 32));
    assert!(rt; 1 <= iv.len() && iv.len() <= 65535);
    expect_sealed(rt, &Schedule::expand(&KEY[..key_len]), iv, &wanted, tag);
}

#[test]
fn texts_are_sealed_from_ivs_of_8_12_and_60_bytes_as_in_the_gcm_specification(rt: HostRuntime) {
    for sealing in &SEALINGS {
        check_sealing(&rt, sealing);
    }
    unsealing_undoes_sealing();
}

// The key, the IV and the additional data of test case 4. No standard has a text of this many blocks, more than go at once; the tag is
// OpenSSL's.
#[test]
fn a_text_of_more_blocks_than_lanes_is_sealed(rt: HostRuntime) {
    let key = Schedule::expand(&KEY[..16]);
    let mut text = [0; 600];
    let tag = seal(&key, &IV, &AAD, &mut text);
    expect_block(&rt, "tag", tag, 0x47b1006deb7e041c824d0bfc43ca3a84);
    let tag = unseal(&key, &IV, &AAD, &mut text);
    expect(&rt, "unsealed", text, [0; 600]);
    expect_block(&rt, "tag again", tag, 0x47b1006deb7e041c824d0bfc43ca3a84);
}

// With no text and no additional data the tag is the enciphered counter block, which is GHASH of the IV, filled with
// zeros, and of 8 zero bytes and the bit length of the IV.
#[test]
fn an_iv_of_8_bytes_is_hashed(rt: HostRuntime) {
    let key = Schedule::expand(&[0; 16]);
    let mut hash = Ghash::new(0x66e94bd4ef8a2c3b884cfa59ca342b2eu128.to_be_bytes());
    hash.update_block(&0xcafebabefacedbad0000000000000000u128.to_be_bytes());
    hash.update_block(&0x40u128.to_be_bytes());
    let mut enciphered = [hash.value()];
    encrypt_same(&key, &mut enciphered);
    let tag = seal(&key, &SHORT_IV, &[], &mut []);
    expect(&rt, "enciphered", tag, enciphered[0]);
    expect_block(&rt, "tag", tag, 0x88c4736bea448d08d767f46374e9fe05);
}
