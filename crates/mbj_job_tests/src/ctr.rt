use crate::compare::expect;
use mbj_aes::Schedule;
use mbj_ctr::apply;
use std::process::Abort;

/// The first two blocks of the plaintext of SP 800-38A, appendix F.
const PLAINTEXT: [u8; 32] = [
    0x6b, 0xc1, 0xbe, 0xe2, 0x2e, 0x40, 0x9f, 0x96, 0xe9, 0x3d, 0x7e, 0x11, 0x73, 0x93, 0x17, 0x2a,
    0xae, 0x2d, 0x8a, 0x57, 0x1e, 0x03, 0xac, 0x9c, 0x9e, 0xb7, 0x6f, 0xac, 0x45, 0xaf, 0x8e, 0x51,
];

/// The ciphertext of F.5.1, CTR-AES128.
const CIPHERTEXT: [u8; 32] = [
    0x87, 0x4d, 0x61, 0x91, 0xb6, 0x20, 0xe3, 0x26, 0x1b, 0xef, 0x68, 0x64, 0x99, 0x0d, 0xb6, 0xce,
    0x98, 0x06, 0xf6, 0x6b, 0x79, 0x70, 0xfd, 0xff, 0x86, 0x17, 0x18, 0x7b, 0xb9, 0xff, 0xfd, 0xff,
];

/// A plaintext and its ciphertext by CTR, under a key and from an IV.
#[derive(Drop)]
struct Texts {
    key: Schedule,
    iv: [u8; 16],
    plaintext: [u8; 32],
    ciphertext: [u8; 32],
}

/// The first bytes of the plaintext, there and back. What follows them stays.
fn check_cut(rt: &impl Abort, texts: &Texts, len: usize, cut: &str) {
    assert!(rt; len <= 32);
    let mut text = texts.plaintext;
    let (front, behind) = text.split_at_mut(len);
    apply(&texts.key, &texts.iv, front);
    expect(rt, cut, &*front, &texts.ciphertext[..len]);
    expect(rt, cut, &*behind, &texts.plaintext[len..]);
    apply(&texts.key, &texts.iv, front);
    expect(rt, cut, text, texts.plaintext);
}

#[test]
fn texts_are_those_of_the_standard_cut_at_each_length(rt: HostRuntime) {
    let texts = Texts {
        key: Schedule::expand(&0x2b7e151628aed2a6abf7158809cf4f3cu128.to_be_bytes()),
        iv: 0xf0f1f2f3f4f5f6f7f8f9fafbfcfdfeffu128.to_be_bytes(),
        plaintext: PLAINTEXT,
        ciphertext: CIPHERTEXT,
    };
    check_cut(&rt, &texts, 0, "0 bytes");
    check_cut(&rt, &texts, 3, "3 bytes");
    check_cut(&rt, &texts, 16, "16 bytes");
    check_cut(&rt, &texts, 19, "19 bytes");
    check_cut(&rt, &texts, 32, "32 bytes");
}

// The counter after the IV is 0, so the second block of zeros becomes the enciphered zero block.
#[test]
fn counters_wrap_at_128_bits(rt: HostRuntime) {
    let key = Schedule::expand(&[0; 16]);
    let mut text = [0; 32];
    apply(&key, &[0xff; 16], &mut text);
    let second = 0x66e94bd4ef8a2c3b884cfa59ca342b2eu128.to_be_bytes();
    expect(&rt, "second block", &text[16..], &second);
}

// An IV of 12 bytes is one of 16 bytes that ends in the block number 1.
#[test]
fn an_iv_of_12_bytes_begins_at_block_number_1(rt: HostRuntime) {
    let key = Schedule::expand(&[0; 16]);
    let iv = 0xcafebabefacedbaddecaf88800000001u128.to_be_bytes();
    let mut text = [0; 20];
    apply(&key, &iv[..12], &mut text);
    apply(&key, &iv, &mut text);
    expect(&rt, "text", text, [0; 20]);
}
