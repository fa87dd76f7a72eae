use crate::compare::expect;
use crate::lists::{Tried, case_of, expect_no_rest, packet_of, run_in_one_list, schedule_of};
use mbj_aes::Schedule;
use mbj_cbc::{
    CbcEntry, CbcKernel, decrypt_in_place, decryption_undoes_encryption, encrypt_in_place,
};
use std::alloc::{AllocError, Global};
use std::process::Abort;
use std::test::Fail;

// SP 800-38A, appendix F.2.1 and F.2.2: CBC-AES128, two blocks.
#[test]
fn texts_are_those_of_the_standard(rt: HostRuntime) {
    let key = Schedule::expand(&0x2b7e151628aed2a6abf7158809cf4f3cu128.to_be_bytes());
    let iv = 0x000102030405060708090a0b0c0d0e0fu128.to_be_bytes();
    let plaintext: [u8; 32] = [
        0x6b, 0xc1, 0xbe, 0xe2, 0x2e, 0x40, 0x9f, 0x96, 0xe9, 0x3d, 0x7e, 0x11, 0x73, 0x93, 0x17,
        0x2a, 0xae, 0x2d, 0x8a, 0x57, 0x1e, 0x03, 0xac, 0x9c, 0x9e, 0xb7, 0x6f, 0xac, 0x45, 0xaf,
        0x8e, 0x51,
    ];
    let ciphertext: [u8; 32] = [
        0x76, 0x49, 0xab, 0xac, 0x81, 0x19, 0xb2, 0x46, 0xce, 0xe9, 0x8e, 0x9b, 0x12, 0xe9, 0x19,
        0x7d, 0x50, 0x86, 0xcb, 0x9b, 0x50, 0x72, 0x19, 0xee, 0x95, 0xdb, 0x11, 0x3a, 0x91, 0x76,
        0x78, 0xb2,
    ];
    let mut text = plaintext;
    encrypt_in_place(&key, &iv, &mut text);
    expect(&rt, "encrypted", text, ciphertext);
    decrypt_in_place(&key, &iv, &mut text);
    expect(&rt, "decrypted", text, plaintext);
    decryption_undoes_encryption();
}

/// The plaintext of SP 800-38A, appendix F.2.
const PLAINTEXT: [u128; 4] = [
    0x6bc1bee22e409f96e93d7e117393172a,
    0xae2d8a571e03ac9c9eb76fac45af8e51,
    0x30c81c46a35ce411e5fbc1191a0a52ef,
    0xf69f2445df4f9b17ad2b417be66c3710,
];

/// Its IV.
const IV: u128 = 0x000102030405060708090a0b0c0d0e0f;

/// A key and an IV, and the blocks of a plaintext and of its ciphertext.
type Case<'a> = (&'a [u8], u128, &'a [u128], &'a [u128]);

/// The bytes of up to four blocks, and zeros.
fn bytes_of(blocks: &[u128]) -> [u8; 64] {
    let mut bytes = [0; 64];
    let places = bytes.as_chunks_mut::<16>().0;
    for i in 0..blocks.len().min(places.len()) {
        places[i] = blocks[i].to_be_bytes();
    }
    bytes
}

impl<'a, const N: usize> Tried<Case<'a>> for CbcKernel<N> {
    fn entry(
        rt: &impl Abort,
        alloc: Global,
        number: u8,
        case: &Case<'a>,
    ) -> Result<CbcEntry<N>, AllocError> {
        let (key, iv, plaintext, _) = *case;
        let key = schedule_of(rt, key);
        assert!(rt; key.rounds() as usize == N);
        let blocks = plaintext.len();
        assert!(rt; 0 < blocks && blocks <= 4);
        let len = 16 * blocks;
        let packet = packet_of(alloc, number, &bytes_of(plaintext)[..len])?;
        assert!(rt; 1 + len <= packet.len());
        Ok(CbcEntry::new(key, iv.to_be_bytes(), packet, 1, len as u32))
    }

    fn check(rt: &impl Abort, cases: &[Case<'a>], entry: CbcEntry<N>) {
        expect_no_rest(rt, entry.rest);
        check_case(rt, cases, &entry.into_packet());
    }
}

/// The packet is the case's, with the text encrypted.
fn check_case(rt: &impl Abort, cases: &[Case], packet: &[u8]) {
    let (case, text) = case_of(rt, cases, packet);
    let ciphertext = case.3;
    assert!(rt; ciphertext.len() <= 4);
    let wanted = bytes_of(ciphertext);
    expect(rt, "text", text, &wanted[..16 * ciphertext.len()]);
}

// SP 800-38A, appendix F.2.1, and cases 1 and 2 of RFC 3602, 4.
#[test]
fn one_list_serves_keys_and_lengths_of_128_bits(rt: HostRuntime) -> Result<(), Fail> {
    let standard_key = 0x2b7e151628aed2a6abf7158809cf4f3cu128.to_be_bytes();
    let one_block_key = 0x06a9214036b8a15b512e03d534120006u128.to_be_bytes();
    let two_block_key = 0xc286696d887c9aa0611bbb3e2025a45au128.to_be_bytes();
    let cases: [Case; 3] = [
        (
            &standard_key,
            IV,
            &PLAINTEXT,
            &[
                0x7649abac8119b246cee98e9b12e9197d,
                0x5086cb9b507219ee95db113a917678b2,
                0x73bed6b8e3c1743b7116e69e22229516,
                0x3ff1caa1681fac09120eca307586e1a7,
            ],
        ),
        (
            &one_block_key,
            0x3dafba429d9eb430b422da802c9fac41,
            &[0x53696e676c6520626c6f636b206d7367],
            &[0xe353779c1079aeb82708942dbe77181a],
        ),
        (
            &two_block_key,
            0x562e17996d093d28ddb3ba695a2e6f58,
            &[
                0x000102030405060708090a0b0c0d0e0f,
                0x101112131415161718191a1b1c1d1e1f,
            ],
            &[
                0xd296cd94c2cccf8a3a863028b5e1dc0a,
                0x7586602d253cfff91b8266bea6d61ab1,
            ],
        ),
    ];
    run_in_one_list::<Case, CbcKernel<10>>(&rt, rt.alloc(), &cases)
}

// SP 800-38A, appendix F.2.3: the whole text, and its first block.
#[test]
fn one_list_serves_lengths_under_a_key_of_192_bits(rt: HostRuntime) -> Result<(), Fail> {
    let key: &[u8] = &[
        0x8e, 0x73, 0xb0, 0xf7, 0xda, 0x0e, 0x64, 0x52, 0xc8, 0x10, 0xf3, 0x2b, 0x80, 0x90, 0x79,
        0xe5, 0x62, 0xf8, 0xea, 0xd2, 0x52, 0x2c, 0x6b, 0x7b,
    ];
    let ciphertext: &[u128] = &[
        0x4f021db243bc633d7178183a9fa071e8,
        0xb4d9ada9ad7dedf4e5e738763f69145a,
        0x571b242012fb7ae07fa9baac3df102e0,
        0x08b0e27988598881d920a9e64f5615cd,
    ];
    let cases: [Case; 2] = [
        (key, IV, &PLAINTEXT, ciphertext),
        (key, IV, &PLAINTEXT[..1], &ciphertext[..1]),
    ];
    run_in_one_list::<Case, CbcKernel<12>>(&rt, rt.alloc(), &cases)
}

// SP 800-38A, appendix F.2.5: the first three blocks of the text, and the whole of it.
#[test]
fn one_list_serves_lengths_under_a_key_of_256_bits(rt: HostRuntime) -> Result<(), Fail> {
    let key: &[u8] = &[
        0x60, 0x3d, 0xeb, 0x10, 0x15, 0xca, 0x71, 0xbe, 0x2b, 0x73, 0xae, 0xf0, 0x85, 0x7d, 0x77,
        0x81, 0x1f, 0x35, 0x2c, 0x07, 0x3b, 0x61, 0x08, 0xd7, 0x2d, 0x98, 0x10, 0xa3, 0x09, 0x14,
        0xdf, 0xf4,
    ];
    let ciphertext: &[u128] = &[
        0xf58c4c04d6e5f1ba779eabfb5f7bfbd6,
        0x9cfc4e967edb808d679f777bc6702c7d,
        0x39f23369a9d9bacfa530e26304231461,
        0xb2eb05e2c39be9fcda6c19078c6a9d1b,
    ];
    let cases: [Case; 2] = [
        (key, IV, &PLAINTEXT[..3], &ciphertext[..3]),
        (key, IV, &PLAINTEXT, ciphertext),
    ];
    run_in_one_list::<Case, CbcKernel<14>>(&rt, rt.alloc(), &cases)
}
