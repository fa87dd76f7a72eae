use super::runs::Run;
use super::texts::{Repeat, repeated};
use super::{RUN, compare};

/// RFC 2202, test case 1, whole and with a tag of 12 bytes as IPsec has it, and RFC 4231, test case 2.
const HMAC_JOBS: [&str; 6] = [
    "null enc ch - - 0 0 hmac-sha1 0b0b0b0b0b0b0b0b0b0b0b0b0b0b0b0b0b0b0b0b - 0 8 20 4869205468657265\n => 0 ok 4869205468657265 b617318655057264e28bc0b6fb378c8ef146be00\n",
    " => ",
    "null enc ch - - 0 0 hmac-sha1 0b0b0b0b0b0b0b0b0b0b0b0b0b0b0b0b0b0b0b0b - 0 8 20 4869205468657265\r\n => 0 ok 4869205468657265 b617318655057264e28bc0b6fb378c8ef146be00\n",
    "null enc ch - - 0 0 hmac-sha1 0b0b0b0b0b0b0b0b0b0b0b0b0b0b0b0b0b0b0b0b - 0 8 12 4869205468657265\r\n => 0 ok 4869205468657265 b617318655057264e28bc0b6\n",
    "null enc hc - - 0 0 hmac-sha256 4A656665 - 0 28 16 7768617420646F2079612077616E7420666F72206E6F7468696E673F => 0 ok 7768617420646f2079612077616e7420666f72206e6f7468696e673f 5bdcc146bf60754e6a042426089575c7\n",
    "null enc ch - - 0 0 hmac-sha1 - - 1 8 20 4869205468657265\n => 0 invalid-args 8\n",
];

#[test]
fn hmac_jobs_are_done(rt: HostRuntime) {
    compare(&rt, rt.alloc(), 0, &HMAC_JOBS);
}

const REFUSED_JOBS: [&str; 7] = [
    "null enc ch - - 0 0 null - - 0 0 0 -\n => 0 ok - -\n",
    "null enc ch - - 0 0 null - - 0 0 1 -\n => 0 invalid-args 10\n",
    "gcm enc ch - - 0 0 null - - 0 0 0 -\n => 0 invalid-args 2\n",
    "# a key of 15 bytes\nnull enc ch - - 0 0 null - - 0 0 0 -\ncbc enc ch 000102030405060708090a0b0c0d0e - 0 0 null - - 0 0 0 -\nnull enc ch - - 0 0 null - - 0 0 0 - => 0 ok - -\n1 invalid-args 3\n2 ok - -\n",
    "null enc ch - - 0 0 hmac-sha1 0b0b0b0b0b0b0b0b0b0b0b0b0b0b0b0b0b0b0b0b - 0 8 20 4869205468657265\ncbc enc ch 000102030405060708090a0b0c0d0e - 0 0 null - - 0 0 0 -\nnull enc ch - - 0 0 hmac-sha1 0b0b0b0b0b0b0b0b0b0b0b0b0b0b0b0b0b0b0b0b - 0 8 20 4869205468657265\n => 0 ok 4869205468657265 b617318655057264e28bc0b6fb378c8ef146be00\n1 invalid-args 3\n2 ok 4869205468657265 b617318655057264e28bc0b6fb378c8ef146be00\n",
    "cbc enc ch 2b7e151628aed2a6abf7158809cf4f3c 000102030405060708090a0b0c0d0e0f 0 17 null - - 0 0 0 6bc1bee22e409f96e93d7e117393172aae\n => 0 invalid-args 6\n",
    "cbc enc ch 2b7e151628aed2a6abf7158809cf4f3c 000102030405060708090a0b0c0d0e0f 0 17 null - - 0 0 0 6bc1bee22e409f96e93d7e117393172a\n => 0 invalid-args 5\n",
];

#[test]
fn refused_jobs_keep_their_place(rt: HostRuntime) {
    compare(&rt, rt.alloc(), 0, &REFUSED_JOBS);
}

/// SP 800-38A, F.2.1 and F.5.1; the last job's text is cut.
const CIPHERED_TEXTS: [&str; 4] = [
    "cbc enc ch 2b7e151628aed2a6abf7158809cf4f3c 000102030405060708090a0b0c0d0e0f 0 16 null - - 0 0 0 6bc1bee22e409f96e93d7e117393172a\n => 0 ok 7649abac8119b246cee98e9b12e9197d -\n",
    "# test\n\ncbc enc ch 2B7E151628AED2A6ABF7158809CF4F3C 000102030405060708090a0b0c0d0e0f 0 16 null - - 0 0 0 6BC1BEE22E409F96E93D7E117393172A\r\ncbc enc ch 2B7E151628AED2A6ABF7158809CF4F3C 000102030405060708090a0b0c0d0e0f 0 16 null - - 0 0 0 6BC1BEE22E409F96E93D7E117393172A => 0 ok 7649abac8119b246cee98e9b12e9197d -\n1 ok 7649abac8119b246cee98e9b12e9197d -\n",
    "# upper case, CR and no last LF\n\ncbc enc ch 2B7E151628AED2A6ABF7158809CF4F3C 000102030405060708090a0b0c0d0e0f 0 16 null - - 0 0 0 6BC1BEE22E409F96E93D7E117393172A\r\ncbc dec ch 2b7e151628aed2a6abf7158809cf4f3c 000102030405060708090a0b0c0d0e0f 0 16 null - - 0 0 0 7649abac8119b246cee98e9b12e9197d => 0 ok 7649abac8119b246cee98e9b12e9197d -\n1 ok 6bc1bee22e409f96e93d7e117393172a -\n",
    "ctr enc ch 2b7e151628aed2a6abf7158809cf4f3c f0f1f2f3f4f5f6f7f8f9fafbfcfdfeff 0 3 null - - 0 0 0 6bc1be\n => 0 ok 874d61 -\n",
];

#[test]
fn texts_are_ciphered(rt: HostRuntime) {
    compare(&rt, rt.alloc(), 0, &CIPHERED_TEXTS);
}

/// SP 800-38B in both orders, and the GCM specification's test cases 1 and 2.
const TAGGED_TEXTS: [&str; 7] = [
    "cbc enc hc 2b7e151628aed2a6abf7158809cf4f3c 000102030405060708090a0b0c0d0e0f 0 16 cmac128 2b7e151628aed2a6abf7158809cf4f3c - 0 16 16 6bc1bee22e409f96e93d7e117393172a\n => 0 ok 7649abac8119b246cee98e9b12e9197d 070a16b46b4d4144f79bdd9dd04a287c\n",
    "cbc dec ch 2b7e151628aed2a6abf7158809cf4f3c 000102030405060708090a0b0c0d0e0f 0 16 cmac128 2b7e151628aed2a6abf7158809cf4f3c - 0 16 16 7649abac8119b246cee98e9b12e9197d\n => 0 ok 6bc1bee22e409f96e93d7e117393172a 070a16b46b4d4144f79bdd9dd04a287c\n",
    "cbc enc ch 2b7e151628aed2a6abf7158809cf4f3c 000102030405060708090a0b0c0d0e0f 0 16 cmac128 2b7e151628aed2a6abf7158809cf4f3c - 0 16 16 6bc1bee22e409f96e93d7e117393172a\nnull enc ch - - 0 0 cmac128 2b7e151628aed2a6abf7158809cf4f3c - 0 16 16 7649abac8119b246cee98e9b12e9197d\n => 0 ok 7649abac8119b246cee98e9b12e9197d a758d79234b33c0166c97ecb7a5311e9\n1 ok 7649abac8119b246cee98e9b12e9197d a758d79234b33c0166c97ecb7a5311e9\n",
    "null enc ch - - 0 0 cmac128 2b7e151628aed2a6abf7158809cf4f3c - 0 0 16 -\n => 0 ok - bb1d6929e95937287fa37d129b756746\n",
    "gcm enc ch 00000000000000000000000000000000 000000000000000000000000 0 0 gcm - - 0 0 16 -\n => 0 ok - 58e2fccefa7e3061367f1d57a4e7455a\n",
    "gcm enc ch 00000000000000000000000000000000 000000000000000000000000 0 16 gcm - - 0 0 16 00000000000000000000000000000000\n => 0 ok 0388dace60b6a392f328c2b971b2fe78 ab6e47d42cec13bdf53a67b21257bddf\n",
    "gcm dec ch 00000000000000000000000000000000 000000000000000000000000 0 16 gcm - - 0 0 16 0388dace60b6a392f328c2b971b2fe78\n => 0 ok 00000000000000000000000000000000 ab6e47d42cec13bdf53a67b21257bddf\n",
];

#[test]
fn cmac_and_gcm_jobs_are_done(rt: HostRuntime) {
    compare(&rt, rt.alloc(), 0, &TAGGED_TEXTS);
}

/// SP 800-38C, examples 1 to 3 (appendix C), the first in both directions, and jobs that aren't CCM's.
const CCM_TEXTS: [&str; 6] = [
    "ccm enc ch 404142434445464748494a4b4c4d4e4f 10111213141516 0 4 ccm - 0001020304050607 0 0 4 20212223\n => 0 ok 7162015b 4dac255d\n",
    "ccm dec hc 404142434445464748494a4b4c4d4e4f 10111213141516 0 4 ccm - 0001020304050607 0 0 4 7162015b\n => 0 ok 20212223 4dac255d\n",
    "ccm enc ch 404142434445464748494a4b4c4d4e4f 1011121314151617 0 16 ccm - 000102030405060708090a0b0c0d0e0f 0 0 6 202122232425262728292a2b2c2d2e2f\n => 0 ok d2a1f0e051ea5f62081a7792073d593d 1fc64fbfaccd\n",
    "ccm enc ch 404142434445464748494a4b4c4d4e4f 101112131415161718191a1b 0 24 ccm - 000102030405060708090a0b0c0d0e0f10111213 0 0 8 202122232425262728292a2b2c2d2e2f3031323334353637\n => 0 ok e3b201a9f5b71a7a9b1ceaeccd97e70b6176aad9a4428aa5 484392fbc1b09951\n",
    "ccm enc ch 404142434445464748494a4b4c4d4e4f 10111213141516 0 4 ccm - 0001020304050607 0 0 5 20212223\n => 0 invalid-args 10\n",
    "ccm enc ch 404142434445464748494a4b4c4d4e4f 10111213141516 0 4 null - 0001020304050607 0 0 0 20212223\n => 0 invalid-args 2\n",
];

#[test]
fn ccm_jobs_are_done(rt: HostRuntime) {
    compare(&rt, rt.alloc(), 0, &CCM_TEXTS);
}

/// The first example of FIPS 180 and the GCM specification's test case 1 as GMAC. A plain hash ignores the key, and GMAC goes with no cipher.
const HASHED_TEXTS: [&str; 4] = [
    "null enc ch - - 0 0 sha1 - - 0 3 20 616263\n => 0 ok 616263 a9993e364706816aba3e25717850c26c9cd0d89d\n",
    "null enc hc - 00 0 0 sha256 2b7e - 0 3 32 616263\n => 0 ok 616263 ba7816bf8f01cfea414140de5dae2223b00361a396177a9cb410ff61f20015ad\n",
    "null enc ch - 000000000000000000000000 0 0 gmac 00000000000000000000000000000000 - 0 0 16 -\n => 0 ok - 58e2fccefa7e3061367f1d57a4e7455a\n",
    "ctr enc ch 2b7e151628aed2a6abf7158809cf4f3c 000000000000000000000000 0 1 gmac 00000000000000000000000000000000 - 0 0 16 00\n => 0 invalid-args 2\n",
];

#[test]
fn plain_hashes_and_gmac_are_done(rt: HostRuntime) {
    compare(&rt, rt.alloc(), 0, &HASHED_TEXTS);
}

/// RFC 2202, test case 6: the packet is `Test Using Larger Than Block-Size Key - Hash Key First`.
const LONG_KEYS: [&str; 1] = [
    "null enc ch - - 0 0 hmac-sha1 aaaaaaaaaaaaaaaaaaaaaaaaaaaaaaaaaaaaaaaaaaaaaaaaaaaaaaaaaaaaaaaaaaaaaaaaaaaaaaaaaaaaaaaaaaaaaaaaaaaaaaaaaaaaaaaaaaaaaaaaaaaaaaaaaaaaaaaaaaaaaaaaaaaaaaaaaaaaaaaa - 0 54 20 54657374205573696e67204c6172676572205468616e20426c6f636b2d53697a65204b6579202d2048617368204b6579204669727374\n => 0 ok 54657374205573696e67204c6172676572205468616e20426c6f636b2d53697a65204b6579202d2048617368204b6579204669727374 aa4ae5e15272d00e95705637ce8a3b55ed402112\n",
];

#[test]
fn a_key_longer_than_a_block_is_hashed(rt: HostRuntime) {
    compare(&rt, rt.alloc(), 0, &LONG_KEYS);
}

/// CTR over two zero blocks under the zero key, with a counter of 16 bytes ff. It is followed by 0: the blocks are those of
/// AESAVS for the last variable text and for the zero text.
const WRAPPED_COUNTERS: [&str; 1] = [
    "ctr enc ch 00000000000000000000000000000000 ffffffffffffffffffffffffffffffff 0 32 null - - 0 0 0 0000000000000000000000000000000000000000000000000000000000000000\n => 0 ok 3f5b8cc9ea855a0afa7347d23e8d664e66e94bd4ef8a2c3b884cfa59ca342b2e -\n",
];

#[test]
fn a_counter_wraps_at_128_bits(rt: HostRuntime) {
    compare(&rt, rt.alloc(), 0, &WRAPPED_COUNTERS);
}

/// A job over 65,535 zero bytes, and its result. The tag is Python's `hmac.new(b"", b"\0" * 65535, "sha1")`.
const LONGEST_JOB: [Repeat; 3] = [
    ("null enc ch - - 0 0 hmac-sha1 - - 0 65535 20 ", 1),
    ("00", 65_535),
    ("\n", 1),
];

const LONGEST_RESULT: [Repeat; 3] = [
    ("0 ok ", 1),
    ("00", 65_535),
    (" 51b4ef92c827825fd45f26155bd57c7a02608f5e\n", 1),
];

#[test]
fn the_longest_packet_is_done(rt: HostRuntime) {
    let file = repeated(rt.alloc(), &LONGEST_JOB).expect(&rt, "memory");
    let text = repeated(rt.alloc(), &LONGEST_RESULT).expect(&rt, "memory");
    Run::new(RUN, file.as_bytes()).check(&rt, rt.alloc(), 0, text.as_bytes());
}
