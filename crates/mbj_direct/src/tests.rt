//! Vectors of the standards, and cuts at every place of a text.
mod gmac;
mod schedules;
mod texts;

use super::*;
use mbj_aes::Schedule;
use mbj_types::{Dir, HashName, MAX_CCM_AAD_BYTES, MAX_PACKET_BYTES};
use std::alloc::{AllocError, Global};
use std::process::Abort;
use std::test::Fail;

fn expect_bytes(rt: &impl Abort, found: &[u8], wanted: &str) {
    let mut bytes = [0; 64];
    let room = &mut bytes[..found.len().min(64)];
    assert!(rt; hex::decode_to_slice(wanted, room).is_ok());
    assert_eq!(rt; found, &*room);
}

fn expect_number(rt: &impl Abort, found: u128, wanted: u128) {
    assert_eq!(rt; found, wanted);
}

fn read<const N: usize>(rt: &impl Abort, hex: &str) -> [u8; N] {
    let mut bytes = [0; N];
    assert!(rt; hex::decode_to_slice(hex, &mut bytes).is_ok());
    bytes
}

/// SP 800-38B, appendix D.1 to D.3: the length of a key, the key and zeros behind it, and its subkeys.
const SUBKEYS: [(usize, &str, u128, u128); 3] = [
    (
        16,
        "2b7e151628aed2a6abf7158809cf4f3c00000000000000000000000000000000",
        0xfbeed618357133667c85e08f7236a8de,
        0xf7ddac306ae266ccf90bc11ee46d513b,
    ),
    (
        24,
        "8e73b0f7da0e6452c810f32b809079e562f8ead2522c6b7b0000000000000000",
        0x448a5b1c93514b273ee6439dd4daa296,
        0x8914b63926a2964e7dcc873ba9b5452c,
    ),
    (
        32,
        "603deb1015ca71be2b73aef0857d77811f352c073b6108d72d9810a30914dff4",
        0xcad1ed03299eedac2e9a99808621502f,
        0x95a3da06533ddb585d3533010c42a0d9,
    ),
];

fn check_subkeys(rt: &impl Abort, len: usize, key: &str, first: u128, second: u128) {
    let key: [u8; 32] = read(rt, key);
    assert!(rt; matches!(len, 16 | 24 | 32));
    let subkeys = cmac_subkeys(&Schedule::expand(&key[..len]));
    expect_number(rt, u128::from_be_bytes(subkeys.first), first);
    expect_number(rt, u128::from_be_bytes(subkeys.second), second);
}

#[test]
fn subkeys_are_those_of_sp_800_38b(rt: HostRuntime) {
    for (len, key, first, second) in SUBKEYS {
        check_subkeys(&rt, len, key, first, second);
    }
}

/// FIPS 180-4's examples: the digests of "abc".
const DIGESTS: [(HashName, &str); 5] = [
    (HashName::Sha1, "a9993e364706816aba3e25717850c26c9cd0d89d"),
    (
        HashName::Sha224,
        "23097d223405d8228642a477bda255b32aadbce4bda0b3f7e36c9da7",
    ),
    (
        HashName::Sha256,
        "ba7816bf8f01cfea414140de5dae2223b00361a396177a9cb410ff61f20015ad",
    ),
    (
        HashName::Sha384,
        "cb00753f45a35e8bb5a03d699ac65007272c32ab0eded1631a8b605a43ff5bed8086072ba1e7cc2358baeca134c825a7",
    ),
    (
        HashName::Sha512,
        "ddaf35a193617abacc417349ae20413112e6fa4e89a97ea20a9eeee64b55d39a2192992a274fc1a836ba3c23a3feebbd454d4423643ce80e2a9ac94fa54ca49f",
    ),
];

#[test]
fn digests_are_those_of_the_standard(rt: HostRuntime) {
    for (hash, digest) in DIGESTS {
        expect_bytes(&rt, digest_of(hash, b"abc").bytes(), digest);
    }
}
