use crate::compare::expect;
use crate::lists::{Tried, case_of, expect_no_rest, packet_of, run_in_one_list, schedule_of};
use mbj_ccm::{CcmEntry, CcmKernel, apply, apply_and_mask, mask, opening_undoes_sealing};
use mbj_types::{MAX_CCM_AAD_BYTES, MAX_PACKET_BYTES, xor_in_place};
use std::alloc::{AllocError, Global};
use std::process::Abort;
use std::test::Fail;

mod vectors;

use vectors::{KEY_C, LONG, RFC_3610_FIRST, RFC_3610_SECOND, Row, SP_800_38C};

/// A row in bytes. Of a long ciphertext there are the last bytes alone.
#[derive(Drop)]
struct Case {
    key: Vec<u8>,
    nonce: Vec<u8>,
    aad: Vec<u8>,
    plaintext: Vec<u8>,
    ciphertext: Vec<u8>,
    tag: Vec<u8>,
}

/// The longest plaintext of a case.
const MOST_BYTES: usize = 1_500;

fn bytes_of(rt: &impl Abort, alloc: Global, hex: &str) -> Vec<u8> {
    hex::decode(alloc, hex).expect(rt, "hex")
}

fn case_of_row(rt: &impl Abort, alloc: Global, row: &Row) -> Result<Case, AllocError> {
    let (key, nonce, aad, plaintext, sealed) = *row;
    let plaintext = bytes_of(rt, alloc, plaintext);
    let sealed = bytes_of(rt, alloc, sealed);
    assert!(rt; plaintext.len() <= sealed.len());
    let (ciphertext, tag) = sealed.split_at(plaintext.len());
    Ok(Case {
        key: bytes_of(rt, alloc, key),
        nonce: bytes_of(rt, alloc, nonce),
        aad: bytes_of(rt, alloc, aad),
        ciphertext: Vec::from_slice(alloc, ciphertext)?,
        tag: Vec::from_slice(alloc, tag)?,
        plaintext,
    })
}

fn cases_of(rt: &impl Abort, alloc: Global, rows: &[Row]) -> Result<Vec<Case>, AllocError> {
    let mut cases = Vec::new(alloc);
    for row in rows {
        cases.push(case_of_row(rt, alloc, row)?)?;
    }
    Ok(cases)
}

impl<const N: usize> Tried<Case> for CcmKernel<N> {
    fn entry(
        rt: &impl Abort,
        alloc: Global,
        number: u8,
        case: &Case,
    ) -> Result<CcmEntry<N>, AllocError> {
        let key = schedule_of(rt, &case.key);
        assert!(rt; key.rounds() as usize == N);
        let nonce = Vec::from_slice(alloc, &case.nonce)?;
        assert!(rt; 7 <= nonce.len() && nonce.len() <= 13);
        let aad = Vec::from_slice(alloc, &case.aad)?;
        assert!(rt; aad.len() <= MAX_CCM_AAD_BYTES);
        let len = case.plaintext.len();
        assert!(rt; len <= MOST_BYTES);
        let packet = packet_of(alloc, number, &case.plaintext)?;
        assert!(rt; 1 + len <= packet.len() && packet.len() <= MAX_PACKET_BYTES);
        let tag_len = case.tag.len();
        assert!(rt; 4 <= tag_len && tag_len <= 16 && tag_len % 2 == 0);
        Ok(CcmEntry::new(key, nonce, aad, packet, 1, len as u32, tag_len as u8))
    }

    fn check(rt: &impl Abort, cases: &[Case], entry: CcmEntry<N>) {
        expect_no_rest(rt, entry.rest);
        let (packet, nonce, aad, mac) = entry.into_parts();
        let (case, plaintext) = case_of(rt, cases, &packet);
        expect(rt, "plaintext", plaintext, case.plaintext.as_slice());
        expect(rt, "nonce", nonce.as_slice(), case.nonce.as_slice());
        expect(rt, "data", aad.as_slice(), case.aad.as_slice());
        check_sealed(rt, case, &mac);
    }
}

/// The plaintext becomes the ciphertext, the MAC with its mask the tag, and the ciphertext the plaintext again.
fn check_sealed(rt: &impl Abort, case: &Case, mac: &[u8; 16]) {
    let key = schedule_of(rt, &case.key);
    let nonce = case.nonce.as_slice();
    assert!(rt; 7 <= nonce.len() && nonce.len() <= 13);
    let len = case.plaintext.len();
    assert!(rt; len <= MOST_BYTES);
    let mut room = [0; MOST_BYTES];
    let text = &mut room[..len];
    text.copy_from_slice(&case.plaintext);

    let mut tag = apply_and_mask(&key, nonce, text);
    expect(rt, "mask", mask(&key, nonce), tag);
    xor_in_place(&mut tag, mac);
    expect_end(rt, text, &case.ciphertext);
    assert!(rt; case.tag.len() <= tag.len());
    expect(rt, "tag", &tag[..case.tag.len()], case.tag.as_slice());

    apply(&key, nonce, text);
    expect(rt, "opened", &*text, case.plaintext.as_slice());
}

/// Compares the last bytes of a ciphertext.
fn expect_end(rt: &impl Abort, ciphertext: &[u8], wanted: &[u8]) {
    assert!(rt; wanted.len() <= ciphertext.len());
    let first = ciphertext.len() - wanted.len();
    expect(rt, "ciphertext", &ciphertext[first..], wanted);
}

#[test]
fn packets_are_sealed_as_in_rfc_3610(rt: HostRuntime) -> Result<(), Fail> {
    let alloc = rt.alloc();
    let first = cases_of(&rt, alloc, &RFC_3610_FIRST)?;
    run_in_one_list::<Case, CcmKernel<10>>(&rt, alloc, &first)?;
    let second = cases_of(&rt, alloc, &RFC_3610_SECOND)?;
    run_in_one_list::<Case, CcmKernel<10>>(&rt, alloc, &second)
}

#[test]
fn packets_are_sealed_as_in_sp_800_38c(rt: HostRuntime) -> Result<(), Fail> {
    let alloc = rt.alloc();
    let cases = cases_of(&rt, alloc, &SP_800_38C)?;
    opening_undoes_sealing();
    run_in_one_list::<Case, CcmKernel<10>>(&rt, alloc, &cases)
}

// Neither document has longer keys: what these are sealed to is OpenSSL's. The first has no additional data, the other
// no text.
#[test]
fn keys_of_192_and_256_bits_seal(rt: HostRuntime) -> Result<(), Fail> {
    let alloc = rt.alloc();
    let row: Row = (
        "404142434445464748494a4b4c4d4e4f5051525354555657",
        "101112131415161718191a1b",
        "",
        "202122232425262728292a2b2c2d2e2f3031323334353637",
        "8081316fd89624d62ce7637fb94995b6631c50d61586de01e7f15c763f351f83de032e2938bc6049",
    );
    let cases = cases_of(&rt, alloc, &[row])?;
    run_in_one_list::<Case, CcmKernel<12>>(&rt, alloc, &cases)?;
    let row: Row = (
        "404142434445464748494a4b4c4d4e4f505152535455565758595a5b5c5d5e5f",
        "101112131415161718191a1b1c",
        "000102030405060708090a0b0c0d0e0f10111213",
        "",
        "18a61eded8d0f710418e59f2cd4a254c",
    );
    let cases = cases_of(&rt, alloc, &[row])?;
    run_in_one_list::<Case, CcmKernel<14>>(&rt, alloc, &cases)
}

fn long_case(rt: &impl Abort, alloc: Global, len: usize, end: &str) -> Result<Case, AllocError> {
    let end = bytes_of(rt, alloc, end);
    assert!(rt; end.len() == 32);
    let (ciphertext, tag) = end.split_at(16);
    Ok(Case {
        key: bytes_of(rt, alloc, KEY_C),
        nonce: bytes_of(rt, alloc, "101112131415161718191a1b"),
        aad: vec![in alloc; 0; 300]?,
        plaintext: vec![in alloc; 0; len]?,
        ciphertext: Vec::from_slice(alloc, ciphertext)?,
        tag: Vec::from_slice(alloc, tag)?,
    })
}

// The mask's counter goes through the lanes with 15 blocks of text in a narrow pass and with 31 in a wide one.
#[test]
fn texts_about_the_ends_of_passes_are_sealed(rt: HostRuntime) -> Result<(), Fail> {
    let alloc = rt.alloc();
    let mut cases = Vec::new(alloc);
    for (len, end) in LONG {
        cases.push(long_case(&rt, alloc, len, end)?)?;
    }
    run_in_one_list::<Case, CcmKernel<10>>(&rt, alloc, &cases)
}
