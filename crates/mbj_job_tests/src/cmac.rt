use crate::compare::expect;
use crate::lists::{Tried, case_of, expect_no_rest, packet_of, run_in_one_list, schedule_of};
use mbj_aes::Schedule;
use mbj_cmac::{CmacEntry, CmacKernel, cmac_plain};
use std::alloc::{AllocError, Global};
use std::process::Abort;
use std::test::Fail;

/// The key of SP 800-38B, appendix D.1.
const KEY_128: [u8; 16] = [
    0x2b, 0x7e, 0x15, 0x16, 0x28, 0xae, 0xd2, 0xa6, 0xab, 0xf7, 0x15, 0x88, 0x09, 0xcf, 0x4f, 0x3c,
];

/// The message of SP 800-38B, appendix D, of which its examples take the first bytes.
const MESSAGE: [u8; 64] = [
    0x6b, 0xc1, 0xbe, 0xe2, 0x2e, 0x40, 0x9f, 0x96, 0xe9, 0x3d, 0x7e, 0x11, 0x73, 0x93, 0x17, 0x2a,
    0xae, 0x2d, 0x8a, 0x57, 0x1e, 0x03, 0xac, 0x9c, 0x9e, 0xb7, 0x6f, 0xac, 0x45, 0xaf, 0x8e, 0x51,
    0x30, 0xc8, 0x1c, 0x46, 0xa3, 0x5c, 0xe4, 0x11, 0xe5, 0xfb, 0xc1, 0x19, 0x1a, 0x0a, 0x52, 0xef,
    0xf6, 0x9f, 0x24, 0x45, 0xdf, 0x4f, 0x9b, 0x17, 0xad, 0x2b, 0x41, 0x7b, 0xe6, 0x6c, 0x37, 0x10,
];

/// A key, the first bytes of the message, and their CMAC.
type Case = (&'static [u8], &'static [u8], u128);

/// SP 800-38B, appendix D.1: the empty message, one whole block, and two whole blocks and a half.
#[test]
fn tags_are_those_of_the_standard(rt: HostRuntime) {
    let key = Schedule::expand(&KEY_128);
    expect_mac(&rt, &key, &MESSAGE[..0], 0xbb1d6929e95937287fa37d129b756746);
    expect_mac(
        &rt,
        &key,
        &MESSAGE[..16],
        0x070a16b46b4d4144f79bdd9dd04a287c,
    );
    expect_mac(
        &rt,
        &key,
        &MESSAGE[..40],
        0xdfa66747de9ae63030ca32611497c827,
    );
}

fn expect_mac(rt: &impl Abort, key: &Schedule, message: &[u8], wanted: u128) {
    let found = u128::from_be_bytes(cmac_plain(key, message));
    expect(rt, "mac", found, wanted);
}

impl<const N: usize> Tried<Case> for CmacKernel<N> {
    fn entry(
        rt: &impl Abort,
        alloc: Global,
        number: u8,
        case: &Case,
    ) -> Result<CmacEntry<N>, AllocError> {
        let (key, message, _) = *case;
        let key = schedule_of(rt, key);
        assert!(rt; key.rounds() as usize == N);
        let len = message.len();
        assert!(rt; len < 1000);
        let packet = packet_of(alloc, number, message)?;
        assert!(rt; 1 + len <= packet.len());
        Ok(CmacEntry::new(key, packet, 1, len as u32))
    }

    fn check(rt: &impl Abort, cases: &[Case], entry: CmacEntry<N>) {
        expect_no_rest(rt, entry.rest);
        let (packet, mac) = entry.into_parts();
        check_case(rt, cases, &packet, &mac);
    }
}

/// The packet is the case's, and the CMAC is what the case, and CMAC without lanes, have.
fn check_case(rt: &impl Abort, cases: &[Case], packet: &[u8], mac: &[u8; 16]) {
    let (case, message) = case_of(rt, cases, packet);
    let (key, text, tag) = *case;
    expect(rt, "message", message, text);
    expect(rt, "mac", *mac, tag.to_be_bytes());
    let plain = cmac_plain(&schedule_of(rt, key), text);
    expect(rt, "mac without lanes", plain, *mac);
}

// SP 800-38B, appendix D.1.
#[test]
fn one_list_serves_messages_of_every_length(rt: HostRuntime) -> Result<(), Fail> {
    let key: &[u8] = &KEY_128;
    let cases: [Case; 4] = [
        (key, &MESSAGE[..0], 0xbb1d6929e95937287fa37d129b756746),
        (key, &MESSAGE[..16], 0x070a16b46b4d4144f79bdd9dd04a287c),
        (key, &MESSAGE[..40], 0xdfa66747de9ae63030ca32611497c827),
        (key, &MESSAGE[..], 0x51f0bebf7e3b9d92fc49741779363cfe),
    ];
    run_in_one_list::<Case, CmacKernel<10>>(&rt, rt.alloc(), &cases)
}

// SP 800-38B, appendix D.3.
#[test]
fn one_list_serves_keys_of_256_bits(rt: HostRuntime) -> Result<(), Fail> {
    let key: &[u8] = &[
        0x60, 0x3d, 0xeb, 0x10, 0x15, 0xca, 0x71, 0xbe, 0x2b, 0x73, 0xae, 0xf0, 0x85, 0x7d, 0x77,
        0x81, 0x1f, 0x35, 0x2c, 0x07, 0x3b, 0x61, 0x08, 0xd7, 0x2d, 0x98, 0x10, 0xa3, 0x09, 0x14,
        0xdf, 0xf4,
    ];
    let cases: [Case; 3] = [
        (key, &MESSAGE[..], 0xe1992190549f6ed5696a2c056c315410),
        (key, &MESSAGE[..0], 0x028962f61b7bf89efc6b551f4667d983),
        (key, &MESSAGE[..40], 0xaaf3d8f1de5640c232f5b169b9c911e6),
    ];
    run_in_one_list::<Case, CmacKernel<14>>(&rt, rt.alloc(), &cases)
}
