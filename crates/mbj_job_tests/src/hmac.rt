ghost use Rattle.std.specs.Prelude.{◌≡◌};
ghost use Rattle.mbj_hmac.specs.Names.{serves_auth, serves_plain, serves_states};

use crate::compare::expect;
use crate::lists::{Tried, case_of, expect_no_rest, packet_of, run_in_one_list};
use mbj_hmac::{
    HmacEntry, HmacKernel, LaneHash, Sha1Lanes, Sha256Lanes, Sha512Lanes, hmac_plain, pad_key,
};
use mbj_types::{Auth, Tag};
use std::alloc::{AllocError, Global};
use std::process::Abort;
use std::test::Fail;

/// The messages and keys of RFC 2202 and RFC 4231.
const HI_THERE: &[u8] = b"Hi There";

const LARGE: &[u8] = b"Test Using Larger Than Block-Size Key - Hash Key First";

const LARGER: &[u8] =
    b"This is a test using a larger than block-size key and a larger than block-size data. The key needs to be hashed before being used by the HMAC algorithm.";

const QUESTION: &[u8] = b"what do ya want for nothing?";

/// A key and a message, and the tag that they have, in hex.
pub(crate) type Case = (Auth, &'static [u8], &'static [u8], &'static str);

/// Cases beside those of the lists.
const PLAIN_CASES: [Case; 3] = [
    (
        Auth::HmacSha224,
        &[0x0b; 20],
        HI_THERE,
        "896fb1128abbdf196832107cd49df33f47b4b1169912ba4f53684b22",
    ),
    (
        Auth::HmacSha384,
        &[0x0b; 20],
        HI_THERE,
        "afd03944d84895626b0825f4ab46907f15f9dadbe4101ec682aa034c7cebc59cfaea9ea9076ede7f4af152e8b2fa9cb6",
    ),
    (
        Auth::HmacSha256,
        b"Jefe",
        QUESTION,
        "5bdcc146bf60754e6a042426089575c75a003f089d2739839dec58b964ec3843",
    ),
];

/// The case's tag by HMAC without lanes.
fn plain_tag(rt: &impl Abort, case: &Case) -> Tag {
    let (auth, key, message, _) = *case;
    assert!(rt;
        matches!(
            auth,
            Auth::HmacSha1
                | Auth::HmacSha224
                | Auth::HmacSha256
                | Auth::HmacSha384
                | Auth::HmacSha512
        )
    );
    hmac_plain(auth, key, message)
}

/// The tag is what the case has.
pub(crate) fn check_tag(rt: &impl Abort, case: &Case, tag: &[u8]) {
    expect_hex(rt, case.3, tag);
}

/// The tag is this one in hex.
pub(crate) fn expect_hex(rt: &impl Abort, expected: &str, tag: &[u8]) {
    let mut wanted = [0; 64];
    assert!(rt; tag.len() <= wanted.len());
    let wanted = &mut wanted[..tag.len()];
    assert!(rt; hex::decode_to_slice(expected, wanted).is_ok());
    expect(rt, expected, tag, &*wanted);
}

fn check_plain(rt: &impl Abort, cases: &[Case]) {
    for case in cases {
        check_tag(rt, case, plain_tag(rt, case).bytes());
    }
}

#[test]
fn the_tags_of_the_standards_come_out(rt: HostRuntime) {
    check_plain(&rt, &PLAIN_CASES);
    check_plain(&rt, &SHA1_CASES);
    check_plain(&rt, &SHA256_CASES);
    check_plain(&rt, &SHA512_CASES);
}

#[test]
fn a_key_is_padded_to_its_block(rt: HostRuntime) {
    let block = pad_key(Auth::HmacSha256, b"Jefe");
    expect(&rt, "key", &block[..4], b"Jefe");
    expect(&rt, "zeros", &block[4..], &[0; 124]);
    let whole = pad_key(Auth::HmacSha512, &[7; 128]);
    expect(&rt, "whole", whole, [7; 128]);
}

/// Hashes whose lanes tell which authentications they serve.
pub(crate) trait Serving: LaneHash {
    /// Whether it is the HMAC of a hash that is served.
    fn takes(auth: Auth) -> bool
        ensures { result ≡ serves_auth Self.hashing auth };

    /// Whether it is the digest of a hash that is served.
    fn takes_plain(auth: Auth) -> bool
        ensures { result ≡ serves_plain Self.hashing auth };

    /// Whether it is the HMAC from states of a hash that is served.
    fn takes_states(auth: Auth) -> bool
        ensures { result ≡ serves_states Self.hashing auth };
}

impl Serving for Sha1Lanes {
    fn takes(auth: Auth) -> bool {
        matches!(auth, Auth::HmacSha1)
    }

    fn takes_plain(auth: Auth) -> bool {
        matches!(auth, Auth::Sha1)
    }

    fn takes_states(auth: Auth) -> bool {
        matches!(auth, Auth::HmacSha1States)
    }
}

impl Serving for Sha256Lanes {
    fn takes(auth: Auth) -> bool {
        matches!(auth, Auth::HmacSha224 | Auth::HmacSha256)
    }

    fn takes_plain(auth: Auth) -> bool {
        matches!(auth, Auth::Sha224 | Auth::Sha256)
    }

    fn takes_states(auth: Auth) -> bool {
        matches!(auth, Auth::HmacSha224States | Auth::HmacSha256States)
    }
}

impl Serving for Sha512Lanes {
    fn takes(auth: Auth) -> bool {
        matches!(auth, Auth::HmacSha384 | Auth::HmacSha512)
    }

    fn takes_plain(auth: Auth) -> bool {
        matches!(auth, Auth::Sha384 | Auth::Sha512)
    }

    fn takes_states(auth: Auth) -> bool {
        matches!(auth, Auth::HmacSha384States | Auth::HmacSha512States)
    }
}

impl<H: Serving> Tried<Case> for HmacKernel<H> {
    fn entry(
        rt: &impl Abort,
        alloc: Global,
        number: u8,
        case: &Case,
    ) -> Result<HmacEntry<H>, AllocError> {
        let (auth, key, message, _) = *case;
        assert!(rt; H::takes(auth));
        assert!(rt; message.len() < 1000);
        let packet = packet_of(alloc, number, message)?;
        assert!(rt; 1 + message.len() <= packet.len());
        Ok(HmacEntry::new(auth, key, packet, 1, message.len() as u32))
    }

    fn check(rt: &impl Abort, cases: &[Case], entry: HmacEntry<H>) {
        expect_no_rest(rt, entry.rest);
        let (packet, tag) = entry.into_parts();
        check_case(rt, cases, &packet, tag.bytes());
    }
}

/// The packet is the case's, and the tag is what the case, and HMAC without lanes, have.
fn check_case(rt: &impl Abort, cases: &[Case], packet: &[u8], tag: &[u8]) {
    let (case, message) = case_of(rt, cases, packet);
    expect(rt, "message", message, case.2);
    check_tag(rt, case, tag);
    expect(rt, "tag without lanes", plain_tag(rt, case).bytes(), tag);
}

pub(crate) const SHA1_CASES: [Case; 6] = [
    (
        Auth::HmacSha1,
        &[0x0b; 20],
        HI_THERE,
        "b617318655057264e28bc0b6fb378c8ef146be00",
    ),
    (
        Auth::HmacSha1,
        b"Jefe",
        QUESTION,
        "effcdf6ae5eb2fa2d27416d5f184df9c259a7c79",
    ),
    (
        Auth::HmacSha1,
        &[0xaa; 20],
        &[0xdd; 50],
        "125d7342b9ac11cd91a39af48aa17b4f63f175d3",
    ),
    (
        Auth::HmacSha1,
        &[0xaa; 80],
        LARGE,
        "aa4ae5e15272d00e95705637ce8a3b55ed402112",
    ),
    (
        Auth::HmacSha1,
        b"Jefe",
        &[],
        "09d9e59d72239e62a8155c583d52743de9b7231a",
    ),
    (
        Auth::HmacSha1,
        b"Jefe",
        &[0x61; 200],
        "ac12229e04dd20bda1f8c09a52058abea80f53ce",
    ),
];

#[test]
fn one_list_of_sha1_serves_all_lengths(rt: HostRuntime) -> Result<(), Fail> {
    run_in_one_list::<Case, HmacKernel<Sha1Lanes>>(&rt, rt.alloc(), &SHA1_CASES)
}

pub(crate) const SHA256_CASES: [Case; 6] = [
    (
        Auth::HmacSha256,
        &[0x0b; 20],
        HI_THERE,
        "b0344c61d8db38535ca8afceaf0bf12b881dc200c9833da726e9376c2e32cff7",
    ),
    (
        Auth::HmacSha224,
        b"Jefe",
        QUESTION,
        "a30e01098bc6dbbf45690f3a7e9e6d0f8bbea2a39e6148008fd05e44",
    ),
    (
        Auth::HmacSha256,
        &[0xaa; 131],
        LARGE,
        "60e431591ee0b67f0d8a26aacbf5b77f8e0bc6213728c5140546040f0ee37f54",
    ),
    (
        Auth::HmacSha224,
        &[0xaa; 131],
        LARGER,
        "3a854166ac5d9f023f54d517d0b39dbd946770db9c2b95c9f6f565d1",
    ),
    (
        Auth::HmacSha256,
        b"Jefe",
        &[],
        "923598ca6d64af2a5dba79dcd021a8a0fe5c5f557519adaaf0ad532d4506dd30",
    ),
    (
        Auth::HmacSha224,
        b"Jefe",
        &[0x61; 200],
        "f013fe31bfe45fe7ad88ae8884727e3c4750ee96b6397ded346592b6",
    ),
];

#[test]
fn one_list_serves_sha224_and_sha256(rt: HostRuntime) -> Result<(), Fail> {
    run_in_one_list::<Case, HmacKernel<Sha256Lanes>>(&rt, rt.alloc(), &SHA256_CASES)
}

pub(crate) const SHA512_CASES: [Case; 8] = [
    (
        Auth::HmacSha512,
        &[0x0b; 20],
        HI_THERE,
        "87aa7cdea5ef619d4ff0b4241a1d6cb02379f4e2ce4ec2787ad0b30545e17cdedaa833b7d6b8a702038b274eaea3f4e4be9d914eeb61f1702e696c203a126854",
    ),
    (
        Auth::HmacSha384,
        b"Jefe",
        QUESTION,
        "af45d2e376484031617f78d2b58a6b1b9c7ef464f5a01b47e42ec3736322445e8e2240ca5e69e2c78b3239ecfab21649",
    ),
    (
        Auth::HmacSha384,
        &[0xaa; 131],
        LARGER,
        "6617178e941f020d351e2f254e8fd32c602420feb0b8fb9adccebb82461e99c5a678cc31e799176d3860e6110c46523e",
    ),
    (
        Auth::HmacSha512,
        b"Jefe",
        &[0x61; 300],
        "08d8d44bfa31d244942372428106c09456f2ea22c8323b114327155aa202c581582dc8967c12efe17307a0969614ce8b2838f8832a6de3cf9298f3250555e55a",
    ),
    (
        Auth::HmacSha512,
        b"Jefe",
        QUESTION,
        "164b7a7bfcf819e2e395fbe73b56e0a387bd64222e831fd610270cd7ea2505549758bf75c05a994a6d034f65f8f0e6fdcaeab1a34d4a6b4b636e070a38bce737",
    ),
    (
        Auth::HmacSha384,
        &[0xaa; 20],
        &[0xdd; 50],
        "88062608d3e6ad8a0aa2ace014c8a86f0aa635d947ac9febe83ef4e55966144b2a5ab39dc13814b94e3ab6e101a34f27",
    ),
    (
        Auth::HmacSha512,
        &[0xaa; 131],
        LARGE,
        "80b24263c7c1a3ebb71493c1dd7be8b49b46d1f41b4aeec1121b013783f8f3526b56d037e05f2598bd0fd2215d6a1e5295e64f73f63f0aec8b915a985d786598",
    ),
    (
        Auth::HmacSha384,
        b"Jefe",
        &[],
        "99e07b65e0bfdedd41f44a433e51475a027ef03fe6c9bb6ecf67a700d375dae3863d8b5c3ff63c693d942a291add2e78",
    ),
];

#[test]
fn one_list_serves_sha384_and_sha512(rt: HostRuntime) -> Result<(), Fail> {
    run_in_one_list::<Case, HmacKernel<Sha512Lanes>>(&rt, rt.alloc(), &SHA512_CASES)
}
