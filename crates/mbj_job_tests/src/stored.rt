//! States that are stored, and HMACs from the states of a key in lists.
ghost use Rattle.std.specs.Prelude.{◌≡◌, ◌+◌, ◌*◌, ◌≤◌, length, IfSome, IsTrue};
ghost use Rattle.mbj_types.specs.Auths.{states_hash_of};

use crate::compare::expect;
use crate::fill::put;
use crate::hmac::{Case, SHA1_CASES, SHA256_CASES, SHA512_CASES, Serving, check_tag, expect_hex};
use crate::lists::{Tried, case_of, expect_no_rest, packet_of, run_in_one_list};
use crate::manager::expect_none;
use mbj_hmac::{
    HmacEntry, HmacKernel, MAX_BLOCK_BYTES, MAX_STATE_BYTES, Sha1Lanes, Sha256Lanes, Sha512Lanes,
    one_block, states,
};
use mbj_manager::Manager;
use mbj_types::{Auth, HashName, RingFull};
use std::alloc::{AllocError, Global};
use std::process::Abort;
use std::test::Fail;

/// The keys' states behind their padded blocks, as OpenSSL's contexts hold them, in hex.
const KEY_STATES: [(Auth, &[u8], &str); 10] = [
    (
        Auth::HmacSha1,
        b"Jefe",
        "624d8ea73f2b18039554b9e428c065f5a9fcb98e2088372af50610a1f82f8b058e4bfe32280b4e35",
    ),
    (
        Auth::HmacSha1,
        &[0xaa; 131],
        "e9be0612be6c6d632d73705279c62670212c11f3db6963441af2097db44c5d5230cc5edf77493f63",
    ),
    (
        Auth::HmacSha224,
        b"Jefe",
        "2416bc4e891b2f075a8308bbf070325b57a449561ad88a5111b2f40d08f36dc31815cdb2f5dae633fca74429cbf26349ce1bbbda75fa80ba3b31cfd50cba3793",
    ),
    (
        Auth::HmacSha224,
        &[0xaa; 131],
        "c7c3ed0586741c76c7ea97b5d7825dfffa7a22e5f007766f98991086d97dc21dd9e42182a7cf928d20042668614252b923ca7773fae4f8b444b77bf74a33021a",
    ),
    (
        Auth::HmacSha256,
        b"Jefe",
        "655da7facc434b375a1cd5cb0692ee0ea47a23d34c3af449dba21ae278c7500c0eafe3d513412e6c6a6a2feb2d375acc51a4fd476db095e823bfa18a52f141d5",
    ),
    (
        Auth::HmacSha256,
        &[0xaa; 131],
        "b490466c5a783ad81415dcbc706f5e2f4dc3747da72ed8b22996594d19b134e1f330e3a1ddf2d954b3bf227ebb4bd6b5acdaf7bf51ea5e57d19708615c542a02",
    ),
    (
        Auth::HmacSha384,
        b"Jefe",
        "4c5a1477b96dac421d6b3e71995138ee0217c0bf8fd468eface9b9f66c4f636966fbef38997a43610a39452721baeaa20c4d56fa1845f2165c1a73d501367d0967ddf91bc4617ed0172844b4e9c60f49ff78d941b8d419c47f70323be6fabdf1e5660783a439c29089d97512293159a0d5f6e8dba8b7922c89df3f9f7b72595d",
    ),
    (
        Auth::HmacSha384,
        &[0xaa; 131],
        "7a5a7ab6be01dbd2f23e4121786d6c761f6f645b3a6c2ca9f56d4103af6e4a6337865c991120241ab9069cfbbd0d1b2f051aae6ee819181f3c7cc7f3e87a7b1ffa4c239eecc899726778344efd90c9d9c58c6742a002f3f3555a2d012afc57265496dfaae1f82f3df77668e1eaeedc021b7d175121294a685dd1b6cd07f0806b",
    ),
    (
        Auth::HmacSha512,
        b"Jefe",
        "d54c8054e3fafc6e52d18d7d18db608cf31b9122d16aa4cb02a0806a364882bebff036bc022388dab407cb5e93ac39dd8fe17f83da82db3741387c0228cdd7b383d8dbc75ec49d77d535857580406c07bb10239361eb94ed9f7e08acb483074c323fc8bd79797b65d89aac55f50a9028c174b5c89503ead315e05f915d5ceb81",
    ),
    (
        Auth::HmacSha512,
        &[0xaa; 131],
        "26f6f37c929ab0ec556591c9d6dacedb9a809199ca7e2e9fbdf751c867f757c0d9142b994f3fb1c2a667b8af8c47406a4e9e3c43fc3b83aee13512260fa1994c9d672304fe86f0976bb0394627443d915895ccff6bfd8f5dbf630ea885a8d3758ddf6febf297efcf1d3e88f7fe311d9a3030ca050c6ee5ec53a52c9e99291bdb",
    ),
];

/// The states behind one block of the letter a, as OpenSSL's contexts hold them, in hex.
const BLOCK_STATES: [(HashName, &str); 5] = [
    (HashName::Sha1, "da4968eb2e377c1f884e8f5283524bebe74ebdbd"),
    (
        HashName::Sha224,
        "b0b6de392f2c885564836d86de6b170be2ead06274261737ef2c10e457358d12",
    ),
    (
        HashName::Sha256,
        "df5bb81ce81e0626fb45a8944fd40f31b25e6816d6d499c1ab90492900635e66",
    ),
    (
        HashName::Sha384,
        "91041f93c7c2e25c37d9fabfbb83072317339410cb8bbb2fa170bb5bb5276a67d6357de121728231be53cdefe6337828ab890c97626558c450efa72bdd496605",
    ),
    (
        HashName::Sha512,
        "03bf7c6e55c11b040d48757f45285fdced46689bfc9026c0281701a1424c80f5ca31738befe6afee30f5fe8d4e41e2489379d57c74895af44b1e84ebc1bab8b0",
    ),
];

/// The states of a key, and zeros behind them.
fn states_of(rt: &impl Abort, auth: Auth, key: &[u8]) -> [u8; MAX_BLOCK_BYTES] {
    assert!(rt;
        matches!(
            auth,
            Auth::HmacSha1
                | Auth::HmacSha224
                | Auth::HmacSha256
                | Auth::HmacSha384
                | Auth::HmacSha512
        )
    );
    states(auth, key)
}

#[test]
fn a_key_has_these_states(rt: HostRuntime) {
    for (auth, key, expected) in KEY_STATES {
        let states = states_of(&rt, auth, key);
        let len = expected.len() / 2;
        assert!(rt; len <= MAX_BLOCK_BYTES);
        expect_hex_states(&rt, expected, &states[..len]);
        expect(&rt, "zeros", &states[len..], &[0; MAX_BLOCK_BYTES][len..]);
    }
}

#[test]
fn a_block_leads_to_this_state(rt: HostRuntime) {
    let letters = [0x61; MAX_BLOCK_BYTES];
    for (hash, expected) in BLOCK_STATES {
        let len = expected.len() / 2;
        let state = one_block(hash, &letters[..hash.block_bytes()]);
        assert!(rt; len <= MAX_STATE_BYTES);
        expect_hex_states(&rt, expected, &state[..len]);
        expect(&rt, "zeros", &state[len..], &[0; MAX_STATE_BYTES][len..]);
    }
}

/// The states are these in hex.
fn expect_hex_states(rt: &impl Abort, expected: &str, states: &[u8]) {
    let mut wanted = [0; MAX_BLOCK_BYTES];
    assert!(rt; states.len() <= wanted.len());
    let wanted = &mut wanted[..states.len()];
    assert!(rt; hex::decode_to_slice(expected, wanted).is_ok());
    expect(rt, expected, states, &*wanted);
}

/// The authentication from states beside one under a key, and the bytes of its states.
fn stored(auth: Auth) -> (Auth, usize) {
    match auth {
        Auth::HmacSha1 => (Auth::HmacSha1States, 40),
        Auth::HmacSha224 => (Auth::HmacSha224States, 64),
        Auth::HmacSha256 => (Auth::HmacSha256States, 64),
        Auth::HmacSha384 => (Auth::HmacSha384States, 128),
        Auth::HmacSha512 => (Auth::HmacSha512States, 128),
        other => (other, 0),
    }
}

/// Whether this many bytes are the states of an HMAC from states.
fn are_states(auth: Auth, len: usize) -> bool
    ensures { IsTrue result → IfSome (states_hash_of auth) (λ c. len ≡ 2 * c.state_bytes) }
{
    match auth {
        Auth::HmacSha1States => len == 40,
        Auth::HmacSha224States | Auth::HmacSha256States => len == 64,
        Auth::HmacSha384States | Auth::HmacSha512States => len == 128,
        _ => false,
    }
}

/// The entry of an HMAC that goes on from the states of a key. The authentication is the one under the key.
pub(crate) fn entry_from_key<H: Serving>(
    rt: &impl Abort,
    keyed: Auth,
    key: &[u8],
    packet: Vec<u8>,
    off: u32,
    len: u32,
) -> HmacEntry<H>
    requires { off + len ≤ length packet.items }
    ensures { 1 ≤ result.rest }
{
    let (auth, bytes) = stored(keyed);
    let states = states_of(rt, keyed, key);
    assert!(rt; bytes <= MAX_BLOCK_BYTES);
    let states = &states[..bytes];
    assert!(rt; H::takes_states(auth));
    assert!(rt; are_states(auth, states.len()));
    HmacEntry::new_from_states(auth, states, packet, off, len)
}

/// A case of an HMAC, which goes on from the states of its key.
#[derive(Drop)]
struct FromStates {
    case: Case,
}

impl<H: Serving> Tried<FromStates> for HmacKernel<H> {
    fn entry(
        rt: &impl Abort,
        alloc: Global,
        number: u8,
        case: &FromStates,
    ) -> Result<HmacEntry<H>, AllocError> {
        let (auth, key, message, _) = case.case;
        assert!(rt; message.len() < 1000);
        let packet = packet_of(alloc, number, message)?;
        assert!(rt; 1 + message.len() <= packet.len());
        Ok(entry_from_key(rt, auth, key, packet, 1, message.len() as u32))
    }

    fn check(rt: &impl Abort, cases: &[FromStates], entry: HmacEntry<H>) {
        expect_no_rest(rt, entry.rest);
        let (packet, tag) = entry.into_parts();
        let (case, message) = case_of(rt, cases, &packet);
        expect(rt, "message", message, case.case.2);
        check_tag(rt, &case.case, tag.bytes());
    }
}

/// Runs the cases from the states of their keys, in one list.
fn run_from_states<H: Serving>(rt: &impl Abort, alloc: Global, cases: &[Case]) -> Result<(), Fail> {
    let mut stored = Vec::new(alloc);
    for case in cases {
        stored.push(FromStates { case: *case })?;
    }
    run_in_one_list::<FromStates, HmacKernel<H>>(rt, alloc, &stored)
}

#[test]
fn the_standards_cases_come_out_from_states(rt: HostRuntime) -> Result<(), Fail> {
    run_from_states::<Sha1Lanes>(&rt, rt.alloc(), &SHA1_CASES)?;
    run_from_states::<Sha256Lanes>(&rt, rt.alloc(), &SHA256_CASES)?;
    run_from_states::<Sha512Lanes>(&rt, rt.alloc(), &SHA512_CASES)
}

/// The bytes of the key of RFC 2202, section 3, test case 1.
const KEY: [u8; 20] = [0x0b; 20];

/// "Hi There" by SHA-1, by HMAC under the key, and by HMAC from its states, in hex.
const TAGS: [(Auth, &str); 3] = [
    (Auth::Sha1, "4b3aed5f9fe40159b499536fb8a10cdf3bc62b4c"),
    (Auth::HmacSha1, "b617318655057264e28bc0b6fb378c8ef146be00"),
    (
        Auth::HmacSha1States,
        "b617318655057264e28bc0b6fb378c8ef146be00",
    ),
];

/// Submits a job over "Hi There".
fn submit(
    rt: &impl Abort,
    alloc: Global,
    manager: &mut Manager,
    auth: Auth,
    auth_key: &[u8],
) -> Result<(), Fail> {
    match manager.get_next() {
        Ok(job) => {
            job.auth = auth;
            put(alloc, &mut job.auth_key, auth_key)?;
            put(alloc, &mut job.packet, b"Hi There")?;
            job.hash_len = 8;
            job.tag_len = 20;
        }
        Err(RingFull) => assert!(rt; false),
    }
    expect_none(rt, manager.submit());
    Ok(())
}

/// The jobs wait in one list, and come back in order.
fn run_jobs(rt: &impl Abort, alloc: Global, manager: &mut Manager) -> Result<(), Fail> {
    let states = states_of(rt, Auth::HmacSha1, &KEY);
    for (auth, _) in TAGS {
        let key = if auth == Auth::HmacSha1States {
            &states[..40]
        } else {
            KEY.as_slice()
        };
        submit(rt, alloc, manager, auth, key)?;
    }
    for (_, expected) in TAGS {
        match manager.flush() {
            Some(done) => expect_hex(rt, expected, done.tag.bytes()),
            None => assert!(rt; false),
        }
    }
    expect_none(rt, manager.flush());
    Ok(())
}

#[test]
fn jobs_plain_keyed_and_from_states_run_in_one_list(rt: HostRuntime) -> Result<(), Fail> {
    run_jobs(&rt, rt.alloc(), &mut Manager::new(rt.alloc())?)
}
