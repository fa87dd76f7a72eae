ghost use Rattle.std.specs.Prelude.{IsTrue};
ghost use Rattle.mbj_direct.specs.Parts.{is_gcm_state};

use super::*;

/// How many bytes of `KEY`, the IV, and what comes of `PLAINTEXT` and `AAD`: the ciphertext and the tag.
type Sealing = (usize, &'static str, &'static str, &'static str);

const KEY: &str = "feffe9928665731c6d6a8f9467308308feffe9928665731c6d6a8f9467308308";

const AAD: &str = "feedfacedeadbeeffeedfacedeadbeefabaddad2";

const PLAINTEXT: &str =
    "d9313225f88406e5a55909c5aff5269a86a7a9531534f7da2e4c303d8a318a721c3c0c95956809532fcf0e2449a6b525b16aedf5aa0de657ba637b39";

/// Of the GCM specification (McGrew and Viega, appendix B), whose text is three whole blocks and a part of one.
const SEALINGS: [Sealing; 3] = [
    // Test case 4.
    (
        16,
        "cafebabefacedbaddecaf888",
        "42831ec2217774244b7221b784d0d49ce3aa212f2c02a4e035c17e2329aca12e21d514b25466931c7d8f6a5aac84aa051ba30b396a0aac973d58e091",
        "5bc94fbc3221a5db94fae95ae7121a47",
    ),
    // Test case 11.
    (
        24,
        "cafebabefacedbad",
        "0f10f599ae14a154ed24b36e25324db8c566632ef2bbb34f8347280fc4507057fddc29df9a471f75c66541d4d4dad1c9e93a19a58e8b473fa0f062f7",
        "65dcc57fcf623a24094fcca40d3533f8",
    ),
    // Test case 18.
    (
        32,
        "9313225df88406e555909c5aff5269aa6a7a9538534f7da1e4c303d2a318a728c3c0c95156809539fcf0e2429a6b525416aedbf5a0de6a57a637b39b",
        "5a8def2f0c9e53f1f75d7853659e2a20eeb2b22aafde6419a058ab4f6f746bf40fc0c3b780f244452da3ebf1c5d82cdea2418997200ef82e44ae7e3f",
        "a44a8266ee1c8eb0c8b5d4cf5ae9f19a",
    ),
];

/// The bytes of the second of three parts, a block and one more.
const SECOND: usize = 17;

/// A text of 60 bytes in three parts, of which the first one has `cut`, becomes the wanted one, and has the tag.
fn expect_parts(
    rt: &impl Abort,
    mut state: GcmState,
    given: &str,
    cut: usize,
    wanted: &str,
    tag: &str,
)
    requires { IsTrue (is_gcm_state state) }
{
    let mut text: [u8; 60] = read(rt, given);
    let (first, rest) = text.split_at_mut(cut.min(60));
    let (second, third) = rest.split_at_mut(rest.len().min(SECOND));
    state.update(first);
    state.update(second);
    state.update(third);
    let found = state.finish();
    assert!(rt; !state.is_state());
    expect_bytes(rt, &text, wanted);
    expect_bytes(rt, &found, tag);
}

fn check_sealing(rt: &impl Abort, alloc: Global, sealing: &Sealing) {
    let (key_len, iv, ciphertext, tag) = *sealing;
    let key: [u8; 32] = read(rt, KEY);
    let iv = hex::decode(alloc, iv).expect(rt, "hex");
    let aad: [u8; 20] = read(rt, AAD);
    assert!(rt; matches!(key_len, 16 | 24 | 32));
    assert!(rt; 1 <= iv.len() && iv.len() <= 65535);
    let seals = GcmState::begin(Dir::Enc, &key[..key_len], &iv, &aad);
    let opens = GcmState::begin(Dir::Dec, &key[..key_len], &iv, &aad);
    for cut in 0..61 {
        expect_parts(rt, seals, PLAINTEXT, cut, ciphertext, tag);
        expect_parts(rt, opens, ciphertext, cut, PLAINTEXT, tag);
    }
}

#[test]
fn texts_that_are_cut_anywhere_are_those_of_the_gcm_specification(rt: HostRuntime) {
    for sealing in &SEALINGS {
        check_sealing(&rt, rt.alloc(), sealing);
    }
    any_cutting_gives_one_text();
}

/// A long text in two parts, under the key, the IV and the additional data of test case 4, and its tag. No standard has a text of more
/// blocks than go at once; the tag is OpenSSL's.
fn expect_long(rt: &impl Abort, dir: Dir, text: &mut [u8; 600], cut: usize) {
    let key: [u8; 32] = read(rt, KEY);
    let iv: [u8; 12] = read(rt, "cafebabefacedbaddecaf888");
    let aad: [u8; 20] = read(rt, AAD);
    let mut state = GcmState::begin(dir, &key[..16], &iv, &aad);
    let (first, second) = text.split_at_mut(cut.min(600));
    state.update(first);
    state.update(second);
    expect_bytes(rt, &state.finish(), "47b1006deb7e041c824d0bfc43ca3a84");
}

#[test]
fn a_part_of_more_blocks_than_lanes_is_sealed(rt: HostRuntime) {
    let mut text = [0; 600];
    expect_long(&rt, Dir::Enc, &mut text, 5);
    expect_long(&rt, Dir::Dec, &mut text, 590);
    assert_eq!(rt; text, [0; 600]);
}

/// A nonce, additional data, a plaintext, and the ciphertext and the tag.
type CcmRow = (
    &'static str,
    &'static str,
    &'static str,
    &'static str,
    &'static str,
);

/// SP 800-38C, appendix C, examples 1 to 3.
const CCM_ROWS: [CcmRow; 3] = [
    (
        "10111213141516",
        "0001020304050607",
        "20212223",
        "7162015b",
        "4dac255d",
    ),
    (
        "1011121314151617",
        "000102030405060708090a0b0c0d0e0f",
        "202122232425262728292a2b2c2d2e2f",
        "d2a1f0e051ea5f62081a7792073d593d",
        "1fc64fbfaccd",
    ),
    (
        "101112131415161718191a1b",
        "000102030405060708090a0b0c0d0e0f10111213",
        "202122232425262728292a2b2c2d2e2f3031323334353637",
        "e3b201a9f5b71a7a9b1ceaeccd97e70b6176aad9a4428aa5",
        "484392fbc1b09951",
    ),
];

fn check_ccm(
    rt: &impl Abort,
    alloc: Global,
    key: &Schedule,
    row: &CcmRow,
) -> Result<(), AllocError> {
    let (nonce, aad, plaintext, ciphertext, tag) = *row;
    let nonce = hex::decode(alloc, nonce).expect(rt, "hex");
    let aad = hex::decode(alloc, aad).expect(rt, "hex");
    let mut text = hex::decode(alloc, plaintext).expect(rt, "hex");
    let wanted = hex::decode(alloc, tag).expect(rt, "hex");
    let many = wanted.len();
    assert!(rt; 7 <= nonce.len() && nonce.len() <= 13);
    assert!(rt; aad.len() <= MAX_CCM_AAD_BYTES && text.len() <= MAX_PACKET_BYTES);
    assert!(rt; matches!(many, 4 | 6 | 8));
    let found = ccm_seal(alloc, key, &nonce, &aad, text.as_mut_slice(), many as u8)?;
    expect_bytes(rt, &text, ciphertext);
    expect_bytes(rt, &found[..many], tag);
    let found = ccm_open(alloc, key, &nonce, &aad, text.as_mut_slice(), many as u8)?;
    expect_bytes(rt, &text, plaintext);
    expect_bytes(rt, &found[..many], tag);
    Ok(())
}

#[test]
fn texts_are_sealed_and_opened_as_in_sp_800_38c(rt: HostRuntime) -> Result<(), Fail> {
    let key: [u8; 16] = read(&rt, "404142434445464748494a4b4c4d4e4f");
    let key = Schedule::expand(&key);
    for row in &CCM_ROWS {
        check_ccm(&rt, rt.alloc(), &key, row)?;
    }
    Ok(())
}
