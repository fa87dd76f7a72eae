//! Digests of messages that end at each kind of place in a block, in one list with HMACs of the same hash under a key and from the states
//! of that key.
use crate::compare::expect;
use crate::hmac::{Serving, expect_hex};
use crate::lists::{Tried, case_of, expect_no_rest, packet_of, run_in_one_list};
use crate::stored::entry_from_key;
use mbj_hmac::{HmacEntry, HmacKernel, Sha1Lanes, Sha256Lanes, Sha512Lanes};
use mbj_types::Auth;
use std::alloc::{AllocError, Global};
use std::process::Abort;
use std::test::Fail;

/// The lengths of the messages: those at which the padding of blocks of 64 and of 128 bytes changes.
const LENGTHS: [usize; 12] = [0, 1, 55, 56, 63, 64, 111, 112, 119, 120, 127, 128];

/// Four digests and two HMACs go into one list: SHA-512 has the fewest lanes, eight.
const GROUP: usize = 6;

/// What the messages begin.
const LETTERS: [u8; 128] = [0x61; 128];

/// The key of the HMACs.
const KEY: &[u8] = b"key";

/// A message of `len` letters, and its digest, or its HMAC under the key, in hex.
#[derive(Drop)]
struct Letters {
    auth: Auth,
    /// Whether the HMAC goes on from the states of the key.
    stored: bool,
    len: usize,
    tag: &'static str,
}

impl<H: Serving> Tried<Letters> for HmacKernel<H> {
    fn entry(
        rt: &impl Abort,
        alloc: Global,
        number: u8,
        case: &Letters,
    ) -> Result<HmacEntry<H>, AllocError> {
        let (auth, len) = (case.auth, case.len);
        assert!(rt; len <= LETTERS.len());
        let packet = packet_of(alloc, number, &LETTERS[..len])?;
        assert!(rt; 1 + len <= packet.len());
        if H::takes_plain(auth) {
            return Ok(HmacEntry::new_plain(auth, packet, 1, len as u32));
        }
        if case.stored {
            return Ok(entry_from_key(rt, auth, KEY, packet, 1, len as u32));
        }
        assert!(rt; H::takes(auth));
        Ok(HmacEntry::new(auth, KEY, packet, 1, len as u32))
    }

    fn check(rt: &impl Abort, cases: &[Letters], entry: HmacEntry<H>) {
        expect_no_rest(rt, entry.rest);
        let (packet, tag) = entry.into_parts();
        let (case, message) = case_of(rt, cases, &packet);
        assert!(rt; case.len <= LETTERS.len());
        expect(rt, "message", message, &LETTERS[..case.len]);
        expect_hex(rt, case.tag, tag.bytes());
    }
}

/// Runs the digests of a hash, in lists of four with an HMAC under a key and from its states among them.
fn run_mixed<H: Serving>(
    rt: &impl Abort,
    alloc: Global,
    auth: Auth,
    digests: &[&'static str; 12],
    keyed: Auth,
    hmacs: &[(usize, &'static str); 3],
) -> Result<(), Fail> {
    let mut cases = Vec::new(alloc);
    for (i, tag) in digests.iter().enumerate() {
        let tag = *tag;
        assert!(rt; i < LENGTHS.len());
        cases.push(Letters {
            auth,
            stored: false,
            len: LENGTHS[i],
            tag,
        })?;
        if i % 4 == 3 && i / 4 < hmacs.len() {
            let (len, tag) = hmacs[i / 4];
            for stored in [false, true] {
                cases.push(Letters {
                    auth: keyed,
                    stored,
                    len,
                    tag,
                })?;
            }
        }
    }
    for group in cases.as_slice().chunks(GROUP) {
        run_in_one_list::<Letters, HmacKernel<H>>(rt, alloc, group)?;
    }
    Ok(())
}

const SHA1_DIGESTS: [&str; 12] = [
    "da39a3ee5e6b4b0d3255bfef95601890afd80709",
    "86f7e437faa5a7fce15d1ddcb9eaeaea377667b8",
    "c1c8bbdc22796e28c0e15163d20899b65621d65a",
    "c2db330f6083854c99d4b5bfb6e8f29f201be699",
    "03f09f5b158a7a8cdad920bddc29b81c18a551f5",
    "0098ba824b5c16427bd7a1122a5a442a25ec644d",
    "ac877859d427d9192054eea8feb3b8a403ef83a5",
    "689993727ba37386bb032495e9dbdfb4dd1ba744",
    "ee971065aaa017e0632a8ca6c77bb3bf8b1dfc56",
    "f34c1488385346a55709ba056ddd08280dd4c6d6",
    "89d95fa32ed44a7c610b7ee38517ddf57e0bb975",
    "ad5b3fdbcb526778c2839d2f151ea753995e26a0",
];

const SHA1_HMACS: [(usize, &str); 3] = [
    (0, "f42bb0eeb018ebbd4597ae7213711ec60760843f"),
    (64, "804f18b0143cc2677eeda7b5f60f6984fc32d094"),
    (119, "4886e71d9781d0750c308be4ad2245c0b79da581"),
];

const SHA224_DIGESTS: [&str; 12] = [
    "d14a028c2a3a2bc9476102bb288234c415a2b01f828ea62ac5b3e42f",
    "abd37534c7d9a2efb9465de931cd7055ffdb8879563ae98078d6d6d5",
    "fb0bd626a70c28541dfa781bb5cc4d7d7f56622a58f01a0b1ddd646f",
    "d40854fc9caf172067136f2e29e1380b14626bf6f0dd06779f820dcd",
    "1d4e051f4d6fed2a63fd2421e65834cec00d64456553de3496ae8b1d",
    "a88cd5cde6d6fe9136a4e58b49167461ea95d388ca2bdb7afdc3cbf4",
    "4aeec1a49b2c1bc663abf2809b36faaa64359523d4f26d02dbc2cba3",
    "0336b66821946e7f1052102e3b9c29f3039efe9b261746370305f894",
    "e000e6709d26667b631faa7fc1bd404eb4774003c5fb4f51a0184875",
    "66924e30a9929327e7a6cf03747397226ed2efc180ebe3dea7132a79",
    "0822db3f33424aead078f71ed05f30edc077a3c254b7c79c89a7a4a1",
    "39873a2441c56608137850f4c54dde157710b9a2b83c8bdc756dd643",
];

const SHA224_HMACS: [(usize, &str); 3] = [
    (
        0,
        "5aa677c13ce1128eeb3a5c01cef7f16557cd0b76d18fd557d6ac3962",
    ),
    (
        64,
        "e2f9f3e1e47b6e4ee51000c8a52a675434aa9db00d24cda801ed0a60",
    ),
    (
        119,
        "8dc73944601121c01333151af380b5889c8261391804a65b6d10db2c",
    ),
];

const SHA256_DIGESTS: [&str; 12] = [
    "e3b0c44298fc1c149afbf4c8996fb92427ae41e4649b934ca495991b7852b855",
    "ca978112ca1bbdcafac231b39a23dc4da786eff8147c4e72b9807785afee48bb",
    "9f4390f8d30c2dd92ec9f095b65e2b9ae9b0a925a5258e241c9f1e910f734318",
    "b35439a4ac6f0948b6d6f9e3c6af0f5f590ce20f1bde7090ef7970686ec6738a",
    "7d3e74a05d7db15bce4ad9ec0658ea98e3f06eeecf16b4c6fff2da457ddc2f34",
    "ffe054fe7ae0cb6dc65c3af9b61d5209f439851db43d0ba5997337df154668eb",
    "6374f73208854473827f6f6a3f43b1f53eaa3b82c21c1a6d69a2110b2a79baad",
    "f54353008a2553262ecdc4a34749563ba0950e8b0fc8652780b0a614b99683c1",
    "31eba51c313a5c08226adf18d4a359cfdfd8d2e816b13f4af952f7ea6584dcfb",
    "2f3d335432c70b580af0e8e1b3674a7c020d683aa5f73aaaedfdc55af904c21c",
    "c57e9278af78fa3cab38667bef4ce29d783787a2f731d4e12200270f0c32320a",
    "6836cf13bac400e9105071cd6af47084dfacad4e5e302c94bfed24e013afb73e",
];

const SHA256_HMACS: [(usize, &str); 3] = [
    (
        0,
        "5d5d139563c95b5967b9bd9a8c9b233a9dedb45072794cd232dc1b74832607d0",
    ),
    (
        64,
        "77207571ea4243ad8e0f220679a62f9033b6d2f59f8d44517d8e9c4857b96fa0",
    ),
    (
        119,
        "4ffbedd6a1157e63e62d3fa284549bcfe39fb98dbb77ac48a89120aed5747d6b",
    ),
];

const SHA384_DIGESTS: [&str; 12] = [
    "38b060a751ac96384cd9327eb1b1e36a21fdb71114be07434c0cc7bf63f6e1da274edebfe76f65fbd51ad2f14898b95b",
    "54a59b9f22b0b80880d8427e548b7c23abd873486e1f035dce9cd697e85175033caa88e6d57bc35efae0b5afd3145f31",
    "5d91ac7e74e62b5c728904b40f10784d66b7af9cb6302123e48c92f0432ceb8d2a92c02de77dcb29ed75c4b42bde46f4",
    "8a8d9649ea04e993a6ca7135af7e3392cc5fca84f8531cac7aa3feed4eb98f55dcbe0f3284b61c6f35f98b02cc644b4c",
    "7e7f097e95b52bb8f53383450ecaf9868187c130981730c03b6d573adfc0b991e365244e5b4bfa082bfb43c517d37120",
    "2e404b9339da795776e510d96930b3be2904c500395b8cb7413334b82d4dec413b4b8113045a05bbbcff846f027423f6",
    "3c37955051cb5c3026f94d551d5b5e2ac38d572ae4e07172085fed81f8466b8f90dc23a8ffcdea0b8d8e58e8fdacc80a",
    "187d4e07cb306103c69967bf544d0dfbe9042577599c73c330abc0cb64c61236d5ed565ee19119d8c31779a38f791fcd",
    "c2fbb1911d6889e3db556b482236ab82f3c736f00a22c088641a09fdbbca27e3f1e3b6235bad20aee1ca083c76ac590c",
    "ca2f7755efa04d43651f9bcb466044511102e472c2a3981c836b487ee4508ca8461f8c396653123400762de4d6d17e63",
    "9bd06b1763c2cf7aef40e795dc65bc96d59c41b537f3ad72ebdefd485476b5717c1aeb37c327fe9c1831b12b9efd08ae",
    "edb12730a366098b3b2beac75a3bef1b0969b15c48e2163c23d96994f8d1bef760c7e27f3c464d3829f56c0d53808b0b",
];

const SHA384_HMACS: [(usize, &str); 3] = [
    (
        0,
        "99f44bb4e73c9d0ef26533596c8d8a32a5f8c10a9b997d30d89a7e35ba1ccf200b985f72431202b891fe350da410e43f",
    ),
    (
        64,
        "208213c34d4794432575e7f480b80307784292a4ccd3281d9a0696be12e20de2150bf39d0aae6dfe746cf071f0601e1e",
    ),
    (
        119,
        "ada1027e27fef7fdf96fbb613384ee3d19bd24277adc6fc464591e76bc028f4d4fedef9ca4988b0d02660201b67b116b",
    ),
];

const SHA512_DIGESTS: [&str; 12] = [
    "cf83e1357eefb8bdf1542850d66d8007d620e4050b5715dc83f4a921d36ce9ce47d0d13c5d85f2b0ff8318d2877eec2f63b931bd47417a81a538327af927da3e",
    "1f40fc92da241694750979ee6cf582f2d5d7d28e18335de05abc54d0560e0f5302860c652bf08d560252aa5e74210546f369fbbbce8c12cfc7957b2652fe9a75",
    "b0220c772cbf6c1822e2cb38a437d0e1d58772417a4bbb21c961364f8b6143e05aa6316dca8d1d7b19e16448419076395f6086cb55101fbd6d5497b148e1745f",
    "962b64aae357d2a4fee3ded8b539bdc9d325081822b0bfc55583133aab44f18bafe11d72a7ae16c79ce2ba620ae2242d5144809161945f1367f41b3972e26e04",
    "c1b0f5c6d3b03dfe4a2602e67242f54e344090b66e01100a469b129f583f016c7e27dddeaa438393dcc7ec54b0b57c9ba7af007f9b56db5f6fb677d972a31362",
    "01d35c10c6c38c2dcf48f7eebb3235fb5ad74a65ec4cd016e2354c637a8fb49b695ef3c1d6f7ae4cd74d78cc9c9bcac9d4f23a73019998a7f73038a5c9b2dbde",
    "fa9121c7b32b9e01733d034cfc78cbf67f926c7ed83e82200ef86818196921760b4beff48404df811b953828274461673c68d04e297b0eb7b2b4d60fc6b566a2",
    "c01d080efd492776a1c43bd23dd99d0a2e626d481e16782e75d54c2503b5dc32bd05f0f1ba33e568b88fd2d970929b719ecbb152f58f130a407c8830604b70ca",
    "130396a75cb483f2eee8c56d8a668bb3d2641f5243212c0bee2bd33da096ad9eb8179fe18f9eaacf76e09fae9de4c3f14ba13341e345be05bf76c182cc3468cb",
    "f241de612b01aa2fa3cf01531d2a8e5e17fc761dfd48a704a834a47f57d6eade7804ecc39be42fdef16ec6adeaf7c01c2fd0c4cc97d3860907cfa4a3b36d0c05",
    "828613968b501dc00a97e08c73b118aa8876c26b8aac93df128502ab360f91bab50a51e088769a5c1eff4782ace147dce3642554199876374291f5d921629502",
    "b73d1929aa615934e61a871596b3f3b33359f42b8175602e89f7e06e5f658a243667807ed300314b95cacdd579f3e33abdfbe351909519a846d465c59582f321",
];

const SHA512_HMACS: [(usize, &str); 3] = [
    (
        0,
        "84fa5aa0279bbc473267d05a53ea03310a987cecc4c1535ff29b6d76b8f1444a728df3aadb89d4a9a6709e1998f373566e8f824a8ca93b1821f0b69bc2a2f65e",
    ),
    (
        64,
        "18b405223520d947c7fcc636ae88cf199a8e93409f59fb3da1e6d2c5917fdb3a975748b265bb0bb9cb5f2d8aa9a7fa5ee3dcd67017953fe58390fb9f49a95004",
    ),
    (
        119,
        "7435ae837a8296c5a0c38b5ef10674c2d30b81c92bab0fe661b1ee83f6a996e0ccb205788c8040983ca5c1e06600c4c0df86cec5d78c0097c3c00787ac50e204",
    ),
];

#[test]
fn digests_of_sha1_run_among_hmacs(rt: HostRuntime) -> Result<(), Fail> {
    run_mixed::<Sha1Lanes>(
        &rt,
        rt.alloc(),
        Auth::Sha1,
        &SHA1_DIGESTS,
        Auth::HmacSha1,
        &SHA1_HMACS,
    )
}

#[test]
fn digests_of_sha224_run_among_hmacs(rt: HostRuntime) -> Result<(), Fail> {
    run_mixed::<Sha256Lanes>(
        &rt,
        rt.alloc(),
        Auth::Sha224,
        &SHA224_DIGESTS,
        Auth::HmacSha224,
        &SHA224_HMACS,
    )
}

#[test]
fn digests_of_sha256_run_among_hmacs(rt: HostRuntime) -> Result<(), Fail> {
    run_mixed::<Sha256Lanes>(
        &rt,
        rt.alloc(),
        Auth::Sha256,
        &SHA256_DIGESTS,
        Auth::HmacSha256,
        &SHA256_HMACS,
    )
}

#[test]
fn digests_of_sha384_run_among_hmacs(rt: HostRuntime) -> Result<(), Fail> {
    run_mixed::<Sha512Lanes>(
        &rt,
        rt.alloc(),
        Auth::Sha384,
        &SHA384_DIGESTS,
        Auth::HmacSha384,
        &SHA384_HMACS,
    )
}

#[test]
fn digests_of_sha512_run_among_hmacs(rt: HostRuntime) -> Result<(), Fail> {
    run_mixed::<Sha512Lanes>(
        &rt,
        rt.alloc(),
        Auth::Sha512,
        &SHA512_DIGESTS,
        Auth::HmacSha512,
        &SHA512_HMACS,
    )
}
