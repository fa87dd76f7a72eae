ghost use Rattle.std.specs.Prelude.{◌≡◌, ℕ, ◌<◌, ◌≤◌, ◌*◌, ◌+◌, ◌++◌, List, length, take, IsTrue};
ghost use Rattle.std.specs.Int.{w64, to_be_bytes};
ghost use Rattle.sha2.specs.Sha512.{digest_bytes};
ghost use Rattle.mbj_types.specs.Lanes.{lane_at, lane_of};
ghost use Rattle.mbj_types.specs.declared.class.HashName.{HashName};
ghost use Rattle.mbj_types.specs.declared.kind.TheConstants.{SHA512_LANES};
ghost use Rattle.mbj_sha_lanes.specs.Words.{words64};
ghost use Rattle.mbj_hmac.specs.Hashings.{is_sha512, sha512_hashing};
ghost use Rattle.mbj_hmac.specs.Inside.InLanes.{IsDigestBits};
ghost use Rattle.mbj_hmac.specs.Inside.Layout.{digest_block};

use crate::ends::put;
use crate::lane_hash::LaneHash;
use crate::lane_word::{LaneWord, choose};
use crate::rests::with_word64;
use crate::view::Chains;
use crate::words::word64;
use mbj_sha_lanes::{Blocks, Half, Load64};
use mbj_sha512_lanes::{ROUNDS, compress_scheduled, gathered, scattered};
use mbj_types::{HashName, SHA384_LENGTHS, SHA512_LANES, SHA512_LENGTHS, Sha512Word, Tag};
use std::simd::u32x16;

/// SHA-384 and SHA-512 in lanes.
pub struct Sha512Lanes;

/// The length of a block, in bytes.
const BLOCK_BYTES: usize = SHA512_LENGTHS.block;

/// The bytes of four blocks.
const ENDS_BYTES: usize = 4 * BLOCK_BYTES;

/// The bits of a block and of a digest of SHA-384.
const BITS_384: u32 = 8 * (BLOCK_BYTES as u32 + SHA384_LENGTHS.digest as u32);

/// The bits of a block and of a digest of SHA-512.
const BITS_512: u32 = 8 * (BLOCK_BYTES as u32 + SHA512_LENGTHS.digest as u32);

/// The initial hash value of SHA-384 (FIPS 180-4, 5.3.4).
const INITIAL_384: [u64; 8] = [
    0xcbbb_9d5d_c105_9ed8,
    0x629a_292a_367c_d507,
    0x9159_015a_3070_dd17,
    0x152f_ecd8_f70e_5939,
    0x6733_2667_ffc0_0b31,
    0x8eb4_4a87_6858_1511,
    0xdb0c_2e0d_64f9_8fa7,
    0x47b5_481d_befa_4fa4,
];

/// The initial hash value of SHA-512 (FIPS 180-4, 5.3.5).
const INITIAL_512: [u64; 8] = [
    0x6a09_e667_f3bc_c908,
    0xbb67_ae85_84ca_a73b,
    0x3c6e_f372_fe94_f82b,
    0xa54f_f53a_5f1d_36f1,
    0x510e_527f_ade6_82d1,
    0x9b05_688c_2b3e_6c1f,
    0x1f83_d9ab_fb41_bd6b,
    0x5be0_cd19_137e_2179,
];

/// Writes word j, its highest byte first. What stands behind is not looked at.
fn put_word(bytes: &mut [u8; 64], j: usize, word: u64)
    requires { j < 8 }
    ensures written { take (8 * j + 8) bytes.new ≡ take (8 * j) bytes.old ++ to_be_bytes w64 word }
    ensures length { length bytes.new ≡ 64 }
{
    bytes[8 * j..8 * j + 8].copy_from_slice(&word.to_be_bytes());
}

/// The words of a hash value, the highest byte of each first.
fn bytes_of(chain: &[u64; 8]) -> [u8; 64]
    ensures value { result ≡ digest_bytes chain.now 8 }
    ensures length { length result ≡ 64 }
{
    let mut bytes = [0; 64];
    'words: for j in 0..8usize {
        put_word(&mut bytes, j, chain[j]);
    }
    bytes
}

/// The words of the blocks that hold the digests of hash values, with the padding behind a block and the digest (FIPS 180-4, 5.1.2). A
/// digest of SHA-384 is two words shorter than one of SHA-512.
#[inline(always)]
fn digest_words(inner: &[Sha512Word; 8], bits: u32x16) -> [Sha512Word; 16]
    ensures lanes { (i : ℕ) → i < SHA512_LANES → (a : HashName) → IsTrue (is_sha512 a) → IsDigestBits sha512_hashing a (lane_at 32 bits i)
        → words64 (digest_block sha512_hashing a (lane_of (lane_at 64) inner.now i)) ≡ lane_of (lane_at 64) result i }
    ensures length { length result ≡ 16 }
{
    let bits = Sha512Word::of_numbers(bits);
    let full = Sha512Word::splat(BITS_512 as u64);
    let one = Sha512Word::splat(0x8000_0000_0000_0000);
    let zero = Sha512Word::splat(0);
    let sixth = Sha512Word::where_equal(bits, full, inner[6], one);
    let seventh = Sha512Word::where_equal(bits, full, inner[7], zero);
    let eighth = Sha512Word::where_equal(bits, full, one, zero);
    [
        inner[0], inner[1], inner[2], inner[3], inner[4], inner[5], sixth, seventh, eighth, zero,
        zero, zero, zero, zero, zero, bits,
    ]
}

impl LaneHash for Sha512Lanes {
    type Chain = [u64; 8];

    type States = [Sha512Word; 8];

    type Schedule = [Sha512Word; ROUNDS];

    type Ends = [u8; ENDS_BYTES];

    const LANES: u32 = SHA512_LANES as u32;

    ghost LANES = { SHA512_LANES };

    ghost hashing = { sha512_hashing };

    ghost words = { λ c. c };

    ghost lane = { λ states i. lane_of (lane_at 64) states i };

    ghost ends_bytes = { λ e. e };

    fn block_bytes() -> usize {
        BLOCK_BYTES
    }

    fn served() -> HashName {
        HashName::Sha512
    }

    fn initial(hash: HashName) -> [u64; 8] {
        match hash {
            HashName::Sha384 => INITIAL_384,
            HashName::Sha512 => INITIAL_512,
            HashName::Sha1 | HashName::Sha224 | HashName::Sha256 => unreachable!(),
        }
    }

    fn zeros() -> [u64; 8] {
        [0; 8]
    }

    fn blank_ends() -> [u8; ENDS_BYTES] {
        [0; ENDS_BYTES]
    }

    #[inline(always)]
    fn ends(ends: &[u8; ENDS_BYTES]) -> &[u8] {
        ends
    }

    fn put(ends: &mut [u8; ENDS_BYTES], at: usize, bytes: &[u8]) -> usize {
        put(ends, at, bytes)
    }

    fn digest(hash: HashName, chain: &[u64; 8]) -> Tag {
        let bytes = bytes_of(chain);
        match hash {
            HashName::Sha384 => Tag::from_slice(&bytes[..48]),
            HashName::Sha512 => Tag::from_slice(&bytes),
            HashName::Sha1 | HashName::Sha224 | HashName::Sha256 => unreachable!(),
        }
    }

    fn digest_bits(hash: HashName) -> u32 {
        match hash {
            HashName::Sha384 => BITS_384,
            HashName::Sha512 => BITS_512,
            HashName::Sha1 | HashName::Sha224 | HashName::Sha256 => unreachable!(),
        }
    }

    fn load(state: &[u8]) -> [u64; 8] {
        [
            word64(state, 0),
            word64(state, 1),
            word64(state, 2),
            word64(state, 3),
            word64(state, 4),
            word64(state, 5),
            word64(state, 6),
            word64(state, 7),
        ]
    }

    fn store(state: &mut [u8], chain: &[u64; 8]) {
        state.copy_from_slice(&bytes_of(chain));
    }

    #[inline(always)]
    fn gathered<C: Chains<[u64; 8]>>(chains: &C) -> [Sha512Word; 8] {
        let mut states = [[0; 8]; SHA512_LANES];
        'lanes: for i in 0..SHA512_LANES {
            states[i] = *chains.chain(i);
        }
        gathered(&states)
    }

    #[inline(always)]
    fn scattered(states: &[Sha512Word; 8], i: usize) -> [u64; 8] {
        scattered(states, i)
    }

    #[inline(always)]
    fn blank_states() -> [Sha512Word; 8] {
        [Sha512Word::splat(0); 8]
    }

    #[inline(always)]
    fn set_lane(states: &mut [Sha512Word; 8], i: usize, chain: &[u64; 8]) {
        'words: for k in 0..8 {
            states[k] = with_word64(states[k], i, chain[k]);
        }
    }

    #[inline(always)]
    fn blank_schedule() -> [Sha512Word; ROUNDS] {
        [Sha512Word::splat(0); ROUNDS]
    }

    #[inline(always)]
    fn compress<B: Blocks>(
        states: &mut [Sha512Word; 8],
        schedule: &mut [Sha512Word; ROUNDS],
        blocks: &B,
        _half: Option<Half>,
    ) {
        let words = Sha512Word::block_words(blocks);
        compress_scheduled(states, &words, schedule);
    }

    #[inline(always)]
    fn compress_digests(
        states: &mut [Sha512Word; 8],
        schedule: &mut [Sha512Word; ROUNDS],
        inner: &[Sha512Word; 8],
        bits: u32x16,
        _half: Option<Half>,
    ) {
        let words = digest_words(inner, bits);
        compress_scheduled(states, &words, schedule);
    }

    #[inline(always)]
    fn compress_mixed<B: Blocks>(
        states: &mut [Sha512Word; 8],
        schedule: &mut [Sha512Word; ROUNDS],
        blocks: &B,
        _half: Option<Half>,
        inner: &[Sha512Word; 8],
        bits: u32x16,
        counts: u32x16,
        last: u32,
    ) {
        let mut words = Sha512Word::block_words(blocks);
        choose(
            Sha512Word::of_numbers(counts),
            Sha512Word::splat(last as u64),
            &digest_words(inner, bits),
            &mut words,
        );
        compress_scheduled(states, &words, schedule);
    }

    #[inline(always)]
    fn turn(
        states: &mut [Sha512Word; 8],
        inner: &mut [Sha512Word; 8],
        starts: &[Sha512Word; 8],
        lefts: u32x16,
        turns: u32x16,
    ) {
        let lefts = Sha512Word::of_numbers(lefts);
        let turns = Sha512Word::of_numbers(turns);
        choose(lefts, turns, states, inner);
        choose(lefts, turns, starts, states);
    }

    ghost use Rattle.std.proofs.Common.{rules};
    ghost use Rattle.mbj_hmac.specs.Laws.Sha512.{sha512_standard, sha512_blocks, sha512_compressions, sha512_hashes};

    ghost some = { Prim.search rules };

    ghost few = { Prim.search rules };

    ghost narrow = { Prim.search rules };

    ghost standard = { sha512_standard };

    ghost blocks = { sha512_blocks };

    ghost compressions = { sha512_compressions };

    ghost hashes = { sha512_hashes };
}
