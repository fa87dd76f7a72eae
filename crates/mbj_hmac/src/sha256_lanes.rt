ghost use Rattle.std.specs.Prelude.{◌≡◌, ℕ, ◌<◌, ◌≤◌, ◌*◌, ◌+◌, ◌++◌, List, length, take, IsTrue};
ghost use Rattle.sha2.specs.Sha256.{compress, digest_bytes};
ghost use Rattle.mbj_types.specs.Lanes.{lane_at, lane_of};
ghost use Rattle.mbj_types.specs.declared.class.HashName.{HashName};
ghost use Rattle.mbj_types.specs.declared.kind.TheConstants.{SHA256_LANES};
ghost use Rattle.mbj_sha_lanes.specs.Halves.{IsWithin, first_of};
ghost use Rattle.mbj_sha_lanes.specs.Words.{words32};
ghost use Rattle.mbj_hmac.specs.Hashings.{is_sha256, sha256_hashing};
ghost use Rattle.mbj_hmac.specs.Inside.InLanes.{IsDigestBits};
ghost use Rattle.mbj_hmac.specs.Inside.Layout.{digest_block};

use crate::ends::put;
use crate::lane_hash::LaneHash;
use crate::lane_word::{LaneWord, choose};
use crate::loaded::loaded;
use crate::rests::with_word32;
use crate::view::Chains;
use crate::words::word32;
use mbj_sha_lanes::{Blocks, Half, Load32, half_words, put_half, take_half};
use mbj_sha256_lanes::{ROUNDS, compress_lanes, compress_scheduled, gathered, scattered};
use mbj_types::{HashName, SHA224_LENGTHS, SHA256_LANES, SHA256_LENGTHS, Sha256Word, Tag};
use std::simd::{u32x8, u32x16};

/// SHA-224 and SHA-256 in lanes.
pub struct Sha256Lanes;

/// The length of a block, in bytes.
const BLOCK_BYTES: usize = SHA256_LENGTHS.block;

/// The bytes of four blocks.
const ENDS_BYTES: usize = 4 * BLOCK_BYTES;

/// The bits of a block and of a digest of SHA-224.
const BITS_224: u32 = 8 * (BLOCK_BYTES as u32 + SHA224_LENGTHS.digest as u32);

/// The bits of a block and of a digest of SHA-256.
const BITS_256: u32 = 8 * (BLOCK_BYTES as u32 + SHA256_LENGTHS.digest as u32);

/// The initial hash value of SHA-224 (FIPS 180-4, 5.3.2).
const INITIAL_224: [u32; 8] = [
    0xc1059ed8, 0x367cd507, 0x3070dd17, 0xf70e5939, 0xffc00b31, 0x68581511, 0x64f98fa7, 0xbefa4fa4,
];

/// The initial hash value of SHA-256 (FIPS 180-4, 5.3.3).
const INITIAL_256: [u32; 8] = [
    0x6a09e667, 0xbb67ae85, 0x3c6ef372, 0xa54ff53a, 0x510e527f, 0x9b05688c, 0x1f83d9ab, 0x5be0cd19,
];

/// The words of a hash value, the highest byte of each first.
fn bytes_of(chain: &[u32; 8]) -> [u8; 32]
    ensures value { result ≡ digest_bytes chain.now 8 }
    ensures length { length result ≡ 32 }
{
    let [a0, a1, a2, a3] = chain[0].to_be_bytes();
    let [b0, b1, b2, b3] = chain[1].to_be_bytes();
    let [c0, c1, c2, c3] = chain[2].to_be_bytes();
    let [d0, d1, d2, d3] = chain[3].to_be_bytes();
    let [e0, e1, e2, e3] = chain[4].to_be_bytes();
    let [f0, f1, f2, f3] = chain[5].to_be_bytes();
    let [g0, g1, g2, g3] = chain[6].to_be_bytes();
    let [h0, h1, h2, h3] = chain[7].to_be_bytes();
    [
        a0, a1, a2, a3, b0, b1, b2, b3, c0, c1, c2, c3, d0, d1, d2, d3, e0, e1, e2, e3, f0, f1, f2,
        f3, g0, g1, g2, g3, h0, h1, h2, h3,
    ]
}

/// Compresses a block into the hash value of each lane of one half, by the words of the blocks, which are used up.
#[inline(never)]
fn compress_half(states: &mut [Sha256Word; 8], half: Half, words: &mut [u32x8; 16])
    ensures { (j : ℕ) (b : List ℕ) → j < 8 → words32 b ≡ lane_of (lane_at 32) words.old j
        → lane_of (lane_at 32) states.new (first_of half + j) ≡ compress (lane_of (lane_at 32) states.old (first_of half + j)) b }
{
    let mut lanes = [u32x8::splat(0); 8];
    take_half(&mut lanes, states, half);
    compress_lanes(&mut lanes, words);
    put_half(states, half, &lanes);
}

/// Compresses a block into the hash value of each lane, or of each in the half that is named, by the words of the blocks.
#[inline(always)]
fn compress_words(
    states: &mut [Sha256Word; 8],
    schedule: &mut [Sha256Word; ROUNDS],
    words: &[Sha256Word; 16],
    half: Option<Half>,
)
    ensures { (i : ℕ) (b : List ℕ) → i < SHA256_LANES → IsWithin half i → words32 b ≡ lane_of (lane_at 32) words.now i
        → lane_of (lane_at 32) states.new i ≡ compress (lane_of (lane_at 32) states.old i) b }
{
    match half {
        Some(half) => {
            let mut part = [u32x8::splat(0); 16];
            take_half(&mut part, words, half);
            compress_half(states, half, &mut part);
        }
        None => compress_scheduled(states, words, schedule),
    }
}

/// The words of the blocks that hold the digests of hash values, with the padding behind a block and the digest (FIPS 180-4, 5.1.1). A
/// digest of SHA-224 is a word shorter than one of SHA-256.
#[inline(always)]
fn digest_words(inner: &[Sha256Word; 8], bits: u32x16) -> [Sha256Word; 16]
    ensures lanes { (i : ℕ) → i < SHA256_LANES → (a : HashName) → IsTrue (is_sha256 a) → IsDigestBits sha256_hashing a (lane_at 32 bits i)
        → words32 (digest_block sha256_hashing a (lane_of (lane_at 32) inner.now i)) ≡ lane_of (lane_at 32) result i }
    ensures length { length result ≡ 16 }
{
    let full = Sha256Word::splat(BITS_256);
    let one = Sha256Word::splat(0x8000_0000);
    let zero = Sha256Word::splat(0);
    let seventh = Sha256Word::where_equal(bits, full, inner[7], one);
    let eighth = Sha256Word::where_equal(bits, full, one, zero);
    [
        inner[0], inner[1], inner[2], inner[3], inner[4], inner[5], inner[6], seventh, eighth,
        zero, zero, zero, zero, zero, zero, bits,
    ]
}

impl LaneHash for Sha256Lanes {
    type Chain = [u32; 8];

    type States = [Sha256Word; 8];

    type Schedule = [Sha256Word; ROUNDS];

    type Ends = [u8; ENDS_BYTES];

    const LANES: u32 = SHA256_LANES as u32;

    ghost LANES = { SHA256_LANES };

    ghost hashing = { sha256_hashing };

    ghost words = { λ c. c };

    ghost lane = { λ states i. lane_of (lane_at 32) states i };

    ghost ends_bytes = { λ e. e };

    fn block_bytes() -> usize {
        BLOCK_BYTES
    }

    fn served() -> HashName {
        HashName::Sha256
    }

    fn initial(hash: HashName) -> [u32; 8] {
        match hash {
            HashName::Sha224 => INITIAL_224,
            HashName::Sha256 => INITIAL_256,
            HashName::Sha1 | HashName::Sha384 | HashName::Sha512 => unreachable!(),
        }
    }

    fn zeros() -> [u32; 8] {
        [0; 8]
    }

    fn blank_ends() -> [u8; ENDS_BYTES] {
        [0; ENDS_BYTES]
    }

    #[inline(always)]
    fn ends(ends: &[u8; ENDS_BYTES]) -> &[u8] {
        ends
    }

    fn put(ends: &mut [u8; ENDS_BYTES], at: usize, bytes: &[u8]) -> usize {
        put(ends, at, bytes)
    }

    fn digest(hash: HashName, chain: &[u32; 8]) -> Tag {
        let bytes = bytes_of(chain);
        match hash {
            HashName::Sha224 => Tag::from_slice(&bytes[..28]),
            HashName::Sha256 => Tag::from_slice(&bytes),
            HashName::Sha1 | HashName::Sha384 | HashName::Sha512 => unreachable!(),
        }
    }

    fn digest_bits(hash: HashName) -> u32 {
        match hash {
            HashName::Sha224 => BITS_224,
            HashName::Sha256 => BITS_256,
            HashName::Sha1 | HashName::Sha384 | HashName::Sha512 => unreachable!(),
        }
    }

    fn load(state: &[u8]) -> [u32; 8] {
        [
            word32(state, 0),
            word32(state, 1),
            word32(state, 2),
            word32(state, 3),
            word32(state, 4),
            word32(state, 5),
            word32(state, 6),
            word32(state, 7),
        ]
    }

    fn store(state: &mut [u8], chain: &[u32; 8]) {
        state.copy_from_slice(&bytes_of(chain));
    }

    #[inline(always)]
    fn gathered<C: Chains<[u32; 8]>>(chains: &C) -> [Sha256Word; 8] {
        let mut states = [[0; 8]; SHA256_LANES];
        'lanes: for i in 0..SHA256_LANES {
            states[i] = *chains.chain(i);
        }
        gathered(&states)
    }

    #[inline(always)]
    fn scattered(states: &[Sha256Word; 8], i: usize) -> [u32; 8] {
        scattered(states, i)
    }

    #[inline(always)]
    fn blank_states() -> [Sha256Word; 8] {
        [Sha256Word::splat(0); 8]
    }

    #[inline(always)]
    fn set_lane(states: &mut [Sha256Word; 8], i: usize, chain: &[u32; 8]) {
        'words: for k in 0..8 {
            states[k] = with_word32(states[k], i, chain[k]);
        }
    }

    #[inline(always)]
    fn blank_schedule() -> [Sha256Word; ROUNDS] {
        [Sha256Word::splat(0); ROUNDS]
    }

    #[inline(always)]
    fn compress<B: Blocks>(
        states: &mut [Sha256Word; 8],
        schedule: &mut [Sha256Word; ROUNDS],
        blocks: &B,
        half: Option<Half>,
    ) {
        match half {
            Some(half) => {
                let mut words = half_words(blocks, half);
                compress_half(states, half, &mut words);
            }
            None => {
                let words = Sha256Word::block_words(blocks);
                compress_scheduled(states, &words, schedule);
            }
        }
    }

    #[inline(always)]
    fn compress_digests(
        states: &mut [Sha256Word; 8],
        schedule: &mut [Sha256Word; ROUNDS],
        inner: &[Sha256Word; 8],
        bits: u32x16,
        half: Option<Half>,
    ) {
        let words = digest_words(inner, bits);
        compress_words(states, schedule, &words, half);
    }

    #[inline(always)]
    fn compress_mixed<B: Blocks>(
        states: &mut [Sha256Word; 8],
        schedule: &mut [Sha256Word; ROUNDS],
        blocks: &B,
        half: Option<Half>,
        inner: &[Sha256Word; 8],
        bits: u32x16,
        counts: u32x16,
        last: u32,
    ) {
        let mut words = loaded(blocks, half);
        choose(
            counts,
            u32x16::splat(last),
            &digest_words(inner, bits),
            &mut words,
        );
        compress_words(states, schedule, &words, half);
    }

    #[inline(always)]
    fn turn(
        states: &mut [Sha256Word; 8],
        inner: &mut [Sha256Word; 8],
        starts: &[Sha256Word; 8],
        lefts: u32x16,
        turns: u32x16,
    ) {
        choose(lefts, turns, states, inner);
        choose(lefts, turns, starts, states);
    }

    ghost use Rattle.std.proofs.Common.{rules};
    ghost use Rattle.mbj_hmac.specs.Laws.Sha256.{sha256_standard, sha256_blocks, sha256_compressions, sha256_hashes};

    ghost some = { Prim.search rules };

    ghost few = { Prim.search rules };

    ghost narrow = { Prim.search rules };

    ghost standard = { sha256_standard };

    ghost blocks = { sha256_blocks };

    ghost compressions = { sha256_compressions };

    ghost hashes = { sha256_hashes };
}
