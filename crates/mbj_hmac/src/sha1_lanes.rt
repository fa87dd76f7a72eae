ghost use Rattle.std.specs.Prelude.{◌≡◌, ℕ, ◌<◌, ◌≤◌, ◌*◌, ◌+◌, ◌++◌, List, length, take, IsTrue};
ghost use Rattle.sha1.specs.Sha1.{compress, digest_bytes};
ghost use Rattle.mbj_types.specs.Lanes.{lane_at, lane_of};
ghost use Rattle.mbj_types.specs.declared.class.HashName.{HashName};
ghost use Rattle.mbj_types.specs.declared.kind.TheConstants.{SHA1_LANES};
ghost use Rattle.mbj_sha_lanes.specs.Halves.{IsWithin, first_of};
ghost use Rattle.mbj_sha_lanes.specs.Words.{words32};
ghost use Rattle.mbj_hmac.specs.Hashings.{is_sha1, sha1_hashing};
ghost use Rattle.mbj_hmac.specs.Inside.InLanes.{IsDigestBits};
ghost use Rattle.mbj_hmac.specs.Inside.Layout.{digest_block};

use crate::ends::put;
use crate::lane_hash::LaneHash;
use crate::lane_word::choose;
use crate::loaded::loaded;
use crate::rests::with_word32;
use crate::view::Chains;
use crate::words::word32;
use mbj_sha_lanes::{Blocks, Half, Load32, half_words, put_half, take_half};
use mbj_sha1_lanes::{compress_lanes, gathered, scattered};
use mbj_types::{HashName, SHA1_LANES, SHA1_LENGTHS, Sha1Word, Tag};
use std::simd::{u32x8, u32x16};

/// SHA-1 in lanes.
pub struct Sha1Lanes;

/// The length of a block, in bytes.
const BLOCK_BYTES: usize = SHA1_LENGTHS.block;

/// The bytes of four blocks.
const ENDS_BYTES: usize = 4 * BLOCK_BYTES;

/// The initial hash value (FIPS 180-4, 5.3.1).
const INITIAL: [u32; 5] = [0x67452301, 0xefcdab89, 0x98badcfe, 0x10325476, 0xc3d2e1f0];

/// The words of a hash value, the highest byte of each first.
fn bytes_of(chain: &[u32; 5]) -> [u8; 20]
    ensures { result ≡ digest_bytes chain.now 5 }
{
    let [a0, a1, a2, a3] = chain[0].to_be_bytes();
    let [b0, b1, b2, b3] = chain[1].to_be_bytes();
    let [c0, c1, c2, c3] = chain[2].to_be_bytes();
    let [d0, d1, d2, d3] = chain[3].to_be_bytes();
    let [e0, e1, e2, e3] = chain[4].to_be_bytes();
    [
        a0, a1, a2, a3, b0, b1, b2, b3, c0, c1, c2, c3, d0, d1, d2, d3, e0, e1, e2, e3,
    ]
}

/// Compresses a block into the hash value of each lane of one half, by the words of the blocks, which are used up.
#[inline(never)]
fn compress_half(states: &mut [Sha1Word; 5], half: Half, words: &mut [u32x8; 16])
    ensures { (j : ℕ) (b : List ℕ) → j < 8 → words32 b ≡ lane_of (lane_at 32) words.old j
        → lane_of (lane_at 32) states.new (first_of half + j) ≡ compress (lane_of (lane_at 32) states.old (first_of half + j)) b }
{
    let mut lanes = [u32x8::splat(0); 5];
    take_half(&mut lanes, states, half);
    compress_lanes(&mut lanes, words);
    put_half(states, half, &lanes);
}

/// Compresses a block into the hash value of each lane, or of each in the half that is named, by the words of the blocks, which are used
/// up.
#[inline(always)]
fn compress_words(states: &mut [Sha1Word; 5], words: &mut [Sha1Word; 16], half: Option<Half>)
    ensures { (i : ℕ) (b : List ℕ) → i < SHA1_LANES → IsWithin half i → words32 b ≡ lane_of (lane_at 32) words.old i
        → lane_of (lane_at 32) states.new i ≡ compress (lane_of (lane_at 32) states.old i) b }
{
    match half {
        Some(half) => {
            let mut part = [u32x8::splat(0); 16];
            take_half(&mut part, words, half);
            compress_half(states, half, &mut part);
        }
        None => compress_lanes(states, words),
    }
}

/// The words of the blocks that hold the digests of hash values, with the padding behind a block and the digest (FIPS 180-4, 5.1.1).
#[inline(always)]
fn digest_words(inner: &[Sha1Word; 5], bits: u32x16) -> [Sha1Word; 16]
    ensures lanes { (i : ℕ) → i < SHA1_LANES → (a : HashName) → IsTrue (is_sha1 a) → IsDigestBits sha1_hashing a (lane_at 32 bits i)
        → words32 (digest_block sha1_hashing a (lane_of (lane_at 32) inner.now i)) ≡ lane_of (lane_at 32) result i }
    ensures length { length result ≡ 16 }
{
    let one = Sha1Word::splat(0x8000_0000);
    let zero = Sha1Word::splat(0);
    [
        inner[0], inner[1], inner[2], inner[3], inner[4], one, zero, zero, zero, zero, zero, zero,
        zero, zero, zero, bits,
    ]
}

impl LaneHash for Sha1Lanes {
    type Chain = [u32; 5];

    type States = [Sha1Word; 5];

    // The schedule is made in the words of the block, each word when its round comes.
    type Schedule = ();

    type Ends = [u8; ENDS_BYTES];

    const LANES: u32 = SHA1_LANES as u32;

    ghost LANES = { SHA1_LANES };

    ghost hashing = { sha1_hashing };

    ghost words = { λ c. c };

    ghost lane = { λ states i. lane_of (lane_at 32) states i };

    ghost ends_bytes = { λ e. e };

    fn block_bytes() -> usize {
        BLOCK_BYTES
    }

    fn served() -> HashName {
        HashName::Sha1
    }

    fn initial(hash: HashName) -> [u32; 5] {
        match hash {
            HashName::Sha1 => INITIAL,
            HashName::Sha224 | HashName::Sha256 | HashName::Sha384 | HashName::Sha512 =>
                unreachable!(),
        }
    }

    fn zeros() -> [u32; 5] {
        [0; 5]
    }

    fn blank_ends() -> [u8; ENDS_BYTES] {
        [0; ENDS_BYTES]
    }

    #[inline(always)]
    fn ends(ends: &[u8; ENDS_BYTES]) -> &[u8] {
        ends
    }

    fn put(ends: &mut [u8; ENDS_BYTES], at: usize, bytes: &[u8]) -> usize {
        put(ends, at, bytes)
    }

    fn digest(hash: HashName, chain: &[u32; 5]) -> Tag {
        match hash {
            HashName::Sha1 => Tag::from_slice(&bytes_of(chain)),
            HashName::Sha224 | HashName::Sha256 | HashName::Sha384 | HashName::Sha512 =>
                unreachable!(),
        }
    }

    fn digest_bits(hash: HashName) -> u32 {
        match hash {
            HashName::Sha1 => 8 * (BLOCK_BYTES as u32 + SHA1_LENGTHS.digest as u32),
            HashName::Sha224 | HashName::Sha256 | HashName::Sha384 | HashName::Sha512 =>
                unreachable!(),
        }
    }

    fn load(state: &[u8]) -> [u32; 5] {
        [
            word32(state, 0),
            word32(state, 1),
            word32(state, 2),
            word32(state, 3),
            word32(state, 4),
        ]
    }

    fn store(state: &mut [u8], chain: &[u32; 5]) {
        state.copy_from_slice(&bytes_of(chain));
    }

    #[inline(always)]
    fn gathered<C: Chains<[u32; 5]>>(chains: &C) -> [Sha1Word; 5] {
        let mut states = [[0; 5]; SHA1_LANES];
        'lanes: for i in 0..SHA1_LANES {
            states[i] = *chains.chain(i);
        }
        gathered(&states)
    }

    #[inline(always)]
    fn scattered(states: &[Sha1Word; 5], i: usize) -> [u32; 5] {
        scattered(states, i)
    }

    #[inline(always)]
    fn blank_states() -> [Sha1Word; 5] {
        [Sha1Word::splat(0); 5]
    }

    #[inline(always)]
    fn set_lane(states: &mut [Sha1Word; 5], i: usize, chain: &[u32; 5]) {
        'words: for k in 0..5 {
            states[k] = with_word32(states[k], i, chain[k]);
        }
    }

    fn blank_schedule() {}

    #[inline(always)]
    fn compress<B: Blocks>(
        states: &mut [Sha1Word; 5],
        _schedule: &mut (),
        blocks: &B,
        half: Option<Half>,
    ) {
        match half {
            Some(half) => {
                let mut words = half_words(blocks, half);
                compress_half(states, half, &mut words);
            }
            None => {
                let mut words = Sha1Word::block_words(blocks);
                compress_lanes(states, &mut words);
            }
        }
    }

    #[inline(always)]
    fn compress_digests(
        states: &mut [Sha1Word; 5],
        _schedule: &mut (),
        inner: &[Sha1Word; 5],
        bits: u32x16,
        half: Option<Half>,
    ) {
        let mut words = digest_words(inner, bits);
        compress_words(states, &mut words, half);
    }

    #[inline(always)]
    fn compress_mixed<B: Blocks>(
        states: &mut [Sha1Word; 5],
        _schedule: &mut (),
        blocks: &B,
        half: Option<Half>,
        inner: &[Sha1Word; 5],
        bits: u32x16,
        counts: u32x16,
        last: u32,
    ) {
        let mut words = loaded(blocks, half);
        choose(
            counts,
            u32x16::splat(last),
            &digest_words(inner, bits),
            &mut words,
        );
        compress_words(states, &mut words, half);
    }

    #[inline(always)]
    fn turn(
        states: &mut [Sha1Word; 5],
        inner: &mut [Sha1Word; 5],
        starts: &[Sha1Word; 5],
        lefts: u32x16,
        turns: u32x16,
    ) {
        choose(lefts, turns, states, inner);
        choose(lefts, turns, starts, states);
    }

    ghost use Rattle.std.proofs.Common.{rules};
    ghost use Rattle.mbj_hmac.specs.Laws.Sha1.{sha1_standard, sha1_blocks, sha1_compressions, sha1_hashes};

    ghost some = { Prim.search rules };

    ghost few = { Prim.search rules };

    ghost narrow = { Prim.search rules };

    ghost standard = { sha1_standard };

    ghost blocks = { sha1_blocks };

    ghost compressions = { sha1_compressions };

    ghost hashes = { sha1_hashes };
}
