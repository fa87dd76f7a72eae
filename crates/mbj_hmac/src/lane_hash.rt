ghost use Rattle.std.specs.Prelude.{◌≡◌, ℕ, ◌+◌, ◌*◌, ◌^◌, ◌<◌, ◌≤◌, ◌==◌, List, ◌++◌, length, take, replicate, IsTrue, if◌then◌else◌};
ghost use Rattle.mbj_types.specs.Auths.{compression_of_name, hash_of_name};
ghost use Rattle.mbj_types.specs.declared.class.HashName.{HashName};
ghost use Rattle.mbj_types.specs.Lanes.{lane_at};
ghost use Rattle.mbj_sha_lanes.specs.Halves.{IsWithin};
ghost use Rattle.mbj_hmac.specs.Rounds.{Hashing, compression, hashed};
ghost use Rattle.mbj_hmac.specs.Inside.InLanes.{IsDigestBits, most_lanes};
ghost use Rattle.mbj_hmac.specs.Inside.Layout.{IsStandard, digest_block};

use crate::view::Chains;
use mbj_sha_lanes::{Blocks, Half};
use mbj_types::{HashName, Tag};
use std::simd::u32x16;

/// Hashes of FIPS 180-4 that share a compression, which is done in lanes.
pub trait LaneHash {
    /// A hash value.
    type Chain: Copy + Drop;

    /// The hash values of all lanes, as vectors.
    type States: Drop;

    /// Room for the schedule of a block in each lane, if it is made whole before the rounds.
    type Schedule: Drop;

    /// Four blocks, which an entry holds beside its packet.
    type Ends: Copy + Drop;

    /// How many hash values are compressed at once.
    const LANES: u32;

    ghost LANES: { ℕ };

    /// How the hashes work.
    ghost hashing: { Hashing };

    /// The words of a hash value.
    ghost words: { Self.Chain → List ℕ };

    /// The words of the hash value in a lane.
    ghost lane: { Self.States → ℕ → List ℕ };

    /// The bytes of an entry's blocks.
    ghost ends_bytes: { Self.Ends → List ℕ };

    /// The length of a block, in bytes.
    fn block_bytes() -> usize
        ensures { result ≡ hashing.block_bytes };

    /// One of the hashes that are served.
    fn served() -> HashName
        ensures { IsTrue (hashing.serves result) };

    /// The initial hash value of a hash that is served.
    fn initial(hash: HashName) -> Self::Chain
        requires { IsTrue (hashing.serves hash) }
        ensures { words result ≡ hashing.initial hash };

    /// A hash value of zeros.
    fn zeros() -> Self::Chain
        ensures { words result ≡ replicate hashing.words 0 };

    /// Four blocks, whose bytes are not looked at.
    fn blank_ends() -> Self::Ends
        ensures { length (ends_bytes result) ≡ 4 * hashing.block_bytes };

    /// Lends the bytes of an entry's blocks.
    fn ends(ends: &Self::Ends) -> &[u8]
        ensures { result.now ≡ ends_bytes ends.now };

    /// Writes bytes, and returns the place behind them. What stands behind is not looked at.
    fn put(ends: &mut Self::Ends, at: usize, bytes: &[u8]) -> usize
        requires { at + length bytes.now ≤ 4 * hashing.block_bytes }
        ensures next { result ≡ at + length bytes.now }
        ensures written { take (at + length bytes.now) (ends_bytes ends.new) ≡ take at (ends_bytes ends.old) ++ bytes.now }
        ensures len { length (ends_bytes ends.new) ≡ 4 * hashing.block_bytes };

    /// The digest that a hash value gives, of a hash that is served.
    fn digest(hash: HashName, chain: &Self::Chain) -> Tag
        requires { IsTrue (hashing.serves hash) }
        ensures { result ≡ hashing.digest hash (words chain.now) };

    /// The bits of a block and of a digest behind it, of a hash that is served.
    fn digest_bits(hash: HashName) -> u32
        requires { IsTrue (hashing.serves hash) }
        ensures { IsDigestBits hashing hash result };

    /// The hash value that a stored state holds.
    fn load(state: &[u8]) -> Self::Chain
        requires { length state.now ≡ hashing.state_bytes }
        ensures { words result ≡ hashing.loaded state.now };

    /// Stores a hash value, whole.
    fn store(state: &mut [u8], chain: &Self::Chain)
        requires { length state.old ≡ hashing.state_bytes }
        ensures { state.new ≡ hashing.stored (words chain.now) };

    /// The hash values as vectors, that of each lane.
    fn gathered<C: Chains<Self::Chain>>(chains: &C) -> Self::States
        requires words { (c : Self.Chain) → C.words c ≡ words c }
        requires lent { (i : ℕ) → i < LANES → C.lends chains.now i }
        ensures { (i : ℕ) → i < LANES → lane result i ≡ C.chain chains.now i };

    /// The hash value of a lane.
    fn scattered(states: &Self::States, i: usize) -> Self::Chain
        requires { i < LANES }
        ensures { words result ≡ lane states.now i };

    /// Room for a schedule, whose words are not looked at.
    fn blank_schedule() -> Self::Schedule;

    /// Compresses a block into the hash value of each lane, or of each in the half that is named; what the others hold then is not
    /// looked at. The schedule is made in the room that is lent.
    fn compress<B: Blocks>(
        states: &mut Self::States,
        schedule: &mut Self::Schedule,
        blocks: &B,
        half: Option<Half>,
    )
        requires size { B.block_bytes ≡ hashing.block_bytes }
        requires lent { (i : ℕ) → i < LANES → B.lends blocks.now i }
        ensures { (i : ℕ) → i < LANES → IsWithin half i
            → lane states.new i ≡ hashing.compress (lane states.old i) (B.block blocks.now i) };

    /// Compresses into the hash value of each lane, or of each in the half that is named, the block that holds the digest of its inner
    /// hash value, with the padding behind a block and the digest. A lane's word of `bits` says how many bits these two have. What the
    /// other lanes hold then is not looked at.
    fn compress_digests(
        states: &mut Self::States,
        schedule: &mut Self::Schedule,
        inner: &Self::States,
        bits: u32x16,
        half: Option<Half>,
    )
        ensures { (i : ℕ) → i < LANES → IsWithin half i → (a : HashName) → IsTrue (hashing.serves a) → IsDigestBits hashing a (lane_at 32 bits i)
            → lane states.new i ≡ hashing.compress (lane states.old i) (digest_block hashing a (lane inner.now i)) };

    /// Compresses such a block if a lane's word of `counts` is the number `last`, and else the lane's block of those that are lent.
    fn compress_mixed<B: Blocks>(
        states: &mut Self::States,
        schedule: &mut Self::Schedule,
        blocks: &B,
        half: Option<Half>,
        inner: &Self::States,
        bits: u32x16,
        counts: u32x16,
        last: u32,
    )
        requires size { B.block_bytes ≡ hashing.block_bytes }
        requires lent { (i : ℕ) → i < LANES → B.lends blocks.now i }
        ensures digests { (i : ℕ) → i < LANES → IsWithin half i → lane_at 32 counts i ≡ last
            → (a : HashName) → IsTrue (hashing.serves a) → IsDigestBits hashing a (lane_at 32 bits i)
            → lane states.new i ≡ hashing.compress (lane states.old i) (digest_block hashing a (lane inner.now i)) }
        ensures blocks { (i : ℕ) → i < LANES → IsWithin half i → (lane_at 32 counts i ≡ last → ⊥)
            → lane states.new i ≡ hashing.compress (lane states.old i) (B.block blocks.now i) };

    /// In each lane in which `lefts` and `turns` have the same number the hash value becomes the inner one, and that of `starts` takes its
    /// place.
    fn turn(
        states: &mut Self::States,
        inner: &mut Self::States,
        starts: &Self::States,
        lefts: u32x16,
        turns: u32x16,
    )
        ensures states { (i : ℕ) → i < LANES
            → lane states.new i ≡ if lane_at 32 lefts i == lane_at 32 turns i then lane starts.now i else lane states.old i }
        ensures inner { (i : ℕ) → i < LANES
            → lane inner.new i ≡ if lane_at 32 lefts i == lane_at 32 turns i then lane states.old i else lane inner.old i };

    /// Hash values of lanes that have none, which are not looked at.
    fn blank_states() -> Self::States;

    /// A lane gets another hash value.
    fn set_lane(states: &mut Self::States, i: usize, chain: &Self::Chain)
        requires { i < LANES }
        ensures here { lane states.new i ≡ words chain.now }
        ensures others { (j : ℕ) → j < LANES → (j ≡ i → ⊥) → lane states.new j ≡ lane states.old j };

    /// There is a lane.
    ghost some: { 0 < LANES };

    /// The lanes are counted by a `u32`.
    ghost few: { LANES < 2 ^ 32 };

    /// The rests of all lanes stand in one vector.
    ghost narrow: { LANES ≤ most_lanes };

    /// Padding, digests and stored states are as FIPS 180-4 has them.
    ghost standard: { IsStandard hashing };

    /// The hashes have these blocks.
    ghost blocks: { (a : HashName) → IsTrue (hashing.serves a) → (hash_of_name a).block_bytes ≡ hashing.block_bytes };

    /// The hashes go on by blocks in this way.
    ghost compressions: { (a : HashName) → IsTrue (hashing.serves a) → compression_of_name a ≡ compression hashing a };

    /// A hash is the digest of the hash value to which the blocks lead.
    ghost hashes: { (a : HashName) → IsTrue (hashing.serves a)
        → (m : List ℕ) → (hash_of_name a).digest m ≡ hashing.digest a (hashed hashing a m) };
}
