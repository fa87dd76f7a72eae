//! States that are stored: the hash value behind one block, and those of a key, from which HMACs go on (RFC 2104, 4).
ghost use Rattle.std.specs.Prelude.{◌≡◌, ℕ, ◌+◌, ◌-◌, ◌*◌, ◌≤◌, ◌++◌, List, length, replicate, take, drop, IfSome, IsTrue};
ghost use Rattle.mbj_types.specs.Auths.{IsHmac, compression_of_name, hash_of_name};
ghost use Rattle.mbj_types.specs.Hmac.{block_key, hmac, padded_key};
ghost use Rattle.mbj_types.specs.States.{block_state, hmac_from_states, key_states};
ghost use Rattle.mbj_hmac.specs.Names.{name_of};

use crate::key::{IPAD, MAX_BLOCK_BYTES, OPAD, hash_key, hash_name, padded};
use crate::lane_hash::LaneHash;
use crate::sha1_lanes::Sha1Lanes;
use crate::sha256_lanes::Sha256Lanes;
use crate::sha512_lanes::Sha512Lanes;
use crate::view::Chains;
use mbj_sha_lanes::{Blocks, Half};
use mbj_types::{Auth, HashName, SHA512_LENGTHS};

/// The longest state, in bytes: that of SHA-384 and SHA-512.
pub const MAX_STATE_BYTES: usize = SHA512_LENGTHS.state;

/// One hash value and one block, in every lane.
#[derive(Clone, Copy)]
struct EachLane<'a, H: LaneHash> {
    chain: &'a H::Chain,
    block: &'a [u8],
}

impl<'a, H: LaneHash> Blocks for EachLane<'a, H> {
    ghost block_bytes = { H.hashing.block_bytes };

    ghost lends = { λ v i. length v.block.now ≡ H.hashing.block_bytes };

    ghost block = { λ v i. v.block.now };

    fn block(&self, _i: usize) -> &[u8] {
        self.block
    }
}

impl<'a, H: LaneHash> Chains<H::Chain> for EachLane<'a, H> {
    ghost words = { H.words };

    ghost lends = { λ v i. Unit {0} };

    ghost chain = { λ v i. H.words v.chain.now };

    fn chain(&self, _i: usize) -> &H::Chain {
        self.chain
    }
}

/// Stores the state behind one block, which is compressed in each lane of one half.
fn store_state<H: LaneHash>(hash: HashName, block: &[u8], state: &mut [u8])
    requires serves { IsTrue (H.hashing.serves hash) }
    requires block { length block.now ≡ (hash_of_name hash).block_bytes }
    requires state { length state.old ≡ (compression_of_name hash).state_bytes }
    ensures { state.new ≡ block_state (compression_of_name hash) block.now }
{
    let chain = H::initial(hash);
    let lanes = EachLane::<H> {
        chain: &chain,
        block,
    };
    let mut states = H::gathered(&lanes);
    H::compress(
        &mut states,
        &mut H::blank_schedule(),
        &lanes,
        Some(Half::Lower),
    );
    H::store(state, &H::scattered(&states, 0));
}

/// Stores the state of a hash behind one block.
fn store_by_name(hash: HashName, block: &[u8], state: &mut [u8])
    requires block { length block.now ≡ (hash_of_name hash).block_bytes }
    requires state { length state.old ≡ (compression_of_name hash).state_bytes }
    ensures { state.new ≡ block_state (compression_of_name hash) block.now }
{
    match hash {
        HashName::Sha1 => store_state::<Sha1Lanes>(hash, block, state),
        HashName::Sha224 | HashName::Sha256 => store_state::<Sha256Lanes>(hash, block, state),
        HashName::Sha384 | HashName::Sha512 => store_state::<Sha512Lanes>(hash, block, state),
    }
}

/// Stores the state of a hash behind one block from a place on, and returns the place behind it.
fn put_state(states: &mut [u8], at: usize, hash: HashName, block: &[u8]) -> usize
    requires block { length block.now ≡ (hash_of_name hash).block_bytes }
    requires room { at + (compression_of_name hash).state_bytes ≤ length states.old }
    ensures next { result ≡ at + (compression_of_name hash).state_bytes }
    ensures written { take (at + (compression_of_name hash).state_bytes) states.new
        ≡ take at states.old ++ block_state (compression_of_name hash) block.now }
    ensures behind { drop (at + (compression_of_name hash).state_bytes) states.new ≡ drop (at + (compression_of_name hash).state_bytes) states.old }
    ensures length { length states.new ≡ length states.old }
{
    let end = at + hash.state_bytes();
    store_by_name(hash, block, &mut states[at..end]);
    end
}

/// The state of a hash behind one block of 64 or 128 bytes, as its words, the highest byte of each first (FIPS 180-4, 6). It is the
/// first 20, 32 or 64 bytes, whole also for SHA-224 and SHA-384, and the bytes behind it are zero. It takes no memory.
///
/// ```
/// let state = one_block(hash, &letters[..hash.block_bytes()]);
/// assert!(rt; len <= MAX_STATE_BYTES);
/// expect_hex_states(&rt, expected, &state[..len]);
/// expect(&rt, "zeros", &state[len..], &[0; MAX_STATE_BYTES][len..]);
/// ```
pub fn one_block(hash: HashName, block: &[u8]) -> [u8; MAX_STATE_BYTES]
    requires { length block.now ≡ (hash_of_name hash).block_bytes }
    ensures { result ≡ block_state (compression_of_name hash) block.now
        ++ replicate (MAX_STATE_BYTES - (compression_of_name hash).state_bytes) 0 }
{
    let mut state = [0; MAX_STATE_BYTES];
    store_by_name(hash, block, &mut state[..hash.state_bytes()]);
    state
}

/// The states of a key of an HMAC with a hash, and zero bytes behind them.
fn states_by_name(hash: HashName, key: &[u8]) -> [u8; MAX_BLOCK_BYTES]
    ensures { result ≡ key_states (hash_of_name hash) (compression_of_name hash) key.now
        ++ replicate (MAX_BLOCK_BYTES - 2 * (compression_of_name hash).state_bytes) 0 }
{
    let key = hash_key(hash, key);
    let mut states = [0; MAX_BLOCK_BYTES];
    let block = hash.block_bytes();
    let at = put_state(&mut states, 0, hash, &padded(&key, IPAD)[..block]);
    put_state(&mut states, at, hash, &padded(&key, OPAD)[..block]);
    states
}

/// The states of a key of an HMAC: the inner state and the outer state behind it, which are the first 40 bytes for SHA-1, 64 for
/// SHA-224 and SHA-256, and 128 for SHA-384 and SHA-512. Each is whole, as its words, the highest byte of each first, and the bytes
/// behind them are zero. A key longer than a block is hashed first. It takes no memory.
///
/// From these states the HMAC of each message is that under the key (RFC 2104, 4). They are as secret as the key.
///
/// ```
/// let states = states_of(&rt, auth, key);
/// let len = expected.len() / 2;
/// assert!(rt; len <= MAX_BLOCK_BYTES);
/// expect_hex_states(&rt, expected, &states[..len]);
/// expect(&rt, "zeros", &states[len..], &[0; MAX_BLOCK_BYTES][len..]);
/// ```
pub fn states(auth: Auth, key: &[u8]) -> [u8; MAX_BLOCK_BYTES]
    requires { IsHmac auth }
    ensures states { IfSome (name_of auth) (λ a. result ≡ key_states (hash_of_name a) (compression_of_name a) key.now
        ++ replicate (MAX_BLOCK_BYTES - 2 * (compression_of_name a).state_bytes) 0) }
    ensures law { IfSome (name_of auth) (λ a. (m : List ℕ)
        → hmac_from_states (compression_of_name a) (take (2 * (compression_of_name a).state_bytes) result) m ≡ hmac (hash_of_name a) key.now m) }
{
    states_by_name(hash_name(auth), key)
}
