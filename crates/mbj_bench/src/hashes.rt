//! The three hashes whose compression is timed, and their forms.
ghost use Rattle.std.specs.Prelude.{◌+◌, ◌^◌, ◌<◌, ◌≤◌, length};

use crate::hash::{Compression, Hash, TURN_BYTES, lead, print_digests, print_times, widened};
use crate::line::{print_bytes, print_words};
use crate::vector::Vector;
use mbj_hmac::{LaneHash, Sha1Lanes, Sha256Lanes, Sha512Lanes};
use mbj_sha_lanes::{Load32, Load64};
use mbj_types::{HashName, Lane32, Lane64, SHA1_LANES, SHA256_LANES, SHA512_LANES};
use sha2::Digest;
use std::io::{self, Print};
use std::simd::{u32x4, u32x8, u64x2, u64x4};
use std::time::Clock;

// The blocks that a call of `compress` takes are as many bytes for each hash.
const _: () = prove!(64 * SHA1_LANES == TURN_BYTES);

const _: () = prove!(64 * SHA256_LANES == TURN_BYTES);

const _: () = prove!(128 * SHA512_LANES == TURN_BYTES);

/// The two-block message of the standard's example for SHA-1 and SHA-256, of 448 bits.
const MESSAGE_448: &[u8] = b"abcdbcdecdefdefgefghfghighijhijkijkljklmklmnlmnomnopnopq";

/// The two-block message of the standard's example for SHA-512, of 896 bits.
const MESSAGE_896: &[u8] =
    b"abcdefghbcdefghicdefghijdefghijkefghijklfghijklmghijklmnhijklmnoijklmnopjklmnopqklmnopqrlmnopqrsmnopqrstnopqrstu";

/// A message of fewer than 8,192 bytes with its padding (FIPS 180-4, 5.1), N bytes in all.
fn padded<const N: usize>(message: &[u8]) -> [u8; N]
    requires room { length message.now + 17 ≤ N }
    requires short { length message.now < 8192 }
{
    let mut bytes = [0; N];
    let block = &mut bytes[..];
    block[..message.len()].copy_from_slice(message);
    block[message.len()] = 0x80;
    let bits = 8 * message.len() as u16;
    block[N - 2..].copy_from_slice(&bits.to_be_bytes());
    bytes
}

/// SHA-1.
pub struct Sha1;

impl Hash for Sha1 {
    type Blocks = [[u8; 64]; SHA1_LANES];

    const NAME: &'static str = "sha1";

    const LANES: [&'static str; 2] = ["4 lanes", "8 lanes"];

    const SEVENS: Self::Blocks = [[7; 64]; SHA1_LANES];

    fn short_blocks() -> Self::Blocks {
        let mut blocks = [padded(b""); SHA1_LANES];
        blocks[0] = padded(b"abc");
        blocks
    }

    fn narrow(blocks: &Self::Blocks, calls: u32, lane: usize) -> [u64; 8] {
        let mut words = u32x8::block_words(blocks).map(|lanes| lanes.extract::<0, 4>());
        lead::<u32x4, Sha1>(&mut [u32x4::splat(0); 5], &mut words, calls, lane)
    }

    fn wide(blocks: &Self::Blocks, calls: u32, lane: usize) -> [u64; 8] {
        let mut words = u32x8::block_words(blocks);
        lead::<u32x8, Sha1>(&mut [u32x8::splat(0); 5], &mut words, calls, lane)
    }

    fn arrays(blocks: &Self::Blocks, calls: u32, lane: usize) -> [u64; 8] {
        let mut states = [Sha1Lanes::initial(HashName::Sha1); SHA1_LANES];
        for _ in 0..calls {
            mbj_sha1_lanes::compress(&mut states, blocks);
        }
        widened(&states[lane])
    }

    fn long_digest() -> [u64; 8] {
        let mut states = [Sha1Lanes::initial(HashName::Sha1); SHA1_LANES];
        for block in padded::<128>(MESSAGE_448).as_chunks::<64>().0 {
            mbj_sha1_lanes::compress(&mut states, &[*block; SHA1_LANES]);
        }
        widened(&states[SHA1_LANES - 1])
    }

    fn plain(turns: u32) -> u64 {
        let mut hasher = sha1::Sha1::new();
        for _ in 0..turns {
            hasher.update(&[7; TURN_BYTES]);
        }
        hasher.finalize()[0] as u64
    }

    fn print(rt: &impl Print, value: &[u64; 8]) -> io::Result<()> {
        print_words(rt, &value[..5], 8)
    }
}

impl<V: Vector + Lane32> Compression<V> for Sha1 {
    ghost count = { 5 };

    fn initial() -> [u64; 8] {
        widened(&Sha1Lanes::initial(HashName::Sha1))
    }

    fn compress(states: &mut [V], words: &mut [V]) {
        mbj_sha1_lanes::compress_lanes(states, words);
    }
}

/// SHA-256.
pub struct Sha256;

impl Hash for Sha256 {
    type Blocks = [[u8; 64]; SHA256_LANES];

    const NAME: &'static str = "sha256";

    const LANES: [&'static str; 2] = ["4 lanes", "8 lanes"];

    const SEVENS: Self::Blocks = [[7; 64]; SHA256_LANES];

    fn short_blocks() -> Self::Blocks {
        let mut blocks = [padded(b""); SHA256_LANES];
        blocks[0] = padded(b"abc");
        blocks
    }

    fn narrow(blocks: &Self::Blocks, calls: u32, lane: usize) -> [u64; 8] {
        let mut words = u32x8::block_words(blocks).map(|lanes| lanes.extract::<0, 4>());
        lead::<u32x4, Sha256>(&mut [u32x4::splat(0); 8], &mut words, calls, lane)
    }

    fn wide(blocks: &Self::Blocks, calls: u32, lane: usize) -> [u64; 8] {
        let mut words = u32x8::block_words(blocks);
        lead::<u32x8, Sha256>(&mut [u32x8::splat(0); 8], &mut words, calls, lane)
    }

    fn arrays(blocks: &Self::Blocks, calls: u32, lane: usize) -> [u64; 8] {
        let mut states = [Sha256Lanes::initial(HashName::Sha256); SHA256_LANES];
        for _ in 0..calls {
            mbj_sha256_lanes::compress(&mut states, blocks);
        }
        widened(&states[lane])
    }

    fn long_digest() -> [u64; 8] {
        let mut states = [Sha256Lanes::initial(HashName::Sha256); SHA256_LANES];
        for block in padded::<128>(MESSAGE_448).as_chunks::<64>().0 {
            mbj_sha256_lanes::compress(&mut states, &[*block; SHA256_LANES]);
        }
        widened(&states[SHA256_LANES - 1])
    }

    fn plain(turns: u32) -> u64 {
        let mut hasher = sha2::Sha256::new();
        for _ in 0..turns {
            hasher.update(&[7; TURN_BYTES]);
        }
        hasher.finalize()[0] as u64
    }

    fn print(rt: &impl Print, value: &[u64; 8]) -> io::Result<()> {
        print_words(rt, value, 8)
    }
}

impl<V: Vector + Lane32> Compression<V> for Sha256 {
    ghost count = { 8 };

    fn initial() -> [u64; 8] {
        widened(&Sha256Lanes::initial(HashName::Sha256))
    }

    fn compress(states: &mut [V], words: &mut [V]) {
        mbj_sha256_lanes::compress_lanes(states, words);
    }
}

/// SHA-512.
pub struct Sha512;

impl Hash for Sha512 {
    type Blocks = [[u8; 128]; SHA512_LANES];

    const NAME: &'static str = "sha512";

    const LANES: [&'static str; 2] = ["2 lanes", "4 lanes"];

    const SEVENS: Self::Blocks = [[7; 128]; SHA512_LANES];

    fn short_blocks() -> Self::Blocks {
        let mut blocks = [padded(b""); SHA512_LANES];
        blocks[0] = padded(b"abc");
        blocks
    }

    fn narrow(blocks: &Self::Blocks, calls: u32, lane: usize) -> [u64; 8] {
        let mut words = u64x4::block_words(blocks).map(|lanes| lanes.extract::<0, 2>());
        lead::<u64x2, Sha512>(&mut [u64x2::splat(0); 8], &mut words, calls, lane)
    }

    fn wide(blocks: &Self::Blocks, calls: u32, lane: usize) -> [u64; 8] {
        let mut words = u64x4::block_words(blocks);
        lead::<u64x4, Sha512>(&mut [u64x4::splat(0); 8], &mut words, calls, lane)
    }

    fn arrays(blocks: &Self::Blocks, calls: u32, lane: usize) -> [u64; 8] {
        let mut states = [Sha512Lanes::initial(HashName::Sha512); SHA512_LANES];
        for _ in 0..calls {
            mbj_sha512_lanes::compress(&mut states, blocks);
        }
        states[lane]
    }

    fn long_digest() -> [u64; 8] {
        let mut states = [Sha512Lanes::initial(HashName::Sha512); SHA512_LANES];
        for block in padded::<256>(MESSAGE_896).as_chunks::<128>().0 {
            mbj_sha512_lanes::compress(&mut states, &[*block; SHA512_LANES]);
        }
        states[SHA512_LANES - 1]
    }

    fn plain(turns: u32) -> u64 {
        let mut hasher = sha2::Sha512::new();
        for _ in 0..turns {
            hasher.update(&[7; TURN_BYTES]);
        }
        hasher.finalize()[0] as u64
    }

    fn print(rt: &impl Print, value: &[u64; 8]) -> io::Result<()> {
        print_words(rt, value, 16)
    }
}

impl<V: Vector + Lane64> Compression<V> for Sha512 {
    ghost count = { 8 };

    fn initial() -> [u64; 8] {
        Sha512Lanes::initial(HashName::Sha512)
    }

    fn compress(states: &mut [V], words: &mut [V]) {
        mbj_sha512_lanes::compress_lanes(states, words);
    }
}

/// Prints the digests of each hash.
pub fn print_all_digests(rt: &impl Print) -> io::Result<()> {
    print_digests::<Sha1>(rt)?;
    print_digests::<Sha256>(rt)?;
    print_digests::<Sha512>(rt)
}

/// Prints how fast each form of each hash is.
pub fn print_all_times(rt: &(impl Print + Clock)) -> io::Result<()> {
    let mut sum = 0;
    print_times::<Sha1>(rt, &mut sum)?;
    print_times::<Sha256>(rt, &mut sum)?;
    print_times::<Sha512>(rt, &mut sum)?;
    print_bytes(rt, "checksum ", &sum.to_be_bytes())
}
