ghost use Rattle.std.specs.Prelude.{◌≡◌, ◌≤◌, ◌%◌, length};
ghost use Rattle.mbj_aes_lanes.specs.KeyLanes.{IsFull};

use crate::clock::{fastest, nanos_since};
use crate::ghash::fill;
use crate::hash::{Hash, TURN_BYTES};
use crate::hashes;
use crate::line::{hundredths, print_bytes, print_ratio};
use mbj_aes::Schedule;
use mbj_aes_lanes::{LaneKeys, decrypt32, encrypt32};
use mbj_cbc::decrypt_in_place;
use mbj_ctr::apply;
use mbj_types::{AES_LANES, BLOCK_BYTES};
use sha1::Sha1;
use std::io::{self, Print};
use std::time::{Clock, Instant};

/// The keys are the first 16, 24 and 32 of these bytes.
const KEY: [u8; 32] = [
    0x00, 0x01, 0x02, 0x03, 0x04, 0x05, 0x06, 0x07, 0x08, 0x09, 0x0a, 0x0b, 0x0c, 0x0d, 0x0e, 0x0f,
    0x10, 0x11, 0x12, 0x13, 0x14, 0x15, 0x16, 0x17, 0x18, 0x19, 0x1a, 0x1b, 0x1c, 0x1d, 0x1e, 0x1f,
];

/// The key of FIPS 197, appendix A.1.
const EXPANDED_KEY: u128 = 0x2b7e_1516_28ae_d2a6_abf7_1588_09cf_4f3c;

/// The IV of SP 800-38A, appendix F.5.
const IV: u128 = 0xf0f1_f2f3_f4f5_f6f7_f8f9_fafb_fcfd_feff;

/// The bytes of the longest text.
const TEXT_BYTES: usize = 1500;

/// The bytes of a block in each lane.
const LANES_BYTES: u32 = (AES_LANES * BLOCK_BYTES) as u32;

/// The bytes of a schedule of 10 rounds.
const SCHEDULE_BYTES: u32 = 176;

/// The most bytes of one pass, and the passes of which the fastest counts.
const PASS_BYTES: u32 = 131_072;

const PASSES: u32 = 50;

/// A call, and how many rounds or bytes of text.
#[derive(Clone, Copy)]
enum Call {
    /// A block in each lane, under one key of this many rounds.
    Encrypt(u32),
    Decrypt(u32),
    /// A schedule of 10 rounds put in one lane.
    Put,
    /// A schedule of 10 rounds made of its key.
    Expand,
    /// A text of this many bytes, its key of 10 rounds expanded once.
    Ctr(usize),
    CbcDecryption(usize),
    /// The plain crate for SHA-1.
    PlainSha1,
}

/// The calls that are timed, by their names.
const CALLS: [(&str, Call); 14] = [
    ("encrypt32, 10 rounds", Call::Encrypt(10)),
    ("encrypt32, 12 rounds", Call::Encrypt(12)),
    ("encrypt32, 14 rounds", Call::Encrypt(14)),
    ("decrypt32, 10 rounds", Call::Decrypt(10)),
    ("decrypt32, 12 rounds", Call::Decrypt(12)),
    ("decrypt32, 14 rounds", Call::Decrypt(14)),
    ("put", Call::Put),
    ("expand", Call::Expand),
    ("ctr, 64 bytes", Call::Ctr(64)),
    ("ctr, 256 bytes", Call::Ctr(256)),
    ("ctr, 1500 bytes", Call::Ctr(TEXT_BYTES)),
    ("cbc decryption, 64 bytes", Call::CbcDecryption(64)),
    ("cbc decryption, 256 bytes", Call::CbcDecryption(256)),
    // The whole blocks of a text of 1,500 bytes.
    ("cbc decryption, 1488 bytes", Call::CbcDecryption(1488)),
];

impl Call {
    /// The bytes of text, or of schedule, of one turn.
    fn bytes(self) -> u32 {
        match self {
            Call::Encrypt(_) | Call::Decrypt(_) => LANES_BYTES,
            Call::Put | Call::Expand => SCHEDULE_BYTES,
            Call::Ctr(len) | Call::CbcDecryption(len) => len.min(TEXT_BYTES) as u32,
            Call::PlainSha1 => TURN_BYTES as u32,
        }
    }

    /// The turns of one pass.
    fn turns(self) -> u32 {
        PASS_BYTES.checked_div(self.bytes()).unwrap_or(0)
    }
}

/// What the calls work on.
#[derive(Drop)]
struct Texts {
    blocks: [[u8; 16]; AES_LANES],
    text: [u8; TEXT_BYTES],
}

/// New texts.
fn filled_texts() -> Texts {
    let mut texts = Texts {
        blocks: [[0; 16]; AES_LANES],
        text: [0; TEXT_BYTES],
    };
    fill(texts.blocks.as_flattened_mut());
    fill(&mut texts.text);
    texts
}

/// The schedule of the 16 bytes of KEY from `i` on.
fn schedule_from(i: usize) -> Schedule
    requires { i ≤ 16 }
    ensures { length result ≡ 176 }
{
    Schedule::expand(&KEY[i..i + 16])
}

/// The schedule of the key of 10, 12 or else 14 rounds.
fn schedule(rounds: u32) -> Schedule {
    match rounds {
        10 => Schedule::expand(&KEY[..16]),
        12 => Schedule::expand(&KEY[..24]),
        _ => Schedule::expand(&KEY),
    }
}

/// Enciphers the blocks by turns, under one key of this many rounds.
fn encrypt(rounds: u32, blocks: &mut [[u8; 16]; AES_LANES], turns: u32) {
    let keys = LaneKeys::all(&schedule(rounds));
    for _ in 0..turns {
        encrypt32(&keys, blocks);
    }
}

/// Deciphers them.
fn decrypt(rounds: u32, blocks: &mut [[u8; 16]; AES_LANES], turns: u32) {
    let keys = LaneKeys::all(&schedule(rounds));
    for _ in 0..turns {
        decrypt32(&keys, blocks);
    }
}

/// Puts a schedule in the lanes by turns, and enciphers the blocks under what is there then.
fn put(blocks: &mut [[u8; 16]; AES_LANES], turns: u32) {
    let key = schedule_from(0);
    let mut keys = LaneKeys::all(&key);
    'turns: for turn in 0..turns {
        keys.put(turn % AES_LANES as u32, &key);
    }
    encrypt32(&keys, blocks);
}

/// Keys of 10 rounds, that in lane i being the bytes of KEY from i % 16 on.
fn keys_of_lanes() -> LaneKeys
    ensures { IsFull result }
{
    let mut keys = LaneKeys::all(&schedule_from(0));
    'lanes: for lane in 0..AES_LANES as u32 {
        keys.put(lane, &schedule_from(lane as usize % 16));
    }
    keys
}

/// Makes the schedule of a key, that of its last round key, and so on. The last one's last round key goes into the block.
fn expand(block: &mut [u8; 16], turns: u32) {
    let mut key = EXPANDED_KEY.to_be_bytes();
    for _ in 0..turns {
        key = Schedule::expand(&key).round_key(10);
    }
    *block = key;
}

fn ctr(text: &mut [u8], turns: u32) {
    for _ in 0..turns {
        apply(&schedule(10), &IV.to_be_bytes(), text);
    }
}

fn cbc_decryption(text: &mut [u8], turns: u32)
    requires { length text.old % 16 ≡ 0 }
{
    for _ in 0..turns {
        decrypt_in_place(&schedule(10), &IV.to_be_bytes(), text);
    }
}

/// Runs the call for some turns, and returns a word that its result depends on.
fn run(call: Call, texts: &mut Texts, turns: u32) -> u64 {
    match call {
        Call::Encrypt(rounds) => encrypt(rounds, &mut texts.blocks, turns),
        Call::Decrypt(rounds) => decrypt(rounds, &mut texts.blocks, turns),
        Call::Put => put(&mut texts.blocks, turns),
        Call::Expand => expand(&mut texts.blocks[0], turns),
        Call::Ctr(len) => ctr(&mut texts.text[..len.min(TEXT_BYTES)], turns),
        Call::CbcDecryption(len) => {
            cbc_decryption(&mut texts.text[..len.min(TEXT_BYTES) / 16 * 16], turns)
        }
        Call::PlainSha1 => return hashes::Sha1::plain(turns),
    }
    (texts.blocks[0][0] ^ texts.text[0]) as u64
}

/// SHA-1 of what a call makes of new texts in one turn; of `Put` that of the blocks under a key for each lane.
fn digest(call: Call) -> [u8; 20] {
    let mut texts = filled_texts();
    match call {
        Call::Put => encrypt32(&keys_of_lanes(), &mut texts.blocks),
        _ => {
            run(call, &mut texts, 1);
        }
    }
    match call {
        Call::Ctr(len) | Call::CbcDecryption(len) => Sha1::digest(
            &texts.text[..len.min(TEXT_BYTES)],
        ),
        _ => Sha1::digest(texts.blocks.as_flattened()),
    }
}

/// Prints the digest of each call; of `Expand` the last round key.
pub fn print_digests(rt: &impl Print) -> io::Result<()> {
    for (name, call) in &CALLS {
        print!(rt; "aes {name}: ")?;
        match call {
            Call::Expand => {
                let mut key = [0; 16];
                expand(&mut key, 1);
                print_bytes(rt, "", &key)?;
            }
            _ => print_bytes(rt, "", &digest(*call))?,
        }
    }
    Ok(())
}

/// The time of one pass of the call, in nanoseconds. What is computed goes into `sum`, so that none of it is left out.
fn pass_nanos(rt: &impl Clock, call: Call, texts: &mut Texts, sum: &mut u64) -> io::Result<u128> {
    let start = Instant::now(rt)?;
    *sum ^= run(call, texts, call.turns());
    nanos_since(rt, start)
}

/// KB/s of a pass of the call in this many nanoseconds.
fn rate(call: Call, nanos: u128) -> u128 {
    (call.turns() as u128)
        .saturating_mul(call.bytes() as u128)
        .saturating_mul(1_000_000)
        .checked_div(nanos)
        .unwrap_or(0)
}

/// Prints MB/s of a call, and in how many times less time than the plain crate for SHA-1 took for as many bytes.
fn print_call(
    rt: &(impl Print + Clock),
    name: &str,
    call: Call,
    texts: &mut Texts,
    sum: &mut u64,
) -> io::Result<()> {
    let [nanos, plain]: [u128; 2] = fastest(
        PASSES,
        |i| pass_nanos(rt, [call, Call::PlainSha1][i % 2], texts, sum),
    )?;
    let done = rate(call, nanos);
    print!(rt; "aes {name}: {} MB/s, ", done / 1000)?;
    print_ratio(rt, hundredths(done, rate(Call::PlainSha1, plain)), 0)?;
    println!(rt)
}

/// Prints how fast each call is.
pub fn print_times(rt: &(impl Print + Clock)) -> io::Result<()> {
    let mut texts = filled_texts();
    let mut sum = 0;
    for (name, call) in &CALLS {
        print_call(rt, name, *call, &mut texts, &mut sum)?;
    }
    print_bytes(rt, "checksum ", &sum.to_be_bytes())
}
