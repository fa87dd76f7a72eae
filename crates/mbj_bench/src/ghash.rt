use crate::clock::{fastest, nanos_since};
use crate::line::{print_bytes, print_length, print_rate};
use mbj_aes::Schedule;
use mbj_gcm::seal;
use mbj_ghash::Ghash;
use sha1::Sha1;
use std::io::{self, Print};
use std::time::{Clock, Instant};

/// The enciphered zero block under the zero key, as in test case 1 of the GCM specification.
const SUBKEY: u128 = 0x66e9_4bd4_ef8a_2c3b_884c_fa59_ca34_2b2e;

/// The longest text.
const TEXT_BYTES: usize = 16384;

/// The lengths of the texts that are timed.
const LENGTHS: [usize; 4] = [64, 256, 1500, TEXT_BYTES];

/// The bytes of one pass, and the passes of which the fastest counts.
const PASS_BYTES: usize = 262_144;

const PASSES: u32 = 50;

/// What is done to a text.
#[derive(Clone, Copy)]
enum Work {
    /// The digest by the crate that hashes one message.
    Sha1,
    /// GHASH.
    Ghash,
    /// `seal` of GCM with AES-128.
    Seal,
}

/// The works by their names.
static WORKS: [(&str, Work); 3] = [
    ("sha1", Work::Sha1),
    ("ghash", Work::Ghash),
    ("gcm seal", Work::Seal),
];

/// Makes the text: byte `i` is 7 times `i`, modulo 251.
pub fn fill(text: &mut [u8]) {
    for (i, byte) in text.iter_mut().enumerate() {
        *byte = (7 * (i % 251) % 251) as u8;
    }
}

/// Prints GHASH of a text of 1,500 bytes.
pub fn print_digest(rt: &impl Print) -> io::Result<()> {
    let mut text = [0; 1500];
    fill(&mut text);
    let mut hash = Ghash::new(SUBKEY.to_be_bytes());
    hash.update_padded(&text);
    print_bytes(rt, "ghash: ", &hash.value())
}

/// Does the work once, and returns a word that its result depends on. The subkey depends on `seed`.
fn run(work: Work, key: &Schedule, seed: u64, text: &mut [u8]) -> u64 {
    match work {
        Work::Sha1 => Sha1::digest(text)[0] as u64,
        Work::Ghash => {
            let mut hash = Ghash::new((SUBKEY ^ seed as u128).to_be_bytes());
            hash.update_padded(text);
            hash.value()[0] as u64
        }
        Work::Seal => seal(key, &[0; 12], &[], text)[0] as u64,
    }
}

/// The time of one pass over a text, in nanoseconds. What is computed goes into `sum`, so that none of it is left out.
fn pass_nanos(rt: &impl Clock, work: Work, text: &mut [u8], sum: &mut u64) -> io::Result<u128> {
    let key = Schedule::expand(&[0; 16]);
    let turns = PASS_BYTES.checked_div(text.len()).unwrap_or(0);
    let start = Instant::now(rt)?;
    for _ in 0..turns {
        *sum ^= run(work, &key, *sum, text);
    }
    nanos_since(rt, start)
}

/// Prints MB/s of GHASH and of `seal` over a text, and in how many times less time than the plain crate for SHA-1 they ran.
fn print_text(rt: &(impl Print + Clock), text: &mut [u8], sum: &mut u64) -> io::Result<()> {
    let len = text.len();
    let best: [u128; 3] = fastest(PASSES, |i| pass_nanos(rt, WORKS[i % 3].1, text, sum))?;
    let pass_bytes = (PASS_BYTES - PASS_BYTES % len.max(1)) as u128;
    for i in 0..3 {
        print_length(rt, WORKS[i].0, 10, len)?;
        print_rate(rt, pass_bytes, best[i], best[0])?;
    }
    Ok(())
}

/// Prints how fast GHASH and `seal` are by the length of the text.
pub fn print_times(rt: &(impl Print + Clock)) -> io::Result<()> {
    let mut text = [0; TEXT_BYTES];
    fill(&mut text);
    let mut sum = 0;
    for len in LENGTHS {
        print_text(rt, &mut text[..len], &mut sum)?;
    }
    print_bytes(rt, "checksum ", &sum.to_be_bytes())
}
