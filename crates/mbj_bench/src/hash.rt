//! The three hashes, each in the forms of its compression that are timed beside one another.
ghost use Rattle.std.specs.Prelude.{◌≡◌, ℕ, ◌<◌, length};

use crate::clock::{fastest, nanos_since};
use crate::line::{print_name, print_rate};
use crate::vector::{Vector, fill, value_in};
use std::io::{self, Print};
use std::time::{Clock, Instant};

/// How many bytes a turn of each form hashes.
pub const TURN_BYTES: usize = 1024;

/// The forms of a compression that are timed beside one another.
#[derive(Clone, Copy)]
enum Form {
    /// The crate that hashes one message, a block at a time.
    Plain,
    /// `compress_lanes` over vectors of 128 bits.
    Narrow,
    /// `compress_lanes` over vectors of 256 bits.
    Wide,
    /// `compress` of arrays of states and blocks, loading and storing included.
    Arrays,
}

/// The forms by their names.
static FORMS: [(&str, Form); 4] = [
    ("plain crate", Form::Plain),
    ("lanes of 128 bits", Form::Narrow),
    ("lanes of 256 bits", Form::Wide),
    ("arrays", Form::Arrays),
];

/// The turns of one pass, its bytes, and the passes of which the fastest counts.
const TURNS: u32 = 1000;

const PASS_BYTES: u128 = TURN_BYTES as u128 * TURNS as u128;

const PASSES: u32 = 100;

/// A hash whose compression is timed. A form of it leads the initial hash value in each lane through a block of its own by `calls` calls,
/// and returns the hash value of one lane.
pub trait Hash {
    /// As many blocks as the arrays have.
    type Blocks: Copy;

    const NAME: &'static str;

    /// The names of the narrow and of the wide form where digests are printed.
    const LANES: [&'static str; 2];

    /// Blocks of sevens.
    const SEVENS: Self::Blocks;

    /// The padded block of "abc" in the first place, and that of the empty message in the others.
    fn short_blocks() -> Self::Blocks;

    /// Vectors of 128 bits.
    fn narrow(blocks: &Self::Blocks, calls: u32, lane: usize) -> [u64; 8]
        requires { lane < 2 };

    /// Vectors of 256 bits.
    fn wide(blocks: &Self::Blocks, calls: u32, lane: usize) -> [u64; 8]
        requires { lane < 2 };

    /// Arrays.
    fn arrays(blocks: &Self::Blocks, calls: u32, lane: usize) -> [u64; 8]
        requires { lane < 2 };

    /// The digest of the standard's example of two blocks, by `compress` of arrays.
    fn long_digest() -> [u64; 8];

    /// The crate that hashes one message, and a byte of its digest.
    fn plain(turns: u32) -> u64;

    /// Ends a line with a hash value.
    fn print(rt: &impl Print, value: &[u64; 8]) -> io::Result<()>;
}

/// The compression of a hash in the lanes of a vector.
pub trait Compression<V: Vector> {
    /// How many words a hash value has.
    ghost count: { ℕ };

    /// The initial hash value, with zeros behind it.
    fn initial() -> [u64; 8];

    /// `compress_lanes`.
    fn compress(states: &mut [V], words: &mut [V])
        requires states { length states.old ≡ count }
        requires words { length words.old ≡ 16 };
}

/// Leads the initial hash value in each lane through the words of its block.
pub fn lead<V: Vector, H: Compression<V>>(
    states: &mut [V],
    words: &mut [V],
    calls: u32,
    lane: usize,
) -> [u64; 8]
    requires states { length states.old ≡ H.count }
    requires words { length words.old ≡ 16 }
    requires lane { lane < 2 }
{
    fill(states, &H::initial());
    for _ in 0..calls {
        H::compress(states, words);
    }
    value_in(states, lane)
}

/// The words of a hash value of 32 bits each, in the place of 64.
pub fn widened<const N: usize>(words: &[u32; N]) -> [u64; 8] {
    let mut wide = [0; 8];
    for i in 0..N.min(8) {
        wide[i] = words[i] as u64;
    }
    wide
}

/// Runs a form of a hash for some turns, and returns a word that its result depends on. A vector has a half or a quarter of the lanes that
/// the arrays fill, and so two or four times as many calls a turn.
fn run<H: Hash>(form: Form, turns: u32) -> u64 {
    match form {
        Form::Plain => H::plain(turns),
        Form::Narrow => H::narrow(&H::SEVENS, turns.saturating_mul(4), 0)[0],
        Form::Wide => H::wide(&H::SEVENS, turns.saturating_mul(2), 0)[0],
        Form::Arrays => H::arrays(&H::SEVENS, turns, 0)[0],
    }
}

/// Prints a line of a digest.
fn print_digest<H: Hash>(
    rt: &impl Print,
    form: &str,
    message: &str,
    digest: &[u64; 8],
) -> io::Result<()> {
    print!(rt; "{} {form}, {message}: ", H::NAME)?;
    H::print(rt, digest)
}

/// Prints the digests of "abc" and of the empty message by a form.
fn print_pair<H: Hash>(rt: &impl Print, form: Form, name: &str) -> io::Result<()> {
    print_digest::<H>(rt, name, "abc", &short_digest::<H>(form, 0))?;
    print_digest::<H>(rt, name, "empty", &short_digest::<H>(form, 1))
}

/// The digest of "abc" or of the empty message, in lanes side by side.
fn short_digest<H: Hash>(form: Form, lane: usize) -> [u64; 8]
    requires { lane < 2 }
{
    let blocks = H::short_blocks();
    match form {
        Form::Narrow => H::narrow(&blocks, 1, lane),
        Form::Wide => H::wide(&blocks, 1, lane),
        Form::Plain | Form::Arrays => H::arrays(&blocks, 1, lane),
    }
}

/// Prints the digests of a hash: the short ones by each form, and that of the standard's example of two blocks.
pub fn print_digests<H: Hash>(rt: &impl Print) -> io::Result<()> {
    print_pair::<H>(rt, Form::Arrays, "arrays")?;
    print_pair::<H>(rt, Form::Narrow, H::LANES[0])?;
    print_pair::<H>(rt, Form::Wide, H::LANES[1])?;
    print_digest::<H>(rt, "arrays", "two blocks", &H::long_digest())
}

/// The time of one pass, in nanoseconds. What is computed goes into `sum`, so that none of it is left out.
fn pass_nanos<H: Hash>(rt: &impl Clock, form: Form, sum: &mut u64) -> io::Result<u128> {
    let start = Instant::now(rt)?;
    *sum = sum.wrapping_add(run::<H>(form, TURNS));
    nanos_since(rt, start)
}

/// Prints MB/s of each form of a hash, and in how many times less time than the plain crate it ran.
pub fn print_times<H: Hash>(rt: &(impl Print + Clock), sum: &mut u64) -> io::Result<()> {
    let best: [u128; 4] = fastest(PASSES, |i| pass_nanos::<H>(rt, FORMS[i % 4].1, sum))?;
    for i in 0..4 {
        print_name(rt, H::NAME, 8)?;
        print_name(rt, FORMS[i].0, 19)?;
        print_rate(rt, PASS_BYTES, best[i], best[0])?;
    }
    Ok(())
}
