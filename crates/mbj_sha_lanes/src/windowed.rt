//! The compression of SHA-2 with its schedule made in a window of sixteen words, each word when its round comes
//! (FIPS 180-4, 6.2.3, for the other hashes likewise).
ghost use Rattle.std.specs.Prelude.{◌≡◌, ℕ, ◌+◌, ◌<◌, ◌≤◌, List, length, slice_index};
ghost use Rattle.mbj_types.specs.Lanes.{lane_of};
ghost use Rattle.mbj_sha_lanes.specs.Sha2.{IsWindow, compressed, working_lane};
ghost use Rattle.mbj_sha_lanes.specs.Inside.Windows.{IsWindowed};

use crate::scheduled;
use crate::standard::Sha2;
use crate::words::Words;
use crate::working::{Working, add_working, round, schedule_word, working_of};

// Word t of the schedule, put at the place of word t - 16.
#[inline(always)]
fn next_word<V: Copy, W: Words<V>, H: Sha2<V, W>>(words: &mut [V], t: usize) -> V
    requires window { length words.old ≡ 16 }
    requires low { 16 ≤ t }
    requires high { t < H.standard.count }
    ensures word { (i : ℕ) (b : List ℕ) → i < W.LANES
        → IsWindow (lane_of W.lane words.old i) (H.standard.schedule b) t
        → W.lane result i ≡ slice_index (H.standard.schedule b) t }
    ensures window { (i : ℕ) (b : List ℕ) → i < W.LANES
        → IsWindow (lane_of W.lane words.old i) (H.standard.schedule b) t
        → IsWindow (lane_of W.lane words.new i) (H.standard.schedule b) (t + 1) }
{
    let word = schedule_word::<V, W, H>(
        words[(t + 14) % 16],
        words[(t + 9) % 16],
        words[(t + 1) % 16],
        words[t % 16],
    );
    words[t % 16] = word;
    word
}

// Round t, for t from 16, with its schedule word.
#[inline(always)]
fn step<V: Copy, W: Words<V>, H: Sha2<V, W>>(words: &mut [V], v: Working<V>, t: usize) -> Working<V>
    requires window { length words.old ≡ 16 }
    requires low { 16 ≤ t }
    requires high { t < H.standard.count }
    ensures { (i : ℕ) (b h : List ℕ) → i < W.LANES → IsWindowed W.lane H.standard i b h words.old v t
        → IsWindowed W.lane H.standard i b h words.new result (t + 1) }
{
    let word = next_word::<V, W, H>(words, t);
    round::<V, W, H>(v, H::constant(t), word)
}

// Two rounds from round t on, for t from 16. A caller that gives t as a literal has the places of the words and the
// constants fixed when the code is compiled.
#[inline(always)]
fn two_steps<V: Copy, W: Words<V>, H: Sha2<V, W>>(
    words: &mut [V],
    v: Working<V>,
    t: usize,
) -> Working<V>
    requires window { length words.old ≡ 16 }
    requires low { 16 ≤ t }
    requires high { t + 2 ≤ H.standard.count }
    ensures { (i : ℕ) (b h : List ℕ) → i < W.LANES → IsWindowed W.lane H.standard i b h words.old v t
        → IsWindowed W.lane H.standard i b h words.new result (t + 2) }
{
    let v = step::<V, W, H>(words, v, t);
    step::<V, W, H>(words, v, t + 1)
}

// All rounds of the block whose words are given: sixteen a turn, so that each word's place among the words is fixed when
// the code is compiled.
#[inline(always)]
fn all_rounds<V: Copy, W: Words<V>, H: Sha2<V, W>>(words: &mut [V], start: Working<V>) -> Working<V>
    requires { length words.old ≡ 16 }
    ensures { (i : ℕ) (b : List ℕ) → i < W.LANES → H.standard.first_words b ≡ lane_of W.lane words.old i
        → working_lane W.lane result i
        ≡ H.standard.rounds (working_lane W.lane start i) (H.standard.schedule b) H.standard.count }
{
    let mut v = scheduled::two_steps::<V, W, H>(words, start, 0);
    v = scheduled::two_steps::<V, W, H>(words, v, 2);
    v = scheduled::two_steps::<V, W, H>(words, v, 4);
    v = scheduled::two_steps::<V, W, H>(words, v, 6);
    v = scheduled::two_steps::<V, W, H>(words, v, 8);
    v = scheduled::two_steps::<V, W, H>(words, v, 10);
    v = scheduled::two_steps::<V, W, H>(words, v, 12);
    v = scheduled::two_steps::<V, W, H>(words, v, 14);
    'turns: for turn in 1..H::ROUNDS / 16 {
        let t = 16 * turn;
        v = two_steps::<V, W, H>(words, v, t);
        v = two_steps::<V, W, H>(words, v, t + 2);
        v = two_steps::<V, W, H>(words, v, t + 4);
        v = two_steps::<V, W, H>(words, v, t + 6);
        v = two_steps::<V, W, H>(words, v, t + 8);
        v = two_steps::<V, W, H>(words, v, t + 10);
        v = two_steps::<V, W, H>(words, v, t + 12);
        v = two_steps::<V, W, H>(words, v, t + 14);
    }
    v
}

/// Compresses one block into one hash value in each lane. `states` has 8 lane words, the words of the hash values; `words` has 16, the
/// words of the blocks, and is used up: its contents are unspecified afterwards.
#[inline(always)]
pub fn compress_windowed<V: Copy, W: Words<V>, H: Sha2<V, W>>(states: &mut [V], words: &mut [V])
    requires states { length states.old ≡ 8 }
    requires words { length words.old ≡ 16 }
    ensures { (i : ℕ) (b : List ℕ) → i < W.LANES → H.standard.first_words b ≡ lane_of W.lane words.old i
        → lane_of W.lane states.new i ≡ compressed W.width H.standard (lane_of W.lane states.old i) b }
{
    let v = all_rounds::<V, W, H>(words, working_of::<V, W>(states));
    add_working::<V, W>(states, v);
}
