//! The compression of SHA-2 with its whole schedule made first. If a type of lanes fills more registers than there are,
//! that is faster than a schedule that is made as its rounds come.
ghost use Rattle.std.specs.Prelude.{◌≡◌, ℕ, ◌+◌, ◌<◌, ◌≤◌, List, length, take};
ghost use Rattle.mbj_types.specs.Lanes.{lane_of};
ghost use Rattle.mbj_sha_lanes.specs.Sha2.{compressed, working_lane};
ghost use Rattle.mbj_sha_lanes.specs.Inside.Windows.{AreScheduled};

use crate::standard::Sha2;
use crate::words::Words;
use crate::working::{Working, add_working, round, schedule_word, working_of};

// The words of the schedule behind the block's sixteen.
fn fill<V: Copy, W: Words<V>, H: Sha2<V, W>>(words: &mut [V])
    requires { length words.old ≡ H.standard.count }
    ensures schedule { (i : ℕ) (b : List ℕ) → i < W.LANES → H.standard.first_words b ≡ take 16 (lane_of W.lane words.old i)
        → AreScheduled (lane_of W.lane words.new i) (H.standard.schedule b) H.standard.count }
    ensures count { length words.new ≡ H.standard.count }
{
    'words: for t in 16..H::ROUNDS {
        words[t] = schedule_word::<V, W, H>(
            words[t - 2],
            words[t - 7],
            words[t - 15],
            words[t - 16],
        );
    }
}

// Round t, with its word of the schedule, of which the first n are given.
#[inline(always)]
fn step<V: Copy, W: Words<V>, H: Sha2<V, W>>(words: &[V], v: Working<V>, t: usize) -> Working<V>
    requires given { t < length words.now }
    requires high { t < H.standard.count }
    ensures { (i n : ℕ) (b h : List ℕ) → i < W.LANES → t + 1 ≤ n → AreScheduled (lane_of W.lane words.now i) (H.standard.schedule b) n
        → working_lane W.lane v i ≡ H.standard.rounds h (H.standard.schedule b) t
        → working_lane W.lane result i ≡ H.standard.rounds h (H.standard.schedule b) (t + 1) }
{
    round::<V, W, H>(v, H::constant(t), words[t])
}

/// Two rounds from round t on, with their words of the schedule, of which the first n are given.
#[inline(always)]
pub(crate) fn two_steps<V: Copy, W: Words<V>, H: Sha2<V, W>>(
    words: &[V],
    v: Working<V>,
    t: usize,
) -> Working<V>
    requires given { t + 2 ≤ length words.now }
    requires high { t + 2 ≤ H.standard.count }
    ensures { (i n : ℕ) (b h : List ℕ) → i < W.LANES → t + 2 ≤ n → AreScheduled (lane_of W.lane words.now i) (H.standard.schedule b) n
        → working_lane W.lane v i ≡ H.standard.rounds h (H.standard.schedule b) t
        → working_lane W.lane result i ≡ H.standard.rounds h (H.standard.schedule b) (t + 2) }
{
    let v = step::<V, W, H>(words, v, t);
    step::<V, W, H>(words, v, t + 1)
}

// All rounds, eight a turn, so that the working variables are where they were after each turn.
#[inline(always)]
fn all_rounds<V: Copy, W: Words<V>, H: Sha2<V, W>>(words: &[V], start: Working<V>) -> Working<V>
    requires { length words.now ≡ H.standard.count }
    ensures { (i : ℕ) (b : List ℕ) → i < W.LANES
        → AreScheduled (lane_of W.lane words.now i) (H.standard.schedule b) H.standard.count
        → working_lane W.lane result i
        ≡ H.standard.rounds (working_lane W.lane start i) (H.standard.schedule b) H.standard.count }
{
    let mut v = start;
    'turns: for turn in 0..H::ROUNDS / 8 {
        let t = 8 * turn;
        v = two_steps::<V, W, H>(words, v, t);
        v = two_steps::<V, W, H>(words, v, t + 2);
        v = two_steps::<V, W, H>(words, v, t + 4);
        v = two_steps::<V, W, H>(words, v, t + 6);
    }
    v
}

/// Compresses one block into one hash value in each lane. `states` has 8 lane words, the words of the hash values;
/// `words` has 16, the words of the blocks. `schedule` has one for each round: the schedule is made there, and what it
/// held before is not looked at.
#[inline(always)]
pub fn compress_scheduled<V: Copy, W: Words<V>, H: Sha2<V, W>>(
    states: &mut [V],
    words: &[V],
    schedule: &mut [V],
)
    requires states { length states.old ≡ 8 }
    requires words { length words.now ≡ 16 }
    requires schedule { length schedule.old ≡ H.standard.count }
    ensures { (i : ℕ) (b : List ℕ) → i < W.LANES → H.standard.first_words b ≡ lane_of W.lane words.now i
        → lane_of W.lane states.new i ≡ compressed W.width H.standard (lane_of W.lane states.old i) b }
{
    schedule[..16].copy_from_slice(words);
    fill::<V, W, H>(schedule);
    let v = all_rounds::<V, W, H>(schedule, working_of::<V, W>(states));
    add_working::<V, W>(states, v);
}
