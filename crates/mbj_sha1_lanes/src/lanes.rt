ghost use Rattle.std.specs.Prelude.{◌≡◌, ℕ, ◌<◌, List, length};
ghost use Rattle.sha1.specs.Sha1.{compress, first_words, rounds, schedule};
ghost use Rattle.mbj_types.specs.Lanes.{lane_of};
ghost use Rattle.mbj_sha1_lanes.specs.Inside.Lanes.{working_lane};

use crate::rounds::{Working, first_four_steps, four_steps};
use mbj_types::Lane32;

// The 80 rounds of the block whose words are given. They are written out, and not a loop, so that no
// place in the words is computed when they run.
#[inline(always)]
fn all_rounds<V: Lane32>(words: &mut [V], start: Working<V>) -> Working<V>
    requires { length words.old ≡ 16 }
    ensures { (i : ℕ) (b : List ℕ) → i < V.LANES → first_words b 16 ≡ lane_of V.lane words.old i
        → working_lane V.lane result i ≡ rounds (working_lane V.lane start i) (schedule b 64) 80 }
{
    let v = first_four_steps(words, start, 0);
    let v = first_four_steps(words, v, 4);
    let v = first_four_steps(words, v, 8);
    let v = first_four_steps(words, v, 12);
    let v = four_steps(words, v, 16);
    let v = four_steps(words, v, 20);
    let v = four_steps(words, v, 24);
    let v = four_steps(words, v, 28);
    let v = four_steps(words, v, 32);
    let v = four_steps(words, v, 36);
    let v = four_steps(words, v, 40);
    let v = four_steps(words, v, 44);
    let v = four_steps(words, v, 48);
    let v = four_steps(words, v, 52);
    let v = four_steps(words, v, 56);
    let v = four_steps(words, v, 60);
    let v = four_steps(words, v, 64);
    let v = four_steps(words, v, 68);
    let v = four_steps(words, v, 72);
    four_steps(words, v, 76)
}

/// Compresses one block into one hash value in each lane. `states` has 5 lane words, the words of the hash values; `words` has 16, the
/// words of the blocks, and is used up: its contents are unspecified afterwards.
pub fn compress_lanes<V: Lane32>(states: &mut [V], words: &mut [V])
    requires states { length states.old ≡ 5 }
    requires words { length words.old ≡ 16 }
    ensures { (i : ℕ) (b : List ℕ) → i < V.LANES → first_words b 16 ≡ lane_of V.lane words.old i
        → lane_of V.lane states.new i ≡ compress (lane_of V.lane states.old i) b }
{
    let start = Working {
        a: states[0],
        b: states[1],
        c: states[2],
        d: states[3],
        e: states[4],
    };
    let v = all_rounds(words, start);
    states[0] = start.a.plus(v.a);
    states[1] = start.b.plus(v.b);
    states[2] = start.c.plus(v.c);
    states[3] = start.d.plus(v.d);
    states[4] = start.e.plus(v.e);
}
