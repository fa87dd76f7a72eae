//! CIPHER and INVCIPHER (FIPS 197, 5.1 and 5.3) of the blocks of registers side by side, which the processor overlaps.
ghost use Rattle.std.specs.Prelude.{◌≡◌, ℕ, ◌+◌, ◌*◌, ◌<◌, ◌≤◌, List, length, slice_index_or};
ghost use Rattle.mbj_types.specs.Aes.{encipher};
ghost use Rattle.mbj_aes.specs.BlockWords.{block_byte, block_at};
ghost use Rattle.mbj_aes_lanes.specs.Inside.Held.{IsHeld};

use crate::narrow::directions::{Direction, Encryption};
use crate::narrow::schedules::Schedules;
use mbj_aes::BlockWord;

// Round `k` of `n`, in each register.
#[inline(always)]
fn round_all<V: BlockWord, D: Direction, K: Schedules<V, D>, const N: usize>(
    keys: &K,
    s: &mut [V; N],
    k: usize,
    n: usize,
)
    requires least { 1 ≤ n }
    requires most { k ≤ n }
    requires rounds { n ≡ K.rounds_of keys.now }
    requires registers { N ≤ K.count_of keys.now }
    ensures { (i b : ℕ) (d : V) (block : List ℕ) → i < N → b < V.BLOCKS → length (K.schedule_of keys.now i b) ≡ 16 * (n + 1)
        → IsHeld D.change D.is_after (K.schedule_of keys.now i b) block n k (block_byte V.lane (slice_index_or s.old i d) b)
        → IsHeld D.change D.is_after (K.schedule_of keys.now i b) block n (k + 1) (block_byte V.lane (slice_index_or s.new i d) b) }
{
    let r = D::key_index(k, n);
    'registers: for i in 0..N {
        s[i] = D::round(s[i], keys.round_key(r, i), k, n);
    }
}

/// Changes each block of the registers in a direction, under the schedule in its place.
#[inline(always)]
pub fn change_all<V: BlockWord, D: Direction, K: Schedules<V, D>, const N: usize>(
    keys: &K,
    s: &mut [V; N],
)
    requires { N ≤ K.count_of keys.now }
    ensures { (i b : ℕ) (d : V) → i < N → b < V.BLOCKS → block_at V.lane (slice_index_or s.new i d) b
        ≡ D.change (K.schedule_of keys.now i b) (block_at V.lane (slice_index_or s.old i d) b) }
{
    let n = keys.rounds();
    round_all(keys, s, 0, n);
    'rounds: for k in 1..n {
        round_all(keys, s, k, n);
    }
    round_all(keys, s, n, n);
}

/// Encrypts each block of the registers, under the schedule in its place.
#[inline(always)]
pub fn encrypt_all<V: BlockWord, K: Schedules<V, Encryption>, const N: usize>(
    keys: &K,
    s: &mut [V; N],
)
    requires { N ≤ K.count_of keys.now }
    ensures { (i b : ℕ) (d : V) → i < N → b < V.BLOCKS → block_at V.lane (slice_index_or s.new i d) b
        ≡ encipher (K.schedule_of keys.now i b) (block_at V.lane (slice_index_or s.old i d) b) }
{
    change_all(keys, s);
}
