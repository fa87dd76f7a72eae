// The lanes of a hash. Each holds the hash values of the entry of its number, and the rest; the other fields stay with the entry.
ghost use Rattle.std.specs.Prelude.{◌≡◌, ℕ, ◌-◌, ◌<◌, ◌≤◌, ◌==◌, length, map, if◌then◌else◌};
ghost use Rattle.mbj_types.specs.Lanes.{lane_at};
ghost use Rattle.mbj_lane.specs.Rounds.{after};
ghost use Rattle.mbj_hmac.specs.Rounds.{compressed_once, round};
ghost use Rattle.mbj_hmac.specs.Inside.InLanes.{AreReady, AreTied, IsReady, entry_in, idle, lowered, most_lanes, moved, reach_at, seen_at, turn_of};

use crate::entry::HmacEntry;
use crate::lane_hash::LaneHash;
use crate::next_blocks::compressed;
use crate::rests::{
    IDLE, NEVER, busy_half, has_equal, least, least_lane, lowered, reaches, with_word32,
};
use crate::view::{chain_of, inner_of};
use std::simd::u32x16;

/// What the lanes have of their entries in numbers.
#[derive(Drop)]
pub(crate) struct Rests {
    /// How many rounds are left, which the entries say too. An idle lane has `IDLE`.
    pub(crate) left: u32x16,
    /// With how many rounds left the outer hash of each starts. A digest, which has none, has `NEVER`.
    pub(crate) turns: u32x16,
    /// The bits of a block and of the inner digest behind it.
    pub(crate) bits: u32x16,
}

/// What the lanes of a hash hold.
#[derive(Drop)]
pub(crate) struct HmacLanes<H: LaneHash> {
    /// The hash values. Those that the entries have in their fields are not looked at.
    pub(crate) states: H::States,
    /// The hash values of inner hashes that are done. Those of the entries are not looked at.
    pub(crate) inner: H::States,
    /// The hash values from which the outer hashes start.
    pub(crate) starts: H::States,
    pub(crate) rests: Rests,
}

impl Rests {
    /// Those of idle lanes.
    fn idle() -> Rests
        ensures { (i : ℕ) → i < most_lanes → lane_at 32 result.left i ≡ idle }
    {
        Rests {
            left: u32x16::splat(IDLE),
            turns: u32x16::splat(NEVER),
            bits: u32x16::splat(0),
        }
    }
}

impl<H: LaneHash> HmacLanes<H> {
    /// Idle lanes.
    pub(crate) fn new() -> HmacLanes<H>
        ensures { (i : ℕ) → i < most_lanes → lane_at 32 result.rests.left i ≡ idle }
    {
        HmacLanes {
            states: H::blank_states(),
            inner: H::blank_states(),
            starts: H::blank_states(),
            rests: Rests::idle(),
        }
    }

    /// A lane takes an entry in.
    #[inline(always)]
    pub(crate) fn enter(&mut self, i: usize, entry: &HmacEntry<H>)
        requires { i < H.LANES }
        ensures rest { lane_at 32 self.new.rests.left i ≡ entry.now.rest }
        ensures turn { lane_at 32 self.new.rests.turns i ≡ turn_of entry.now }
        ensures few { entry.now.rest < idle }
        ensures chain { H.lane self.new.states i ≡ entry.now.chain }
        ensures inner { H.lane self.new.inner i ≡ entry.now.inner }
        ensures ready { IsReady H.hashing (H.lane self.new.starts i) (lane_at 32 self.new.rests.bits i) entry.now }
        ensures rests { (j : ℕ) → j < most_lanes → (j ≡ i → ⊥) → lane_at 32 self.new.rests.left j ≡ lane_at 32 self.old.rests.left j }
        ensures turns { (j : ℕ) → j < most_lanes → (j ≡ i → ⊥) → lane_at 32 self.new.rests.turns j ≡ lane_at 32 self.old.rests.turns j }
        ensures bits { (j : ℕ) → j < most_lanes → (j ≡ i → ⊥) → lane_at 32 self.new.rests.bits j ≡ lane_at 32 self.old.rests.bits j }
        ensures chains { (j : ℕ) → j < H.LANES → (j ≡ i → ⊥) → H.lane self.new.states j ≡ H.lane self.old.states j }
        ensures inners { (j : ℕ) → j < H.LANES → (j ≡ i → ⊥) → H.lane self.new.inner j ≡ H.lane self.old.inner j }
        ensures starts { (j : ℕ) → j < H.LANES → (j ≡ i → ⊥) → H.lane self.new.starts j ≡ H.lane self.old.starts j }
    {
        let chain = chain_of(entry);
        self.rests.left = with_word32(self.rests.left, i, entry.left());
        self.rests.turns = with_word32(self.rests.turns, i, entry.turn_rest());
        self.rests.bits = with_word32(self.rests.bits, i, entry.digest_bits());
        H::set_lane(&mut self.states, i, chain);
        H::set_lane(&mut self.inner, i, inner_of(entry));
        H::set_lane(&mut self.starts, i, entry.outer_start());
    }

    /// A lane is idle from now on.
    #[inline(always)]
    pub(crate) fn leave(&mut self, i: usize)
        requires { i < H.LANES }
        ensures rest { lane_at 32 self.new.rests.left i ≡ idle }
        ensures rests { (j : ℕ) → j < most_lanes → (j ≡ i → ⊥) → lane_at 32 self.new.rests.left j ≡ lane_at 32 self.old.rests.left j }
        ensures turns { self.new.rests.turns ≡ self.old.rests.turns }
        ensures bits { self.new.rests.bits ≡ self.old.rests.bits }
        ensures states { self.new.states ≡ self.old.states }
        ensures inner { self.new.inner ≡ self.old.inner }
        ensures starts { self.new.starts ≡ self.old.starts }
    {
        self.rests.left = with_word32(self.rests.left, i, IDLE);
    }

    /// The outer hash starts in each lane whose entry comes to its first block: the hash value becomes the inner one.
    #[inline(always)]
    fn turn_due(&mut self)
        ensures states { (i : ℕ) → i < H.LANES → H.lane self.new.states i
            ≡ if lane_at 32 self.old.rests.left i == lane_at 32 self.old.rests.turns i then H.lane self.old.starts i else H.lane self.old.states i }
        ensures inner { (i : ℕ) → i < H.LANES → H.lane self.new.inner i
            ≡ if lane_at 32 self.old.rests.left i == lane_at 32 self.old.rests.turns i then H.lane self.old.states i else H.lane self.old.inner i }
        ensures rests { self.new.rests ≡ self.old.rests }
        ensures starts { self.new.starts ≡ self.old.starts }
    {
        if has_equal(self.rests.left, self.rests.turns) {
            H::turn(
                &mut self.states,
                &mut self.inner,
                &self.starts,
                self.rests.left,
                self.rests.turns,
            );
        }
    }

    /// All entries go on by the next `m` blocks. An outer hash starts with the first of them, or with none of them.
    #[inline(never)]
    fn stretch(&mut self, entries: &mut [HmacEntry<H>], m: u32, schedule: &mut H::Schedule)
        requires few { length entries.old ≤ H.LANES }
        requires tied { AreTied self.old.rests.left self.old.rests.turns entries.old }
        requires ready { AreReady H.hashing (H.lane self.old.starts) self.old.rests.bits self.old.rests.left entries.old }
        requires some { 0 < m }
        requires rests { (i : ℕ) → i < most_lanes → lane_at 32 self.old.rests.left i < idle → m ≤ lane_at 32 self.old.rests.left i }
        ensures advanced { (i : ℕ) → i < most_lanes → lane_at 32 self.old.rests.left i < idle
            → seen_at (H.lane self.new.states) (H.lane self.new.inner) entries.new i
            ≡ after (compressed_once H.hashing) m (seen_at (H.lane self.old.states) (H.lane self.old.inner) entries.old i) }
        ensures tied { AreTied self.new.rests.left self.new.rests.turns entries.new }
        ensures ready { AreReady H.hashing (H.lane self.new.starts) self.new.rests.bits self.new.rests.left entries.new }
        ensures rests { (i : ℕ) → i < most_lanes → lane_at 32 self.new.rests.left i ≡ lowered m (lane_at 32 self.old.rests.left i) }
    {
        let half = busy_half(self.rests.left);
        compressed::<H>(
            entries,
            m,
            half,
            &self.rests,
            &self.inner,
            &mut self.states,
            schedule,
        );
        go_on(entries, m);
        self.rests.left = lowered(self.rests.left, m);
    }

    /// How many of `m` rounds all entries go before the next outer hash starts.
    #[inline(always)]
    fn reach(&self, m: u32) -> u32
        ensures within { result ≤ m }
        ensures reach { (i : ℕ) → i < most_lanes → result ≤ reach_at (lane_at 32 self.now.rests.left i) (lane_at 32 self.now.rests.turns i) }
        ensures some { 0 < m → ((i : ℕ) → i < most_lanes → 0 < lane_at 32 self.now.rests.left i) → 0 < result }
    {
        least(least_lane(reaches(self.rests.left, self.rests.turns)), m)
    }

    /// Advances the entries of all lanes by `m` rounds.
    #[inline(never)]
    pub(crate) fn run(&mut self, entries: &mut [HmacEntry<H>], m: u32)
        requires few { length entries.old ≤ H.LANES }
        requires tied { AreTied self.old.rests.left self.old.rests.turns entries.old }
        requires ready { AreReady H.hashing (H.lane self.old.starts) self.old.rests.bits self.old.rests.left entries.old }
        requires rests { (i : ℕ) → i < most_lanes → lane_at 32 self.old.rests.left i < idle → m ≤ lane_at 32 self.old.rests.left i }
        ensures advanced { (i : ℕ) → i < most_lanes → lane_at 32 self.old.rests.left i < idle
            → seen_at (H.lane self.new.states) (H.lane self.new.inner) entries.new i
            ≡ after (round H.hashing) m (seen_at (H.lane self.old.states) (H.lane self.old.inner) entries.old i) }
        ensures tied { AreTied self.new.rests.left self.new.rests.turns entries.new }
        ensures ready { AreReady H.hashing (H.lane self.new.starts) self.new.rests.bits self.new.rests.left entries.new }
        ensures rests { (i : ℕ) → i < most_lanes → lane_at 32 self.new.rests.left i ≡ lowered m (lane_at 32 self.old.rests.left i) }
    {
        let mut schedule = H::blank_schedule();
        let mut left = m;
        while left > 0 {
            self.turn_due();
            let len = self.reach(left);
            self.stretch(entries, len, &mut schedule);
            left -= len;
        }
    }

    /// The lanes of entries side by side.
    pub(crate) fn of(entries: &[HmacEntry<H>]) -> HmacLanes<H>
        requires { length entries.now ≤ H.LANES }
        ensures tied { AreTied result.rests.left result.rests.turns entries.now }
        ensures ready { AreReady H.hashing (H.lane result.starts) result.rests.bits result.rests.left entries.now }
        ensures rests { (i : ℕ) → i < length entries.now → lane_at 32 result.rests.left i < idle }
        ensures chains { (i : ℕ) → i < length entries.now → H.lane result.states i ≡ (entry_in entries.now i).chain }
        ensures inners { (i : ℕ) → i < length entries.now → H.lane result.inner i ≡ (entry_in entries.now i).inner }
    {
        let mut lanes = HmacLanes::new();
        'lanes: for i in 0..entries.len() {
            lanes.enter(i, &entries[i]);
        }
        lanes
    }

    /// The hash values go back into entries side by side.
    pub(crate) fn give_back(&self, entries: &mut [HmacEntry<H>])
        requires { length entries.old ≤ H.LANES }
        ensures { (i : ℕ) → i < length entries.old → entry_in entries.new i ≡ seen_at (H.lane self.now.states) (H.lane self.now.inner) entries.old i }
    {
        'entries: for i in 0..entries.len() {
            let chain = H::scattered(&self.states, i);
            let inner = H::scattered(&self.inner, i);
            let entry = &mut entries[i];
            entry.set_chains(chain, inner);
        }
    }
}

/// The rests fall by `m`, or to 0 if fewer rounds are left.
fn go_on<H: LaneHash>(entries: &mut [HmacEntry<H>], m: u32)
    ensures { entries.new ≡ map (moved m) entries.old }
{
    'rests: for i in 0..entries.len() {
        let entry = &mut entries[i];
        entry.go_on(m);
    }
}
