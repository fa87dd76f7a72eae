ghost use Rattle.std.specs.Prelude.{◌≡◌, ℕ, ◌-◌, ◌<◌, ◌≤◌, ◌^◌, length, map, All};
ghost use Rattle.mbj_lane.specs.Rounds.{after, end_of};
ghost use Rattle.mbj_lane.specs.Laws.{rest-after, end-after};

/// A kind of work that is done in rounds, on up to `LANES` entries side by side.
///
/// An entry has a number of rounds left, its rest. What it holds when its rest is 0 is its end.
pub trait Kernel {
    /// What a lane works on: an input, and what was computed of it so far.
    type Entry: Drop;

    /// How many entries run side by side.
    const LANES: u32;

    ghost LANES: { ℕ };

    /// How many rounds an entry has left.
    ghost rest_of: { Self.Entry → ℕ };

    /// An entry after its next round.
    ghost round: { Self.Entry → Self.Entry };

    /// How many rounds an entry has left.
    fn rest(entry: &Self::Entry) -> u32
        ensures { result ≡ rest_of entry.now };

    /// Advances each entry by `m` rounds. At most `LANES` entries are given, and each has at least `m` rounds left.
    fn run(entries: &mut [Self::Entry], m: u32)
        requires lanes { length entries.old ≤ LANES }
        requires rests { All (λ e. m ≤ rest_of e) entries.old }
        ensures { entries.new ≡ map (after round m) entries.old };

    /// There is a lane.
    ghost some: { 0 < LANES };

    /// The lanes are counted by a `u32`.
    ghost few: { LANES < 2 ^ 32 };

    /// A round lowers the rest by one.
    ghost falls: { (e : Self.Entry) → rest_of (round e) ≡ rest_of e - 1 };

    /// m rounds lower the rest by m.
    ghost rests_fall: { (m : ℕ) (e : Self.Entry) → rest_of (after round m e) ≡ rest_of e - m } = { rest-after round rest_of falls };

    /// Rounds that an entry has left don't change its end.
    ghost ends_stay: { (m : ℕ) (e : Self.Entry) → m ≤ rest_of e
        → end_of round rest_of (after round m e) ≡ end_of round rest_of e } = { end-after round rest_of falls };
}
