ghost use Rattle.std.specs.Prelude.{◌≡◌, ℕ, List};
ghost use Rattle.mbj_hmac.specs.Inside.InLanes.{block_in, entry_in};

use crate::entry::HmacEntry;
use crate::lane_hash::LaneHash;
use crate::places::blank_block;
use mbj_sha_lanes::Blocks;

/// Hash values, one for each lane. They are read where they stand.
pub trait Chains<T> {
    /// The words of a hash value.
    ghost words: { T → List ℕ };

    /// There is a hash value for a lane.
    ghost lends: { Self → ℕ → Type 0 };

    /// The words of the hash value of a lane.
    ghost chain: { Self → ℕ → List ℕ };

    /// Lends the hash value of lane `i`.
    fn chain(&self, i: usize) -> &T
        requires { lends self.now i }
        ensures { words result.now ≡ chain self.now i };
}

/// The entries of a run as its lanes read them: the block that comes after `done` others. A lane whose entry has no round left, or whose
/// block is made, or that has no entry, reads a block of zeros.
#[derive(Clone, Copy)]
pub(crate) struct LaneEntries<'a, H: LaneHash> {
    pub(crate) entries: &'a [HmacEntry<H>],
    pub(crate) done: u32,
}

/// The hash value of an entry.
#[inline(always)]
pub(crate) fn chain_of<H: LaneHash>(entry: &HmacEntry<H>) -> &H::Chain
    ensures { H.words result.now ≡ entry.now.chain }
{
    &entry.chain
}

/// The hash value of an entry's inner hash.
#[inline(always)]
pub(crate) fn inner_of<H: LaneHash>(entry: &HmacEntry<H>) -> &H::Chain
    ensures { H.words result.now ≡ entry.now.inner }
{
    &entry.inner
}

impl<'a, H: LaneHash> Blocks for LaneEntries<'a, H> {
    ghost block_bytes = { H.hashing.block_bytes };

    ghost lends = { λ v i. Unit {0} };

    ghost block = { λ v i. block_in H.hashing (entry_in v.entries.now i) v.done };

    #[inline(always)]
    fn block(&self, i: usize) -> &[u8] {
        if i < self.entries.len() {
            self.entries[i].block(self.done)
        } else {
            blank_block::<H>()
        }
    }
}
