//! Blocks that go through the lanes side by side.
ghost use Rattle.std.specs.Prelude.{◌≡◌, ℕ, ◌<◌, List, [], length, slice_index_or};

/// A block for each of some lanes.
pub trait LaneBlocks {
    /// How many lanes have one.
    ghost lanes_of: { Self → ℕ };

    /// The block in a lane.
    ghost block_in: { Self → ℕ → List ℕ };

    /// The block in a lane.
    fn block(&self, lane: usize) -> [u8; 16]
        requires { lane < lanes_of self.now }
        ensures { result ≡ block_in self.now lane };
}

/// Blocks in a slice, one for each lane.
#[derive(Drop)]
pub struct Blocks<'a> {
    pub blocks: &'a [[u8; 16]],
}

impl LaneBlocks for Blocks<'_> {
    ghost lanes_of = { λ b. length b.blocks.now };

    ghost block_in = { λ b i. slice_index_or b.blocks.now i [] };

    #[inline(always)]
    fn block(&self, lane: usize) -> [u8; 16] {
        self.blocks[lane]
    }
}
