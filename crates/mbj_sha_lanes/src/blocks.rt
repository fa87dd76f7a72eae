ghost use Rattle.std.specs.Prelude.{◌≡◌, ℕ, ◌<◌, List, [], length, slice_index_or};

/// Blocks of one size, one for each lane. They are read where they stand.
pub trait Blocks {
    /// The length of a block, in bytes.
    ghost block_bytes: { ℕ };

    /// There is a block for a lane.
    ghost lends: { Self → ℕ → Type 0 };

    /// The block of a lane.
    ghost block: { Self → ℕ → List ℕ };

    /// Lends the block of lane `i`.
    fn block(&self, i: usize) -> &[u8]
        requires { lends self.now i }
        ensures block { result.now ≡ block self.now i }
        ensures length { length result.now ≡ block_bytes };
}

/// The bytes of a block.
#[inline(always)]
fn bytes_of<const BYTES: usize>(block: &[u8; BYTES]) -> &[u8]
    ensures block { result.now ≡ block.now }
    ensures length { length result.now ≡ BYTES }
{
    block
}

/// Blocks side by side: that of lane i is the one of number i.
impl<const BYTES: usize, const LANES: usize> Blocks for [[u8; BYTES]; LANES] {
    ghost block_bytes = { BYTES };

    ghost lends = { λ blocks i. i < length blocks };

    ghost block = { λ blocks i. slice_index_or blocks i [] };

    #[inline(always)]
    fn block(&self, i: usize) -> &[u8] {
        bytes_of(&self[i])
    }
}
