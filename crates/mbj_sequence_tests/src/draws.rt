ghost use Rattle.std.specs.Prelude.{◌<◌};

use std::alloc::{AllocError, Global};

/// Draws from a linear congruential generator of 64 bits: each byte is the highest one of the next state.
#[derive(Drop)]
pub(crate) struct Draws {
    state: u64,
}

impl Draws {
    /// The draws from a seed on.
    pub(crate) fn new(seed: u64) -> Draws {
        Draws { state: seed }
    }

    fn byte(&mut self) -> u8 {
        self.state = self
            .state
            .wrapping_mul(6_364_136_223_846_793_005)
            .wrapping_add(1_442_695_040_888_963_407);
        (self.state >> 56) as u8
    }

    /// A number below the bound: three bytes, the highest first, modulo the bound.
    pub(crate) fn below(&mut self, bound: u32) -> u32
        requires { 0 < bound }
        ensures { result < bound }
    {
        u32::from_be_bytes([0, self.byte(), self.byte(), self.byte()]) % bound
    }

    /// A number of at most `most`.
    pub(crate) fn up_to(&mut self, most: u16) -> u16 {
        self.below(u32::from(most) + 1) as u16
    }

    pub(crate) fn bytes(&mut self, alloc: Global, len: u16) -> Result<Vec<u8>, AllocError> {
        let mut bytes = Vec::new(alloc);
        for _ in 0..len {
            bytes.push(self.byte())?;
        }
        Ok(bytes)
    }
}
