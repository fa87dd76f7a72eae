ghost use Rattle.std.specs.Prelude.{◌≡◌, ◌≤◌, IfOk};
ghost use Rattle.mbj_gen.specs.Generator.{byte, draws, drawn_length};

use mbj_types::Bytes;
use std::alloc::{AllocError, Global};

/// Draws bytes by a linear congruential generator of 64 bits: each draw is the highest byte of the next state.
#[derive(Drop)]
pub(crate) struct Draws {
    pub(crate) state: u64,
}

impl Draws {
    const MULTIPLIER: u64 = 6_364_136_223_846_793_005;

    const INCREMENT: u64 = 1_442_695_040_888_963_407;

    /// Draws a byte.
    pub(crate) fn byte(&mut self) -> u8
        ensures value { result ≡ (byte self.old.state).0 }
        ensures state { self.new.state ≡ (byte self.old.state).1 }
    {
        self.state = self
            .state
            .wrapping_mul(Draws::MULTIPLIER)
            .wrapping_add(Draws::INCREMENT);
        (self.state >> 56) as u8
    }

    /// Draws `count` bytes.
    ///
    /// Returns `AllocError` for want of memory; the state is then unspecified.
    pub(crate) fn bytes(&mut self, alloc: Global, count: usize) -> Result<Bytes, AllocError>
        ensures { IfOk result (λ drawn. (drawn ≡ (draws byte count self.old.state).0)
            × (self.new.state ≡ (draws byte count self.old.state).1)) }
    {
        let mut drawn = Vec::with_capacity(alloc, count)?;
        for _ in 0..count {
            drawn.push(self.byte())?;
        }
        Ok(Bytes::from_vec(drawn))
    }

    /// Draws a length in bytes: `length`, or up to 15 less.
    #[tactic(auto, unfolding(crate::specs::Generator::drawn_length))]
    pub(crate) fn shortened(&mut self, length: u32) -> u32
        requires { 16 ≤ length }
        ensures value { result ≡ (drawn_length length self.old.state).0 }
        ensures state { self.new.state ≡ (drawn_length length self.old.state).1 }
    {
        length - (self.byte() % 16) as u32
    }
}
