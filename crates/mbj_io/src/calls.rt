ghost use Rattle.std.specs.Prelude.{◌≡◌, ◌⊎◌, ◌≤◌, ◌↔◌, IfOk, IsErr, IsTrue, is_err, Contains};
ghost use Rattle.mbj_io.specs.Calls.{IsListed, first_calls, after_call};

use crate::Failed;
use std::alloc::{AllocError, Global};
use std::marker::Model;

/// The calls of a source or a sink in memory: how much each may move, which of them fail, and how
/// many there were.
#[derive(Debug, Drop)]
pub struct Calls {
    piece: u32,
    fails: Vec<u64>,
    made: u64,
    faults: u64,
}

impl Model for Calls {
    ghost use Rattle.std.specs.Prelude.{◌≤◌};
    ghost use Rattle.mbj_io.specs.Calls.{CallsView};

    ghost Value = { CallsView };

    ghost view = { λ c. record {
      piece = c.piece;
      fails = c.fails.items;
      made = c.made;
      faults = c.faults;
    } };

    ghost invariant = { λ c. 1 ≤ c.piece };
}

impl Calls {
    /// Calls that move at most `piece` bytes each. Those whose numbers, from 0 on, are in `fails` fail.
    ///
    /// Returns `AllocError` for want of memory.
    pub fn new(alloc: Global, piece: u32, fails: &[u64]) -> Result<Calls, AllocError>
        requires { 1 ≤ piece }
        ensures { IfOk result (λ c. c ≡ first_calls piece fails.now) }
    {
        Ok(Calls {
            piece,
            fails: fails.to_vec(alloc)?,
            made: 0,
            faults: 0,
        })
    }

    /// At most how many bytes a call moves.
    pub fn piece(&self) -> usize
        ensures value { result ≡ self.now.piece }
        ensures positive { 1 ≤ result }
    {
        self.piece as usize
    }

    /// How many calls failed.
    pub fn faults(&self) -> u64
        ensures { result ≡ self.now.faults }
    {
        self.faults
    }

    /// Whether the next call is one of those that fail.
    fn is_listed(&self) -> bool
        ensures { IsTrue result ↔ IsListed self.now }
    {
        self.fails.contains(&self.made)
    }

    /// Counts the next call. It fails if it is listed, and if the caller refuses it.
    pub fn count(&mut self, refused: bool) -> Result<(), Failed>
        ensures failed { IsErr result ↔ (IsTrue refused ⊎ IsListed self.old) }
        ensures after { self.new ≡ after_call self.old (is_err result) }
        ensures never_falls { self.old.faults ≤ self.new.faults }
    {
        let fails = refused || self.is_listed();
        self.made = self.made.saturating_add(1);
        if fails {
            self.faults = self.faults.saturating_add(1);
            return Err(Failed);
        }
        Ok(())
    }
}
