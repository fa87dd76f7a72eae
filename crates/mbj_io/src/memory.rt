ghost use Rattle.std.specs.Prelude.{◌≡◌, ℕ, ◌-◌, ◌<◌, ◌≤◌, ◌⊎◌, ◌↔◌, [], min, length, Some, IfOk, OnOk, OnErr, IsErr, is_err};
ghost use Rattle.std.specs.Io.{ReadsAtMost, WritesAtMost};
ghost use Rattle.std.specs.Io.KnownBytes.{ReadConsumes, WriteAppends};
ghost use Rattle.mbj_io.specs.Faults.{Rose, counted};
ghost use Rattle.mbj_io.specs.Calls.{IsListed, first_calls, after_call};

use crate::calls::Calls;
use crate::{Failed, Sink, Source};
use std::alloc::{AllocError, Global};
use std::marker::Model;

/// A source in memory, whose bytes contracts see, and which fails at the calls that it is given.
#[derive(Debug, Drop)]
pub struct MemSource {
    content: Vec<u8>,
    at: usize,
    calls: Calls,
}

impl Model for MemSource {
    ghost use Rattle.std.specs.Prelude.{◌≤◌, drop, vec_len};
    ghost use Rattle.mbj_io.specs.Memory.{SourceView, FailsOnlyWhereListed};

    ghost Value = { SourceView };

    ghost view = { λ s. record { rest = drop s.at s.content.items; calls = s.calls } };

    ghost invariant = { λ s. (s.at ≤ vec_len s.content) × FailsOnlyWhereListed s.calls };
}

impl MemSource {
    /// A source of these bytes. A call gives at most `piece` of them (condition: at least 1), and
    /// the calls whose numbers, from 0, stand in `fails` fail. The numbers stop at 2^64 - 1.
    ///
    /// Returns [`AllocError`] only for want of memory.
    pub fn new(
        alloc: Global,
        content: &[u8],
        piece: u32,
        fails: &[u64],
    ) -> Result<MemSource, AllocError>
        requires { 1 ≤ piece }
        ensures rest { IfOk result (λ s. s.rest ≡ content.now) }
        ensures calls { IfOk result (λ s. s.calls ≡ first_calls piece fails.now) }
    {
        Ok(MemSource {
            content: content.to_vec(alloc)?,
            at: 0,
            calls: Calls::new(alloc, piece, fails)?,
        })
    }

    /// The bytes that are not yet read.
    pub fn rest(&self) -> &[u8]
        ensures { result.now ≡ self.now.rest }
    {
        let (_, rest) = self.content.split_at(self.at);
        rest
    }

    /// How often it has failed: never, if no call is listed.
    pub fn faults(&self) -> u64
        ensures value { result ≡ self.now.calls.faults }
        ensures none_listed { self.now.calls.fails ≡ [] → result ≡ 0 }
    {
        self.calls.faults()
    }
}

impl Source for MemSource {
    ghost rest = { λ s. Some s.rest };

    ghost faults = { λ s. s.calls.faults };

    fn read(&mut self, buf: &mut [u8]) -> Result<usize, Failed>
        ensures bound { ReadsAtMost result buf.new }
        ensures bytes { ReadConsumes (Some self.old.rest) (Some self.new.rest) result buf.new }

        ensures never_falls { self.old.calls.faults ≤ self.new.calls.faults }
        ensures calm { OnOk result (self.new.calls.faults ≡ self.old.calls.faults) }
        ensures failed { OnErr result (Rose self.old.calls.faults self.new.calls.faults) }
        ensures once { OnErr result (self.new.calls.faults ≡ counted self.old.calls.faults) }

        // It fails exactly at the calls that are listed, and gives all that the call may.
        ensures listed { IsErr result ↔ IsListed self.old.calls }
        ensures given { IfOk result (λ n. n ≡ min (length buf.old)
            (min self.old.calls.piece (length self.old.rest))) }
        ensures calls { self.new.calls ≡ after_call self.old.calls (is_err result) }
    {
        self.calls.count(false)?;
        let rest = self.rest();
        let n = buf.len().min(self.calls.piece()).min(rest.len());
        buf[..n].copy_from_slice(&rest[..n]);
        self.at += n;
        Ok(n)
    }
}

/// A sink in memory, whose bytes contracts see, and which fails at the calls that it is given. Its room is
/// taken when it is made; a write to a full sink is a fault, even an empty write.
#[derive(Debug, Drop)]
pub struct MemSink {
    bytes: Vec<u8>,
    room: usize,
    calls: Calls,
}

impl Model for MemSink {
    ghost use Rattle.std.specs.Prelude.{◌≤◌, vec_len, vec_capacity};
    ghost use Rattle.mbj_io.specs.Memory.{SinkView, FailsOnlyWhereListedOrFull};

    ghost Value = { SinkView };

    ghost view = { λ s. record { held = s.bytes.items; room = s.room; calls = s.calls } };

    ghost invariant = { λ s. (vec_len s.bytes ≤ s.room) × (s.room ≤ vec_capacity s.bytes)
        × FailsOnlyWhereListedOrFull s.bytes.items s.room s.calls };
}

impl MemSink {
    /// A sink with room for `room` bytes. A call takes at most `piece` of them (condition: at
    /// least 1), and the calls whose numbers, from 0, stand in `fails` fail. The numbers stop at
    /// 2^64 - 1.
    ///
    /// Returns [`AllocError`] only for want of memory.
    pub fn new(alloc: Global, room: usize, piece: u32, fails: &[u64]) -> Result<MemSink, AllocError>
        requires { 1 ≤ piece }
        ensures held { IfOk result (λ s. s.held ≡ []) }
        ensures room { IfOk result (λ s. s.room ≡ room) }
        ensures calls { IfOk result (λ s. s.calls ≡ first_calls piece fails.now) }
    {
        Ok(MemSink {
            bytes: Vec::with_capacity(alloc, room)?,
            room,
            calls: Calls::new(alloc, piece, fails)?,
        })
    }

    /// The bytes that it has taken.
    pub fn held(&self) -> &[u8]
        ensures value { result.now ≡ self.now.held }
        ensures within { length result.now ≤ self.now.room }
    {
        &self.bytes
    }

    /// How often it has failed: never, if no call is listed and room is left.
    pub fn faults(&self) -> u64
        ensures value { result ≡ self.now.calls.faults }
        ensures none_listed { self.now.calls.fails ≡ []
            → length self.now.held < self.now.room → result ≡ 0 }
    {
        self.calls.faults()
    }
}

impl Sink for MemSink {
    ghost held = { λ s. Some s.held };

    ghost faults = { λ s. s.calls.faults };

    fn write(&mut self, buf: &[u8]) -> Result<usize, Failed>
        ensures bound { WritesAtMost result buf.now }
        ensures some { IfOk result (λ n. 0 < length buf.now → 0 < n) }
        ensures bytes { WriteAppends (Some self.old.held) (Some self.new.held) result buf.now }

        ensures never_falls { self.old.calls.faults ≤ self.new.calls.faults }
        ensures calm { OnOk result (self.new.calls.faults ≡ self.old.calls.faults) }
        ensures failed { OnErr result (Rose self.old.calls.faults self.new.calls.faults) }

        // It fails exactly at the calls that are listed and where no room is left, and takes all
        // that the call may.
        ensures refused { IsErr result
            ↔ ((length self.old.held ≡ self.old.room) ⊎ IsListed self.old.calls) }
        ensures taken { IfOk result (λ n. n ≡ min (length buf.now)
            (min self.old.calls.piece (self.old.room - length self.old.held))) }
        ensures calls { self.new.calls ≡ after_call self.old.calls (is_err result) }
        ensures room { self.new.room ≡ self.old.room }
    {
        let left = self.room - self.bytes.len();
        self.calls.count(left == 0)?;
        let n = buf.len().min(self.calls.piece()).min(left);
        match self.bytes.extend_from_slice(&buf[..n]) {
            Ok(()) => Ok(n),
            // The room was taken when the sink was made.
            Err(_) => unreachable!(),
        }
    }
}
