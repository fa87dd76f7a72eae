ghost use Rattle.std.specs.Prelude.{◌≡◌, ◌+◌, ◌≤◌, ◌<◌, [], ◌++◌, length, OnOk};
ghost use Rattle.mbj_io.specs.Streams.{stream};
ghost use Rattle.mbj_text.specs.Flow.{Writes};
ghost use Rattle.mbj_text.specs.Inside.Pieces.{Puts};

use crate::writing::write_all;
use mbj_io::{Failed, Sink};
use std::marker::Model;

/// How many bytes of text are offered to a sink at once.
pub(crate) const PIECE_LEN: usize = 64;

/// A buffer before a sink, which gets pieces of [`PIECE_LEN`] bytes, the last one shorter. What a write
/// leaves of a piece is offered again before the next piece. Contracts see the text that is held back.
#[derive(Drop)]
pub(crate) struct Piece {
    bytes: [u8; PIECE_LEN],
    len: usize,
}

impl Model for Piece {
    ghost use Rattle.std.specs.Prelude.{◌≤◌, ℕ, List, take};
    ghost use Rattle.mbj_text.specs.declared.piece.TheConstants.{PIECE_LEN};

    ghost Value = { List ℕ };

    ghost view = { λ p. take p.len p.bytes };

    ghost invariant = { λ p. p.len ≤ PIECE_LEN };
}

impl Piece {
    /// No text yet.
    pub(crate) fn new() -> Piece
        ensures { result ≡ [] }
    {
        prove!(PIECE_LEN == 64);
        Piece {
            bytes: [0; PIECE_LEN],
            len: 0,
        }
    }

    /// Puts a text behind what waits, and writes each piece that is whole and not the last.
    pub(crate) fn put<O: Sink>(&mut self, sink: &mut O, text: &[u8]) -> Result<(), Failed>
        ensures { Puts result (stream O.held O.faults sink.old sink.new) (self.old ++ text.now) self.new }
    {
        let mut rest = text;
        while !rest.is_empty() {
            self.make_room(sink)?;
            let (front, after) = rest.split_at(rest.len().min(self.room()));
            self.append(front);
            rest = after;
        }
        Ok(())
    }

    /// Writes what still waits.
    pub(crate) fn finish<O: Sink>(self, sink: &mut O) -> Result<(), Failed>
        ensures { Writes result (stream O.held O.faults sink.old sink.new) self }
    {
        write_all(sink, &self.bytes[..self.len])
    }

    /// How many more bytes fit into the piece.
    fn room(&self) -> usize
        ensures { result + length self.now ≡ PIECE_LEN }
    {
        PIECE_LEN - self.len
    }

    fn append(&mut self, text: &[u8])
        requires { length self.old + length text.now ≤ PIECE_LEN }
        ensures { self.new ≡ self.old ++ text.now }
    {
        let end = self.len + text.len();
        self.bytes[self.len..end].copy_from_slice(text);
        self.len = end;
    }

    /// Writes the piece if it is whole.
    fn make_room<O: Sink>(&mut self, sink: &mut O) -> Result<(), Failed>
        ensures put { Puts result (stream O.held O.faults sink.old sink.new) self.old self.new }
        ensures room { OnOk result (length self.new < PIECE_LEN) }
    {
        if self.len == PIECE_LEN {
            write_all(sink, &self.bytes)?;
            self.len = 0;
        }
        Ok(())
    }
}
