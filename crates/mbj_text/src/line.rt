ghost use Rattle.std.specs.Prelude.{◌≡◌, ◌≤◌, ◌++◌, [], length};
ghost use Rattle.hex.specs.Hex.{encode_lower};
ghost use Rattle.mbj_io.specs.Streams.{stream};
ghost use Rattle.mbj_text.specs.Flow.{Writes};
ghost use Rattle.mbj_text.specs.Inside.Pieces.{Puts};
ghost use Rattle.mbj_text.specs.Line.{line_of, number_or_none, text_before, text_of};

use crate::piece::{PIECE_LEN, Piece};
use mbj_io::{Failed, Sink};

/// How many bytes are spelled at once, by a whole piece of digits.
const HEX_STEP: usize = PIECE_LEN / 2;

/// A part of a line.
#[derive(Clone, Copy, Debug)]
pub enum Part<'a> {
    /// Words as they are.
    Words(&'static str),
    /// A number in decimal.
    Number(u64),
    /// Bytes in lower-case hexadecimal, `-` for none.
    Hex(&'a [u8]),
}

impl Part<'_> {
    /// A number in decimal, or `none`.
    pub fn or_none(number: Option<u32>) -> Part<'static>
        ensures { text_of result ≡ number_or_none number }
    {
        match number {
            Some(number) => Part::Number(number as u64),
            None => Part::Words("none"),
        }
    }
}

/// Puts the part's text behind what waits.
fn put_part<O: Sink>(piece: &mut Piece, sink: &mut O, part: Part) -> Result<(), Failed>
    ensures { Puts result (stream O.held O.faults sink.old sink.new) (piece.old ++ text_of part.entry) piece.new }
{
    match part {
        Part::Words(words) => piece.put(sink, words.as_bytes()),
        Part::Number(n) => piece.put(sink, itoa::Buffer::new().format(n).as_bytes()),
        Part::Hex([]) => piece.put(sink, b"-"),
        Part::Hex(bytes) => put_hex(piece, sink, bytes),
    }
}

/// Puts the bytes in lower-case hexadecimal behind what waits.
fn put_hex<O: Sink>(piece: &mut Piece, sink: &mut O, bytes: &[u8]) -> Result<(), Failed>
    ensures { Puts result (stream O.held O.faults sink.old sink.new) (piece.old ++ encode_lower bytes.now) piece.new }
{
    for chunk in bytes.chunks(HEX_STEP) {
        put_hex_chunk(piece, sink, chunk)?;
    }
    Ok(())
}

fn put_hex_chunk<O: Sink>(piece: &mut Piece, sink: &mut O, chunk: &[u8]) -> Result<(), Failed>
    requires { length chunk.now ≤ HEX_STEP }
    ensures { Puts result (stream O.held O.faults sink.old sink.new) (piece.old ++ encode_lower chunk.now) piece.new }
{
    let mut room = [0; PIECE_LEN];
    let digits = &mut room[..2 * chunk.len()];
    match hex::encode_to_slice(chunk, digits) {
        Ok(()) => piece.put(sink, digits),
        Err(_) => unreachable!(),
    }
}

/// Puts the parts, one after another, behind what waits.
fn put_parts<O: Sink>(piece: &mut Piece, sink: &mut O, parts: &[Part]) -> Result<(), Failed>
    ensures { Puts result (stream O.held O.faults sink.old sink.new) (piece.old ++ text_before parts.now []) piece.new }
{
    for part in parts {
        put_part(piece, sink, *part)?;
    }
    Ok(())
}

/// Writes the parts one after another, and nothing behind them. It takes no memory.
///
/// [`Failed`] comes only where the sink's faults rose; the sink has then taken a prefix of their text.
pub fn write_parts<O: Sink>(sink: &mut O, parts: &[Part]) -> Result<(), Failed>
    ensures { Writes result (stream O.held O.faults sink.old sink.new) (text_before parts.now []) }
{
    let mut piece = Piece::new();
    put_parts(&mut piece, sink, parts)?;
    piece.finish(sink)
}

/// Writes the parts one after another, and LF. It takes no memory.
///
/// [`Failed`] comes only where the sink's faults rose; the sink has then taken a prefix of the line.
pub fn write_line<O: Sink>(sink: &mut O, parts: &[Part]) -> Result<(), Failed>
    ensures { Writes result (stream O.held O.faults sink.old sink.new) (line_of parts.now) }
{
    let mut piece = Piece::new();
    put_parts(&mut piece, sink, parts)?;
    piece.put(sink, b"\n")?;
    piece.finish(sink)
}
