mod standard;

use mbj_io::{Failed, MemSink, MemSource, Sink, Source};
use std::test::Fail;

/// The most bytes that a read here asks for.
const READ_ROOM: usize = 6;

// The calls as code over any source or sink makes them, through the bound.

/// Whether a read into this much room comes to these bytes, or fails.
pub(super) fn gives<S: Source>(
    source: &mut S,
    room: usize,
    expected: Result<&[u8], Failed>,
) -> bool {
    let mut buf = [0; READ_ROOM];
    let Some(buf) = buf.get_mut(..room) else {
        return false;
    };
    match source.read(buf) {
        Ok(count) => expected == Ok(&buf[..count]),
        Err(fault) => expected == Err(fault),
    }
}

/// Whether a write of the piece takes this many of its bytes, or fails.
pub(super) fn takes<O: Sink>(sink: &mut O, piece: &[u8], expected: Result<usize, Failed>) -> bool {
    sink.write(piece) == expected
}

#[test]
fn a_source_in_memory_gives_pieces_and_fails_where_it_is_told(rt: HostRuntime) -> Result<(), Fail> {
    let mut source = MemSource::new(rt.alloc(), b"0123456789", 4, &[1])?;
    assert!(rt; gives_digits_in_pieces(&mut source) && source.faults() == 1);
    Ok(())
}

/// Whether the source of ten digits gives at most four of them at a time, and fails at its second read.
fn gives_digits_in_pieces(source: &mut MemSource) -> bool {
    gives(source, 6, Ok(b"0123"))
        && gives(source, 6, Err(Failed))
        && source.rest() == b"456789".as_slice()
        && gives(source, 3, Ok(b"456"))
        && gives(source, 6, Ok(b"789"))
        && gives(source, 6, Ok(b""))
}

#[test]
fn a_sink_in_memory_takes_pieces_until_its_room_is_used_up(rt: HostRuntime) -> Result<(), Fail> {
    let mut sink = MemSink::new(rt.alloc(), 6, 4, &[1])?;
    assert!(rt; takes_letters_in_pieces(&mut sink));
    Ok(())
}

/// Whether the sink with room for six letters takes at most four of them at a time, and fails at its second write and
/// once its room is used up.
fn takes_letters_in_pieces(sink: &mut MemSink) -> bool {
    takes(sink, b"abcdefgh", Ok(4))
        && takes(sink, b"efgh", Err(Failed))
        && sink.faults() == 1
        && takes(sink, b"efgh", Ok(2))
        && takes(sink, b"gh", Err(Failed))
        && takes(sink, b"", Err(Failed))
        && sink.held() == b"abcdef".as_slice()
        && sink.faults() == 3
}
