ghost use Rattle.std.specs.Prelude.{◌≤◌, length};

use crate::work::HI_THERE;
use mbj_io::MemSink;
use mbj_text::write_done;
use mbj_types::{Bytes, Done, Reason, Status, Tag};
use std::alloc::{AllocError, Global};
use std::test::Fail;

/// The message of RFC 2202, case 1 of HMAC-SHA-1.
const MESSAGE: &[u8] = b"Hi There";

/// Room for the lines.
const ROOM: usize = 200;

/// A status, a packet and a tag.
type Parts<'a> = (Status, &'a [u8], &'a [u8]);

/// Whether the line of a result with this number and these parts is written.
fn writes(alloc: Global, sink: &mut MemSink, number: u32, done: Parts) -> Result<bool, AllocError>
    requires { length done.2.now ≤ 64 }
{
    let (status, packet, tag) = done;
    let packet = Bytes::from_slice(alloc, packet)?;
    let tag = Tag::from_slice(tag);
    let done = Done {
        status,
        packet,
        tag,
    };
    Ok(write_done(sink, number, &done).is_ok())
}

/// Whether the lines of three results are written.
fn writes_three(alloc: Global, sink: &mut MemSink) -> Result<bool, AllocError> {
    let refused = Status::InvalidArgs(Reason::CipherKey);
    Ok(
        writes(alloc, sink, 0, (Status::Ok, MESSAGE, HI_THERE))?
            && writes(alloc, sink, 65535, (Status::Ok, &[], &[]))?
            && writes(alloc, sink, 12, (refused, MESSAGE, &[]))?,
    )
}

#[test]
fn results_are_written_whole(rt: HostRuntime) -> Result<(), Fail> {
    let mut sink = MemSink::new(rt.alloc(), ROOM, 7, &[])?;
    let lines = b"0 ok 4869205468657265 b617318655057264e28bc0b6fb378c8ef146be00\n\
        65535 ok - -\n\
        12 invalid-args 3\n";
    assert!(rt; writes_three(rt.alloc(), &mut sink)? && sink.held() == lines.as_slice());
    Ok(())
}

/// Whether the line of a result with this number is cut off behind this text, by the call of this number, from 0, of those
/// that each take `bytes` bytes at most.
fn stops(alloc: Global, number: u32, text: &[u8], call: u64, bytes: u32) -> Result<bool, AllocError>
    requires { 1 ≤ bytes }
{
    let mut sink = MemSink::new(alloc, ROOM, bytes, &[call])?;
    let written = writes(alloc, &mut sink, number, (Status::Ok, MESSAGE, HI_THERE))?;
    Ok(!written && sink.held() == text && sink.faults() == 1)
}

#[test]
fn a_fault_leaves_a_front_of_the_line(rt: HostRuntime) -> Result<(), Fail> {
    assert!(rt; stops(rt.alloc(), 0, b"0 ok 486920546", 2, 7)?);
    Ok(())
}

#[test]
fn a_long_line_is_offered_in_pieces_of_64_bytes(rt: HostRuntime) -> Result<(), Fail> {
    let piece = b"4294967295 ok 4869205468657265 b617318655057264e28bc0b6fb378c8ef";
    assert!(rt; stops(rt.alloc(), u32::MAX, piece, 1, 200)?);
    Ok(())
}
