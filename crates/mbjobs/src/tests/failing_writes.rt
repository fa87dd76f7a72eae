use super::runs::{Calls, Ending, Host, ROOM, Run};
use super::{FIRST_BURST, FIRST_JOB, FIRST_RESULT, FIRST_TRACE, RUN};
use mbj_io::MemSink;
use std::alloc::Global;
use std::process::Abort;

/// The words of a command, its input, and what it writes.
type Case = (&'static str, &'static str, &'static str);

const CASES: [Case; 5] = [
    (RUN, FIRST_JOB, FIRST_RESULT),
    ("mbjobs trace", FIRST_JOB, FIRST_TRACE),
    ("mbjobs burst --size 2", FIRST_JOB, FIRST_BURST),
    (
        "mbjobs replay --submitters 1 --workers 1",
        "null enc ch - - 0 0 hmac-sha1 0b0b0b0b0b0b0b0b0b0b0b0b0b0b0b0b0b0b0b0b - 0 8 20 4869205468657265\n%\npost 0\nclaim 0 0\nflush 0\ncollect 0\n",
        "post 0 0\nclaim 0 0\nfinish 0 0\ncollect 0 0 ok 4869205468657265 b617318655057264e28bc0b6fb378c8ef146be00\n",
    ),
    (
        "mbjobs gen --seed 1 --jobs 0 --submitters 1 --workers 0",
        "",
        "jobs 0\nok 0\ninvalid 0\nbytes 0\nsha256 e3b0c44298fc1c149afbf4c8996fb92427ae41e4649b934ca495991b7852b855\n",
    ),
];

/// How many bytes a write takes at most, and how many writes the 63 bytes of the first result take.
const WRITES: [(u32, u64); 4] = [(7, 9), (1, 63), (62, 2), (63, 1)];

/// Sees that a run wrote a prefix of the text, and returns its length: the status and a fault of the sink tell where it
/// isn't the whole text.
fn front_of<R: Abort>(rt: &R, ending: &Ending, text: &[u8]) -> usize {
    let held = ending.out.held();
    let (status, faults) = if held.len() < text.len() {
        (4, 1)
    } else {
        (0, 0)
    };
    let is_told = ending.status == status && ending.out.faults() == faults;
    assert!(rt; is_told && text.starts_with(held), "{} bytes", held.len());
    held.len()
}

/// Runs a command by such writes into a sink with room for `room` bytes, and returns how many bytes of its text that
/// holds.
fn written<R: Host>(rt: &R, alloc: Global, case: &Case, room: usize, writes: Calls<'_>) -> usize {
    let (words, input, text) = case;
    let mut run = Run::by(words, input.as_bytes(), (64, &[]), writes);
    run.out_room = room;
    front_of(rt, &run.end(rt, alloc), text.as_bytes())
}

/// Fails each of the `writes` writes of the first case by pieces of a length, and two that it doesn't come to.
fn compare_writes<R: Host>(rt: &R, alloc: Global, piece: u32, writes: u64) {
    for number in 0..writes.saturating_add(2) {
        let taken = (piece as usize).saturating_mul(number as usize);
        let count = written(rt, alloc, &CASES[0], ROOM, (piece, &[number]));
        assert!(rt;
            count == taken.min(FIRST_RESULT.len()),
            "write {number} of {piece} bytes"
        );
    }
}

#[test]
fn each_write_that_fails_leaves_what_was_written_before(rt: HostRuntime) {
    for (piece, writes) in &WRITES {
        compare_writes(&rt, rt.alloc(), *piece, *writes);
    }
}

#[test]
fn each_room_is_filled_up_by_a_front_of_the_text(rt: HostRuntime) {
    for case in &CASES {
        for room in 0..=case.2.len() {
            assert!(rt;
                written(&rt, rt.alloc(), case, room, (7, &[])) == room,
                "room {room}"
            );
        }
    }
}

/// Each write of a command that fails leaves more than the one before, up to the whole text.
fn compare_command<R: Host>(rt: &R, alloc: Global, case: &Case) {
    let whole = case.2.len();
    let mut before = 0;
    for number in 0..whole as u64 {
        let count = written(rt, alloc, case, ROOM, (7, &[number]));
        assert!(rt; count == whole || number == 0 || before < count, "{number}");
        before = count;
    }
    assert!(rt; before == whole, "{before}");
}

// Each write takes a byte at least, so that no text takes more writes than it has bytes.
#[test]
fn each_write_of_each_command_that_fails_ends_it(rt: HostRuntime) {
    for case in &CASES {
        compare_command(&rt, rt.alloc(), case);
    }
}

#[test]
fn a_room_that_no_memory_has_is_refused(rt: HostRuntime) {
    assert!(rt; MemSink::new(rt.alloc(), usize::MAX, 1, &[]).is_err());
}
