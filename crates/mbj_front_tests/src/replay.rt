use mbj_io::MemSink;
use mbj_replay::{
    ReplayLine, a_submitter_has_as_many_cells_as_a_ring, replay_lines, replays_are_of_events,
};
use mbj_text::{Cmd, write_lines};
use mbj_types::Job;
use std::alloc::{AllocError, Global};
use std::test::Fail;

/// The commands of a script over two jobs with no cipher and no authentication, each of which is finished as soon as it
/// is submitted, and the lines that they print.
const COMMANDS: [Cmd; 7] = [
    Cmd::Post(0),
    Cmd::Post(0),
    Cmd::Post(0),
    Cmd::Claim(0, 0),
    Cmd::Flush(0),
    Cmd::Collect(0),
    Cmd::Collect(0),
];

const LINES: &str =
    "post 0 0\npost 0 1\npost 0 end\nclaim 0 0\nfinish 0 0\nfinish 0 none\ncollect 0 0 ok - -\ncollect 0 none\n";

/// Room for the lines of a script.
const ROOM: usize = 1 << 16;

/// Writes lines byte by byte.
pub(crate) fn write(alloc: Global, lines: &[ReplayLine]) -> Result<MemSink, Fail> {
    let mut sink = MemSink::new(alloc, ROOM, 1, &[])?;
    write_lines(&mut sink, lines)?;
    Ok(sink)
}

/// Whether the lines have this text.
pub(crate) fn have_text(alloc: Global, lines: &[ReplayLine], text: &str) -> Result<bool, Fail> {
    let sink = write(alloc, lines)?;
    Ok(sink.held() == text.as_bytes())
}

/// The lines of the script, of one submitter and one worker.
fn lines(alloc: Global) -> Result<Vec<ReplayLine>, AllocError> {
    let mut jobs = Vec::new(alloc);
    jobs.push(Job::blank(alloc))?;
    jobs.push(Job::blank(alloc))?;
    replay_lines(alloc, jobs, Vec::from_slice(alloc, &COMMANDS)?, 1, 1)
}

/// Whether it has its text.
fn is_told(alloc: Global) -> Result<bool, Fail> {
    let lines = lines(alloc)?;
    have_text(alloc, &lines, LINES)
}

#[test]
fn a_script_is_told_in_its_lines(rt: HostRuntime) -> Result<(), Fail> {
    replays_are_of_events();
    a_submitter_has_as_many_cells_as_a_ring();
    assert!(rt; is_told(rt.alloc())?);
    Ok(())
}
