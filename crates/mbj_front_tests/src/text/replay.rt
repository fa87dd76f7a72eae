use super::place_of;
use mbj_text::Cmd::{self, Claim, Collect, Flush, Post};
use mbj_text::{INPUT_LIMIT, read_replay};
use std::alloc::{AllocError, Global};
use std::test::Fail;

/// A good job line.
const JOB: &str =
    "null enc ch - - 0 0 hmac-sha1 0b0b0b0b0b0b0b0b0b0b0b0b0b0b0b0b0b0b0b0b - 0 8 20 4869205468657265";

const SUBMITTERS: u32 = 3;

const WORKERS: u32 = 2;

/// Files, where `@` stands for the good job line, with the number of their jobs and their commands.
const GOOD: [(&str, usize, &[Cmd]); 11] = [
    ("", 0, &[]),
    ("@\n@", 2, &[]),
    ("@\n%", 1, &[]),
    ("%\n", 0, &[]),
    (
        "@\n%\npost 0\nclaim 0 0\nflush 1\ncollect 0\n",
        1,
        &[Post(0), Claim(0, 0), Flush(1), Collect(0)],
    ),
    ("%\nclaim 1 2", 0, &[Claim(1, 2)]),
    ("%\r\npost 2\r\n", 0, &[Post(2)]),
    (
        "@\n#%\n\n%\n\n#post 9\npost 1\n\r\n#\npost 1\n",
        1,
        &[Post(1), Post(1)],
    ),
    ("%\n#%\nflush 0", 0, &[Flush(0)]),
    ("@\n@\n%\ncollect 2\n", 2, &[Collect(2)]),
    (
        "session 2b7e151628aed2a6abf7158809cf4f3c\n%\npost 0\n",
        0,
        &[Post(0)],
    ),
];

/// Files, where `@` stands for the good job line, with the line and the field of their fault.
const BAD: [(&str, u32, u32); 36] = [
    ("@\n%\nclaim 2 0", 3, 2),
    ("@\n%\nclaim 1 3", 3, 3),
    ("@\n%\nclaim 2 3", 3, 2),
    ("@\n%\nclaim 0", 3, 0),
    ("@\n%\nclaim 0 0 0", 3, 0),
    ("@\n%\nclaim 9", 3, 0),
    ("@\n%\npost", 3, 0),
    ("@\n%\npost 0 ", 3, 0),
    ("@\n%\npost  0", 3, 0),
    ("@\n%\npost 0 0", 3, 0),
    ("@\n%\npost ", 3, 2),
    ("@\n%\npost 00", 3, 2),
    ("@\n%\npost 3", 3, 2),
    ("@\n%\npost 100000", 3, 2),
    ("@\n%\npost +1", 3, 2),
    ("@\n%\npost -", 3, 2),
    ("@\n%\nflush 2", 3, 2),
    ("@\n%\nflush 0 0", 3, 0),
    ("@\n%\ncollect 3", 3, 2),
    ("@\n%\ncollect", 3, 0),
    ("@\n%\n 0", 3, 1),
    ("@\n%\nPost 0", 3, 1),
    ("@\n%\nposts 0", 3, 1),
    ("@\n%\nwait", 3, 1),
    ("@\n%\npost\t0", 3, 1),
    ("@\n%\n@", 3, 1),
    ("@\n%\npost 0\n%\n", 4, 1),
    ("@\n%\n\n#\npost 0\npost 3\nwait", 6, 2),
    ("null\n%\nwait", 1, 0),
    ("@\n% \n", 2, 0),
    ("@\n%%\n", 2, 0),
    ("post 0\n", 1, 0),
    ("%\nsession 2b7e151628aed2a6abf7158809cf4f3c\n", 2, 1),
    ("@\n%\nsession\n", 3, 1),
    ("session\n%\nwait", 1, 0),
    ("@\nsession -\n%\nwait", 2, 2),
];

/// Whether a file within the limit has `count` jobs and these commands, or the line and the field of its fault.
fn has(alloc: Global, file: &str, count: usize, commands: &[Cmd]) -> Result<bool, (u32, u32)> {
    if file.len() > INPUT_LIMIT {
        return Ok(false);
    }
    match read_replay(alloc, file.as_bytes(), SUBMITTERS, WORKERS) {
        Ok((_, jobs, script)) => Ok(jobs.len() == count && script.as_slice() == commands),
        Err(fault) => Err(place_of(fault)),
    }
}

/// The same of the file with the good job line for each `@` of the text.
fn text_has(alloc: Global, text: &str, count: usize, commands: &[Cmd]) -> Result<bool, (u32, u32)> {
    match text.replace(alloc, "@", JOB) {
        Ok(file) => has(alloc, file.as_str(), count, commands),
        Err(_) => Ok(false),
    }
}

#[test]
fn jobs_and_commands_are_read(rt: HostRuntime) {
    for (text, count, commands) in &GOOD {
        assert!(rt;
            text_has(rt.alloc(), *text, *count, *commands) == Ok(true),
            "{text:?}"
        );
    }
}

#[test]
fn the_first_fault_is_told(rt: HostRuntime) {
    for (text, line, field) in &BAD {
        assert!(rt;
            text_has(rt.alloc(), *text, 0, &[]) == Err((*line, *field)),
            "{text:?}"
        );
    }
}

/// Whether 300 commands are read behind a job.
fn reads_many(alloc: Global) -> Result<bool, AllocError> {
    let script = "post 2\nclaim 1 2\n".repeat(alloc, 150)?;
    let file = [JOB, "\n%\n", script.as_str()].join(alloc, "")?;
    let commands = [[Post(2), Claim(1, 2)]; 150];
    Ok(has(alloc, file.as_str(), 1, commands.as_flattened()) == Ok(true))
}

#[test]
fn a_script_may_have_many_commands(rt: HostRuntime) -> Result<(), Fail> {
    assert!(rt; reads_many(rt.alloc())?);
    Ok(())
}
