use super::place_of;
use mbj_text::{INPUT_LIMIT, JOB_LIMIT, TextFault, read_file, read_replay};
use mbj_types::{Job, MAX_SESSIONS};
use std::alloc::{AllocError, Global};
use std::test::Fail;

/// What stands for more in the files below: the keys of FIPS 197, A.1 to A.3, and what is behind field 4 of a job line.
const SHORT: [(&str, &str); 4] = [
    ("K", "2b7e151628aed2a6abf7158809cf4f3c"),
    ("L", "8e73b0f7da0e6452c810f32b809079e562f8ead2522c6b7b"),
    (
        "M",
        "603deb1015ca71be2b73aef0857d77811f352c073b6108d72d9810a30914dff4",
    ),
    ("~", "- 0 0 null - - 0 0 0 -"),
];

/// Good files, with the keys of their sessions, and the key and the session of each job.
const GOOD: [(&str, &str); 14] = [
    ("", "|"),
    ("session K", "K |"),
    ("session K\nsession L\nsession M\n", "K L M |"),
    ("session K\nsession K\ncbc enc ch @1 ~", "K K | K@1"),
    (
        "session 2B7E151628aed2a6ABF7158809CF4F3C\ncbc enc ch @0 ~",
        "K | K@0",
    ),
    ("session K\r\n\r\n#session\n\nsession L\r", "K L |"),
    ("session K\r\n#\n\ncbc enc ch @0 ~\r\n", "K | K@0"),
    ("cbc enc ch K ~\nsession K", "K | K"),
    ("session K\ncbc enc ch K ~", "K | K"),
    ("session K\nnull enc ch @0 ~", "K | K@0"),
    ("session K\nnull enc ch - ~", "K | -"),
    (
        "session K\ncbc enc ch @0 ~\nsession L\nctr dec hc @1 ~\ngcm enc ch @0 ~\nsession M\nccm enc ch @2 ~",
        "K L M | K@0 L@1 K@0 M@2",
    ),
    ("session M\nnull enc ch 00 ~\nctr enc ch @0 ~", "M | 00 M@0"),
    ("#session K\nsession L\n#\ncbc enc ch @0 ~", "L | L@0"),
];

/// Files, with the line and the field of their fault.
const BAD: [(&str, u32, u32); 43] = [
    ("session", 1, 0),
    ("session K K", 1, 0),
    ("session K ", 1, 0),
    ("session  K", 1, 0),
    ("session 00 00", 1, 0),
    ("session ", 1, 2),
    ("session -", 1, 2),
    ("session 00", 1, 2),
    ("session 000102030405060708090a0b0c0d0e", 1, 2),
    ("session K00", 1, 2),
    ("session L00", 1, 2),
    ("session M00", 1, 2),
    ("session K00000000", 1, 2),
    ("session Kg", 1, 2),
    ("session 2b7e151628aed2a6abf7158809cf4f3g", 1, 2),
    ("session @0", 1, 2),
    ("session K\nsession @0", 2, 2),
    ("session 0", 1, 2),
    (" session K", 1, 0),
    ("Session K", 1, 0),
    ("sessions K", 1, 0),
    ("session\tK", 1, 0),
    ("session\rK", 1, 0),
    ("session K\r\r\n", 1, 2),
    ("%\nsession K", 1, 0),
    ("\n#session\n\r\nsession K\nsession\n", 5, 0),
    ("cbc enc ch @0 ~\nsession K", 1, 4),
    ("session K\ncbc enc ch @1 ~", 2, 4),
    ("session K\ncbc enc ch @ ~", 2, 4),
    ("session K\ncbc enc ch @00 ~", 2, 4),
    ("session K\ncbc enc ch @-1 ~", 2, 4),
    ("session K\ncbc enc ch @+0 ~", 2, 4),
    ("session K\ncbc enc ch @0\t ~", 2, 4),
    ("session K\ncbc enc ch @@0 ~", 2, 4),
    ("session K\ncbc enc ch 0@ ~", 2, 4),
    ("session K\ncbc enc ch @K ~", 2, 4),
    ("session K\ncbc enc ch @4294967296 ~", 2, 4),
    ("session K\ncbc enc ch @0  ~", 2, 0),
    ("session K\ncbc enc ch @1", 2, 0),
    ("session K\ncbc enc cx @1 ~", 2, 3),
    ("session K\ncbc enc ch K @0 0 0 null - - 0 0 0 -", 2, 5),
    ("session K\nnull enc ch - - 0 0 cmac128 @0 - 0 0 16 -", 2, 9),
    ("session K\nnull enc ch @1 ~\nsession", 2, 4),
];

/// Lines behind 256 sessions, with the field of their fault.
const BEHIND_ALL: [(&str, u32); 7] = [
    ("session K", 1),
    ("session", 1),
    ("session K K", 1),
    ("session -", 1),
    ("cbc enc ch @256 ~", 4),
    ("cbc enc ch @0255 ~", 4),
    ("session\tK", 0),
];

/// The text with each short sign replaced by what it stands for.
fn long(alloc: Global, text: &str) -> Result<String, AllocError> {
    let mut long = String::from_str(alloc, text)?;
    for (sign, meaning) in &SHORT {
        long = long.replace(alloc, *sign, *meaning)?;
    }
    Ok(long)
}

/// The bytes in hexadecimal, or `-` for none.
fn hex_of(alloc: Global, bytes: &[u8]) -> Result<String, AllocError> {
    if bytes.is_empty() {
        return String::from_str(alloc, "-");
    }
    hex::encode(alloc, bytes)
}

/// The keys of sessions, and the key and the session of each job.
fn shown(alloc: Global, keys: &[Vec<u8>], jobs: &[Job]) -> Result<String, AllocError> {
    let mut text = String::new(alloc);
    for key in keys {
        let key = hex_of(alloc, key)?;
        write!(text, "{key} ")?;
    }
    text.push_str("|")?;
    for job in jobs {
        let key = hex_of(alloc, job.key.as_slice())?;
        match job.session {
            Some(session) => write!(text, " {key}@{session}")?,
            None => write!(text, " {key}")?,
        }
    }
    Ok(text)
}

/// What a file within the limit comes to, or its fault.
fn read(alloc: Global, file: &str) -> Result<Result<String, TextFault>, AllocError> {
    if file.len() > INPUT_LIMIT {
        return Ok(Err(TextFault::Memory));
    }
    match read_file(alloc, file.as_bytes()) {
        Ok((keys, jobs)) => Ok(Ok(shown(alloc, &keys, &jobs)?)),
        Err(fault) => Ok(Err(fault)),
    }
}

/// Whether the file of this text is read as the other says.
fn gives(alloc: Global, text: &str, wanted: &str) -> Result<bool, AllocError> {
    let file = long(alloc, text)?;
    let wanted = long(alloc, wanted)?;
    Ok(match read(alloc, file.as_str())? {
        Ok(shown) => shown.as_str() == wanted.as_str(),
        Err(_) => false,
    })
}

/// Whether the fault of the file of this text is at this line and field.
fn fails(alloc: Global, text: &str, place: (u32, u32)) -> Result<bool, AllocError> {
    let file = long(alloc, text)?;
    Ok(match read(alloc, file.as_str())? {
        Ok(_) => false,
        Err(fault) => place_of(fault) == place,
    })
}

#[test]
fn sessions_give_keys_to_jobs(rt: HostRuntime) -> Result<(), Fail> {
    for (text, wanted) in &GOOD {
        assert!(rt; gives(rt.alloc(), *text, *wanted)?, "{text:?}");
    }
    Ok(())
}

#[test]
fn the_first_fault_is_told(rt: HostRuntime) -> Result<(), Fail> {
    for (text, line, field) in &BAD {
        assert!(rt; fails(rt.alloc(), *text, (*line, *field))?, "{text:?}");
    }
    Ok(())
}

/// The keys and the jobs of a replay's file.
fn replay_gives(alloc: Global, text: &str, wanted: &str) -> Result<bool, Fail> {
    let file = long(alloc, text)?;
    if file.len() > INPUT_LIMIT {
        return Ok(false);
    }
    let (keys, jobs, commands) = read_replay(alloc, file.as_bytes(), 1, 1)?;
    let wanted = long(alloc, wanted)?;
    Ok(commands.len() == 1 && shown(alloc, &keys, &jobs)?.as_str() == wanted.as_str())
}

#[test]
fn a_replay_has_sessions(rt: HostRuntime) -> Result<(), Fail> {
    let file =
        "session K\nsession L\ncbc enc ch @1 ~\nctr enc ch @0 ~\nctr enc ch L ~\n%\npost 0\n";
    assert!(rt; replay_gives(rt.alloc(), file, "K L | L@1 K@0 L")?);
    Ok(())
}

/// As many session lines as a file may have.
fn all_sessions(alloc: Global) -> Result<String, AllocError> {
    "session K\n".repeat(alloc, MAX_SESSIONS)
}

/// Whether jobs name the first and the last of as many sessions as there may be.
fn names_all(alloc: Global) -> Result<bool, AllocError> {
    let keys = "K ".repeat(alloc, MAX_SESSIONS)?;
    let sessions = all_sessions(alloc)?;
    let jobs = "cbc enc ch @255 ~\ncbc enc ch @0 ~\n";
    let file = [sessions.as_str(), jobs].join(alloc, "")?;
    let wanted = [keys.as_str(), "| K@255 K@0"].join(alloc, "")?;
    gives(alloc, file.as_str(), wanted.as_str())
}

#[test]
fn a_file_may_have_256_sessions(rt: HostRuntime) -> Result<(), Fail> {
    assert!(rt; names_all(rt.alloc())?);
    Ok(())
}

/// As many session lines as a file may have, and this line behind them.
fn behind_all(alloc: Global, line: &str) -> Result<String, AllocError> {
    let sessions = all_sessions(alloc)?;
    let line = String::from_str(alloc, line)?;
    [sessions.as_str(), line.as_str()].join(alloc, "")
}

#[test]
fn there_is_no_session_behind_256(rt: HostRuntime) -> Result<(), Fail> {
    for (line, field) in &BEHIND_ALL {
        let file = behind_all(rt.alloc(), *line)?;
        assert!(rt; fails(rt.alloc(), file.as_str(), (257, *field))?, "{line}");
    }
    Ok(())
}

/// Lines behind 65,536 jobs, with the fault that they make.
const BEHIND_JOBS: [(&str, TextFault); 2] = [
    (
        "session K\nnull\nsession\n",
        TextFault::Limit { line: 65_538 },
    ),
    (
        "session\nnull\n",
        TextFault::Line {
            line: 65_537,
            field: 0,
        },
    ),
];

/// The fault of as many jobs as a file may have and of this text behind them.
fn fault_behind_jobs(alloc: Global, text: &str) -> Result<Option<TextFault>, AllocError> {
    let jobs = "null enc ch - - 0 0 null - - 0 0 0 -\n".repeat(alloc, JOB_LIMIT)?;
    let text = long(alloc, text)?;
    let file = [jobs.as_str(), text.as_str()].join(alloc, "")?;
    if file.len() > INPUT_LIMIT {
        return Ok(Some(TextFault::Memory));
    }
    Ok(read_file(alloc, file.as_bytes()).err())
}

#[test]
fn session_lines_count_in_no_limit_of_jobs(rt: HostRuntime) -> Result<(), Fail> {
    for (text, fault) in &BEHIND_JOBS {
        assert!(rt;
            fault_behind_jobs(rt.alloc(), *text)? == Some(*fault),
            "{text:?}"
        );
    }
    Ok(())
}
