ghost use Rattle.std.specs.Prelude.{◌≡◌, [], OnOk, length, map, true, false};
ghost use Rattle.mbj_text.specs.File.{ReadsLines, BadLines, OverLines};
ghost use Rattle.mbj_text.specs.Spelling.{fields_of};
ghost use Rattle.mbj_text.specs.Inside.Reading.{Adds, Answers, begins_session, entry_of, part_before, part_behind};

use crate::fault::{LineFault, TextFault};
use crate::job::read_job;
use crate::kept_lines::{EntriesEnd, KeptLines};
use crate::limits::JOB_LIMIT;
use crate::session::read_session;
use crate::split::Split;
use mbj_types::{Job, MAX_SESSIONS};
use std::alloc::Global;
use std::marker::Model;

/// What the session lines and the job lines of a file spell, each kind in its order.
#[derive(Drop)]
pub(crate) struct Entries {
    keys: Vec<Vec<u8>>,
    jobs: Vec<Job>,
}

impl Model for Entries {
    ghost use Rattle.std.specs.Prelude.{map};
    ghost use Rattle.mbj_text.specs.Inside.Reading.{KeysAndJobs};

    ghost Value = { KeysAndJobs };

    ghost view = { λ e. (map (λ k. k.items) e.keys.items, e.jobs.items) };
}

impl Entries {
    fn new(alloc: Global) -> Entries
        ensures { result ≡ ([], []) }
    {
        Entries {
            keys: Vec::new(alloc),
            jobs: Vec::new(alloc),
        }
    }

    /// The keys and the jobs.
    pub(crate) fn into_parts(self) -> (Vec<Vec<u8>>, Vec<Job>)
        ensures { (map (λ k. k.items) result.0.items, result.1.items) ≡ self }
    {
        (self.keys, self.jobs)
    }

    /// Adds what the line spells.
    fn add(&mut self, alloc: Global, line: &[u8]) -> Result<(), LineFault>
        ensures { Adds self.old result self.new (entry_of self.old.0 (length self.old.1) line.now) }
    {
        if is_session_line(line) {
            self.add_session(alloc, line)
        } else {
            self.add_job(alloc, line)
        }
    }

    /// Adds the key of a session line.
    fn add_session(&mut self, alloc: Global, line: &[u8]) -> Result<(), LineFault>
        requires { begins_session (fields_of line.now) ≡ true }
        ensures { Adds self.old result self.new (entry_of self.old.0 (length self.old.1) line.now) }
    {
        if self.keys.len() == MAX_SESSIONS {
            return Err(LineFault::Field(1));
        }
        let key = read_session(alloc, line)?;
        self.keys.push(key.into_vec())?;
        Ok(())
    }

    /// Adds the job of a job line.
    fn add_job(&mut self, alloc: Global, line: &[u8]) -> Result<(), LineFault>
        requires { begins_session (fields_of line.now) ≡ false }
        ensures { Adds self.old result self.new (entry_of self.old.0 (length self.old.1) line.now) }
    {
        if self.jobs.len() == JOB_LIMIT {
            return Err(LineFault::Limit);
        }
        let job = read_job(alloc, line, &self.keys)?;
        self.jobs.push(job)?;
        Ok(())
    }
}

/// Whether the line is a session line: its first field is `session`.
fn is_session_line(line: &[u8]) -> bool
    ensures { result ≡ begins_session (fields_of line.now) }
{
    match Split::new(line, b' ').next() {
        Some(first) => first == b"session".as_slice(),
        None => false,
    }
}

/// What the session lines and job lines spell, line after line. The lines behind them are left.
pub(crate) fn read_entries(
    alloc: Global,
    lines: &mut KeptLines,
    end: EntriesEnd,
) -> Result<Entries, TextFault>
    ensures entries { Answers (λ e. ReadsLines (part_before end lines.old) e.0 e.1)
        (BadLines (part_before end lines.old)) (OverLines (part_before end lines.old)) result }
    ensures behind { OnOk result (lines.new ≡ part_behind end lines.old) }
{
    let mut entries = Entries::new(alloc);
    while let Some((number, line)) = lines.next_entry_line(end) {
        match entries.add(alloc, line) {
            Ok(()) => {}
            Err(fault) => return Err(fault.at(number)),
        }
    }
    Ok(entries)
}
