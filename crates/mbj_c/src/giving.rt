//! The calls that may give a result back.

ghost use Rattle.std.specs.Prelude.{◌≡◌, ◌++◌, ◌+◌, ◌≤◌, ◌&&◌, nat_le, drop, length};
ghost use Rattle.mbj_types.specs.declared.limits.TheConstants.{MAX_TAG_BYTES};
ghost use Rattle.mbj_stage.specs.CourseState.{owed};
ghost use Rattle.mbj_manager.specs.Cells.{IsFinished, course_in};
ghost use Rattle.mbj_c.specs.Giving.{IsWritten};
ghost use Rattle.mbj_c.specs.Codes.{reason_code, status_code};

use crate::range::CipherRange;
use mbj_manager::Cell;
use mbj_types::{Done, MAX_TAG_BYTES, Status, Tag};

/// Where a result goes.
#[repr(C)]
#[derive(Drop)]
pub struct RawDone<'a> {
    /// Room for the ciphered range. Its bytes behind the range stay as they are.
    pub dst: &'a mut [u8],
    /// Room for a tag, at least 64 bytes. Its bytes behind the tag stay as they are.
    pub tag: &'a mut [u8],
    /// How many bytes were ciphered: 0 if the job has no cipher or was refused.
    pub dst_len: usize,
    /// The length of the tag, in bytes: 0 if the job has no authentication or was refused.
    pub tag_len: u32,
    /// 0 if the job was done, 1 if it was refused.
    pub status: u32,
    /// 0 if the job was done, else the number of the reason for which it was refused.
    pub reason: u32,
}

/// A call that may give a result back.
#[derive(Clone, Copy, Debug, PartialEq, Eq)]
pub(crate) enum Call {
    Submit,
    Completed,
    Flush,
}

/// Writes bytes to the front of their room.
pub(crate) fn put_front(room: &mut [u8], bytes: &[u8])
    requires { length bytes.now ≤ length room.old }
    ensures { room.new ≡ bytes.now ++ drop (length bytes.now) room.old }
{
    if !bytes.is_empty() {
        room[..bytes.len()].copy_from_slice(bytes);
    }
}

fn status_of(status: Status) -> u32
    ensures { result ≡ status_code status }
{
    match status {
        Status::Ok => 0,
        Status::InvalidArgs(_) => 1,
    }
}

fn reason_of(status: Status) -> u32
    ensures { result ≡ reason_code status }
{
    match status {
        Status::Ok => 0,
        Status::InvalidArgs(reason) => reason.number() as u32,
    }
}

impl RawDone<'_> {
    /// Whether there is room for a range of this length, and any tag.
    pub(crate) fn has_room(&self, len: u32) -> bool
        ensures { result ≡ (nat_le len (length self.now.dst.now) && nat_le MAX_TAG_BYTES (length self.now.tag.now)) }
    {
        len as usize <= self.dst.len() && MAX_TAG_BYTES <= self.tag.len()
    }

    /// Writes the result of a job that is finished, with only this range of its packet.
    pub(crate) fn write(&mut self, given: &Cell, range: CipherRange)
        requires finished { IsFinished given.now }
        requires range { range.off + range.len ≤ length (owed (course_in given.now)).packet }
        requires dst { range.len ≤ length self.old.dst.now }
        requires tag { MAX_TAG_BYTES ≤ length self.old.tag.now }
        ensures { IsWritten (record { done = owed (course_in given.now); range = range }) self.old self.new }
    {
        self.write_parts(given.status(), given.packet(), given.tag(), range);
    }

    /// Writes a result, with only this range of its packet.
    pub(crate) fn write_done(&mut self, done: &Done, range: CipherRange)
        requires range { range.off + range.len ≤ length done.now.packet }
        requires dst { range.len ≤ length self.old.dst.now }
        requires tag { MAX_TAG_BYTES ≤ length self.old.tag.now }
        ensures { IsWritten (record { done = done.now; range = range }) self.old self.new }
    {
        self.write_parts(done.status, done.packet.as_slice(), &done.tag, range);
    }

    fn write_parts(&mut self, status: Status, packet: &[u8], tag: &Tag, range: CipherRange)
        requires range { range.off + range.len ≤ length packet.now }
        requires dst { range.len ≤ length self.old.dst.now }
        requires tag { MAX_TAG_BYTES ≤ length self.old.tag.now }
        ensures { IsWritten (record { done = record { status = status; packet = packet.now; tag = tag.now }; range = range }) self.old self.new }
    {
        let (start, len) = (range.off as usize, range.len as usize);
        let bytes = &packet[start..][..len];
        put_front(self.dst, bytes);
        self.dst_len = bytes.len();
        let tag = tag.bytes();
        put_front(self.tag, tag);
        self.tag_len = tag.len() as u32;
        self.status = status_of(status);
        self.reason = reason_of(status);
    }
}
