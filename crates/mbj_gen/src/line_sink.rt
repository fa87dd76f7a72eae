//! A sink for the line of one result.
ghost use Rattle.std.specs.Prelude.{◌≡◌, ℕ, ◌<◌, ◌≤◌, OnErr, OnOk, IfOk, Some, length, take};
ghost use Rattle.std.specs.Io.{WritesAtMost};
ghost use Rattle.std.specs.Io.KnownBytes.{WriteAppends};
ghost use Rattle.mbj_io.specs.Faults.{Rose};
ghost use Rattle.mbj_text.specs.Line.{done_line};
ghost use Rattle.mbj_gen.specs.declared.line_sink.TheConstants.{LINE_ROOM};

use mbj_io::{Failed, Sink};
use mbj_text::write_done;
use mbj_types::{Done, MAX_TAG_BYTES};

/// The longest packet of a job that is made from a seed, in bytes.
const MOST_PACKET_BYTES: usize = 512;

/// More bytes than a line has beside the digits of packet and tag.
const MOST_OTHER_BYTES: usize = 32;

/// The room of a [`LineSink`], in bytes: more than any line has whose packet has at most `MOST_PACKET_BYTES` bytes.
pub const LINE_ROOM: usize = 2 * (MOST_PACKET_BYTES + MAX_TAG_BYTES) + MOST_OTHER_BYTES;

/// A sink in memory with room for [`LINE_ROOM`] bytes. A write that finds no room left is a fault.
#[derive(Drop)]
pub(crate) struct LineSink {
    bytes: [u8; LINE_ROOM],
    len: usize,
    faults: u64,
    ghost within: { len ≤ LINE_ROOM },
    ghost fails_when_full: { length (take len bytes) < LINE_ROOM → faults ≡ 0 },
}

impl Sink for LineSink {
    ghost held = { λ s. Some (take s.len s.bytes) };

    ghost faults = { λ s. s.faults };

    fn write(&mut self, buf: &[u8]) -> Result<usize, Failed> {
        let left = LINE_ROOM - self.len;
        if left == 0 {
            self.faults = self.faults.saturating_add(1);
            return Err(Failed);
        }
        let taken = buf.len().min(left);
        let end = self.len + taken;
        self.bytes[self.len..end].copy_from_slice(&buf[..taken]);
        self.len = end;
        Ok(taken)
    }
}

impl LineSink {
    /// The line of result `number`.
    pub(crate) fn of(number: u32, done: &Done) -> LineSink
        requires { length (done_line number done.now) < LINE_ROOM }
        ensures { take result.len result.bytes ≡ done_line number done.now }
    {
        let mut line = LineSink {
            bytes: [0; LINE_ROOM],
            len: 0,
            faults: 0,
        };
        match write_done(&mut line, number, done) {
            Ok(()) => line,
            Err(Failed) => unreachable!(),
        }
    }

    /// The bytes that it has taken.
    pub(crate) fn as_bytes(&self) -> &[u8]
        ensures value { result.now ≡ take self.now.len self.now.bytes }
        ensures within { length result.now ≤ LINE_ROOM }
    {
        &self.bytes[..self.len]
    }
}
