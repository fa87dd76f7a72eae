ghost use Rattle.std.specs.Prelude.{◌≡◌, ◌+◌, ◌<◌, List, Some, length, slice_get};
ghost use Rattle.mbj_types.specs.declared.done.Done.{Done};
ghost use Rattle.mbj_text.specs.Line.{done_line};
ghost use Rattle.mbj_text.specs.declared.limits.TheConstants.{JOB_LIMIT};
ghost use Rattle.mbj_gen.specs.Summary.{is_ok, summary_lines};
ghost use Rattle.mbj_gen.specs.Sums.{IsSumOf};
ghost use Rattle.mbj_gen.specs.declared.line_sink.TheConstants.{LINE_ROOM};

use crate::line::SummaryLine;
use crate::line_sink::LineSink;
use crate::summary::Summary;
use mbj_types::{Done, Status};
use sha2::{Digest, Sha256};

/// Whether the job was accepted.
fn is_ok(done: &Done) -> bool
    ensures { result ≡ is_ok done.now.status }
{
    done.status == Status::Ok
}

impl Summary {
    /// The summary of no result.
    pub fn new() -> Summary
        ensures sum { (results : List Done) → IsSumOf results result }
        ensures count { result.count ≡ 0 }
    {
        Summary {
            count: 0,
            accepted: 0,
            bytes: 0,
            hasher: Sha256::new(),
        }
    }

    /// Adds the next result.
    pub fn add(&mut self, done: &Done)
        requires limit { self.old.count < JOB_LIMIT }
        requires line { length (done_line self.old.count done.now) < LINE_ROOM }
        ensures sum { (results : List Done) → IsSumOf results self.old → slice_get results self.old.count ≡ Some done.now
            → IsSumOf results self.new }
        ensures count { self.new.count ≡ self.old.count + 1 }
    {
        let line = LineSink::of(self.count, done);
        let text = line.as_bytes();
        self.accepted += u32::from(is_ok(done));
        self.bytes += text.len() as u64;
        self.hasher.update(text);
        self.count += 1;
    }

    /// The lines of the summary, once all results are added.
    pub fn lines(self) -> [SummaryLine; 5]
        ensures { (results : List Done) → IsSumOf results self → self.count ≡ length results → result ≡ summary_lines results }
    {
        [
            SummaryLine::Jobs(self.count),
            SummaryLine::Accepted(self.accepted),
            SummaryLine::Invalid(self.count - self.accepted),
            SummaryLine::Bytes(self.bytes),
            SummaryLine::Sha256(self.hasher.finalize()),
        ]
    }
}
