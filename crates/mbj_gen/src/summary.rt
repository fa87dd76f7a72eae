ghost use Rattle.std.specs.Prelude.{◌*◌, ◌≤◌};
ghost use Rattle.mbj_text.specs.declared.limits.TheConstants.{JOB_LIMIT};
ghost use Rattle.mbj_gen.specs.declared.line_sink.TheConstants.{LINE_ROOM};

use sha2::Sha256;

/// A summary of results, which are added one by one. Their text is made line by line, and not kept: each line has less than
/// [`LINE_ROOM`] bytes.
///
/// [`LINE_ROOM`]: crate::line_sink::LINE_ROOM
#[derive(Drop)]
pub struct Summary {
    pub(crate) count: u32,
    pub(crate) accepted: u32,
    pub(crate) bytes: u64,
    pub(crate) hasher: Sha256,
    ghost within: { accepted ≤ count },
    ghost few: { count ≤ JOB_LIMIT },
    ghost room: { bytes ≤ LINE_ROOM * count },
}
