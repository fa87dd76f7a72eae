use crate::bytes::Bytes;
use crate::reason::Reason;
use crate::tag::Tag;
use std::fmt;

/// How a job ended.
#[derive(Clone, Copy, Debug, PartialEq, Eq)]
pub enum Status {
    /// The packet is ciphered and the tag is made.
    Ok,
    /// The job's arguments are refused: the packet is as it came, and there is no tag.
    InvalidArgs(Reason),
}

impl fmt::Display for Status {
    fn fmt<W: fmt::Write>(&self, f: &mut fmt::Formatter<W>) -> fmt::Result {
        match self {
            Status::Ok => f.write_str("done"),
            Status::InvalidArgs(reason) => write!(f, "refused: {reason}"),
        }
    }
}

/// The result of a job.
#[derive(Debug, Drop)]
pub struct Done {
    /// Whether the job is done, or why it is refused.
    pub status: Status,
    /// The packet, with its cipher range ciphered; that of a refused job is as it came.
    pub packet: Bytes,
    /// The tag, as long as the job asked for; that of a refused job has no bytes.
    pub tag: Tag,
}
