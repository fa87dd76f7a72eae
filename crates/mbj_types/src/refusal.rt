use crate::job::Job;
use std::error::Error;
use std::fmt;

/// A manager's ring is full: take a finished job, or flush, before the next one.
#[derive(Clone, Copy, Debug, PartialEq, Eq)]
pub struct RingFull;

impl fmt::Display for RingFull {
    fn fmt<W: fmt::Write>(&self, f: &mut fmt::Formatter<W>) -> fmt::Result {
        f.write_str("every cell of the manager's ring has a job that was not given back")
    }
}

impl Error for RingFull {}

/// A submitter has as many jobs out as it has cells. It holds the job that was handed in.
#[derive(Debug, Drop)]
pub struct PostFull(pub Job);

impl fmt::Display for PostFull {
    fn fmt<W: fmt::Write>(&self, f: &mut fmt::Formatter<W>) -> fmt::Result {
        f.write_str("every cell of the submitter has a job that was not collected")
    }
}

impl Error for PostFull {}
