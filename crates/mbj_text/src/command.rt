/// A command of a replay. Submitters and workers are numbered from 0.
#[derive(Clone, Copy, Debug, PartialEq, Eq)]
pub enum Cmd {
    /// This submitter posts its next job.
    Post(u32),
    /// The worker, which is the first number, claims a job of the submitter, which is the second.
    Claim(u32, u32),
    /// This worker flushes.
    Flush(u32),
    /// This submitter collects.
    Collect(u32),
}

/// The word that a script line begins with.
#[derive(Clone, Copy)]
pub(crate) enum Verb {
    Post,
    Claim,
    Flush,
    Collect,
}
