ghost use Rattle.std.specs.Prelude.{IsTrue};

/// A moment in the life of a job that several parties share.
#[derive(Clone, Copy, Debug, PartialEq, Eq)]
pub enum Moment {
    /// After a job was posted.
    Posted,
    /// After a job was claimed, and before it is submitted.
    Claimed,
    /// Before a result is handed back.
    Finishing,
    /// After a result was collected.
    Collected,
}

/// What the parties of a run pass at each moment. It may hold a party up, and it decides whether a submitter that waits
/// may work on its own jobs.
pub trait Gate {
    /// Called by a party at each of its moments.
    fn pass(&self, party: u32, moment: Moment);

    /// Whether a submitter that waits may help.
    fn may_help(&self, party: u32) -> bool;
}

/// The gate that never holds a party up and always lets submitters help.
#[derive(Clone, Copy, Debug, PartialEq, Eq)]
pub struct OpenGate;

impl Gate for OpenGate {
    fn pass(&self, _party: u32, _moment: Moment) {}

    fn may_help(&self, _party: u32) -> bool
        ensures { IsTrue result }
    {
        true
    }
}
