use crate::returned::Returned;

/// What stands beside the word of a cell.
#[derive(Drop)]
pub enum Slot<J, D> {
    /// Nothing.
    Blank,
    /// A job.
    Task(J),
    /// A result.
    Made(Returned<J, D>),
}
