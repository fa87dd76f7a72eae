use std::collections::LinkedList;

/// What a submitter is doing. A worker is always at rest.
pub enum Phase {
    /// Nothing.
    Rest,
    /// It fills the cell of its next job.
    Opening,
    /// It empties the cell of the result that it has just been handed.
    Emptying,
}

/// One party's part of the front, as contracts name it. No value of it is made when the program runs.
pub struct View<D> {
    /// The party's number.
    pub number: u64,
    /// What it is doing.
    pub phase: Phase,
    /// The results of the jobs that it has posted, from the first one on, in the order of its posts.
    pub due: LinkedList<D>,
    /// How many of them it has been handed.
    pub handed: u64,
    /// The cells whose jobs it has claimed and not finished, each with its job's result, the earliest claim first.
    pub hand: LinkedList<(u64, D)>,
    /// The cells that it has looked at, each with the word that it found there. The core makes no looks.
    pub looks: LinkedList<(u64, u64)>,
}
