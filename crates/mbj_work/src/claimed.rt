/// What a party returns that tried to claim a cell.
#[derive(Clone, Copy, Debug, PartialEq, Eq)]
pub enum Claimed {
    /// The cell's job is in the hand.
    Yes,
    /// The cell had this word, which isn't that of a job to be claimed.
    Not(u64),
}
