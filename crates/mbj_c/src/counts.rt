/// What is counted of the lanes of a kind.
#[repr(C)]
#[derive(Clone, Copy, Debug, PartialEq, Eq)]
pub struct Counts {
    /// How many rounds the full runs of the kind took, modulo 2^64.
    pub rounds: u64,
    /// How many blocks went through the full runs of the kind, modulo 2^64.
    pub blocks: u64,
    /// How many runs there were within flushes, of all kinds, modulo 2^64.
    pub flush_runs: u64,
    /// How many jobs of the kind wait for lanes.
    pub waiting: u32,
}
