//! Sequences of calls of a manager that are drawn: jobs of every kind with packets of 0 to 2,000 bytes, submitted one by one and by
//! bursts, with looks at what is finished and flushes between. tests/c/sequences.c draws the same ones for the C library.
#![tactic(auto)]

#[cfg(test)]
mod draws;
#[cfg(test)]
mod jobs;
#[cfg(test)]
mod kinds;
#[cfg(test)]
mod sequences;
