//! How much there may be of what isn't a part of one job.

use mbj_core::{MAX_SUBMITTERS, MAX_WORKERS, SUBMITTER_CELLS};
use mbj_ring::CELLS;
use mbj_text::{INPUT_LIMIT, JOB_LIMIT};
use mbj_types::{MAX_PACKET_BYTES, MAX_SESSIONS, MAX_TAG_BYTES};
use std::io::{self, Print};

pub(crate) fn print_all(rt: &impl Print) -> io::Result<()> {
    println!(rt; "packet: {MAX_PACKET_BYTES}")?;
    println!(rt; "tag: {MAX_TAG_BYTES}")?;
    println!(rt; "sessions: {MAX_SESSIONS}")?;
    println!(rt; "jobs of a manager: {CELLS}")?;
    println!(rt; "jobs of a submitter: {SUBMITTER_CELLS}")?;
    println!(rt; "submitters: {MAX_SUBMITTERS}")?;
    println!(rt; "workers: {MAX_WORKERS}")?;
    println!(rt; "bytes of a file: {INPUT_LIMIT}")?;
    println!(rt; "jobs of a file: {JOB_LIMIT}")
}
