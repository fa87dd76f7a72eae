//! Filling a job's parts in their place, so that no caller has bytes of its own.

use mbj_types::Bytes;
use std::alloc::{AllocError, Global};

/// Puts a copy of the bytes into a part of a job.
pub(crate) fn put(alloc: Global, part: &mut Bytes, bytes: &[u8]) -> Result<(), AllocError> {
    *part = Bytes::from_slice(alloc, bytes)?;
    Ok(())
}

/// Puts the 16 bytes of a block into a part of a job.
pub(crate) fn put_block(alloc: Global, part: &mut Bytes, block: u128) -> Result<(), AllocError> {
    put(alloc, part, &block.to_be_bytes())
}
