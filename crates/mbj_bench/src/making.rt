//! Jobs over whole packets.
use crate::ghash::fill;
use crate::kinds::{MOST_BYTES, whole};
use mbj_types::{Auth, Bytes, Cipher, Job};
use std::alloc::{AllocError, Global};

/// A packet of `len` bytes.
fn packet(alloc: Global, len: usize) -> Result<Vec<u8>, AllocError> {
    let mut packet = Vec::new(alloc);
    packet.resize(len, 0)?;
    fill(&mut packet);
    Ok(packet)
}

/// `count` packets of `len` bytes.
pub fn packets(alloc: Global, count: u32, len: usize) -> Result<Vec<Vec<u8>>, AllocError> {
    let mut packets = Vec::new(alloc);
    for _ in 0..count {
        packets.push(packet(alloc, len)?)?;
    }
    Ok(packets)
}

/// A job that does nothing with a packet of `len` bytes.
pub fn null_job(alloc: Global, len: usize) -> Result<Job, AllocError> {
    let mut job = Job::blank(alloc);
    job.packet = Bytes::from_vec(packet(alloc, len)?);
    Ok(job)
}

/// Gives a job a tag of `tag_len` bytes over its packet.
pub fn put_auth(
    alloc: Global,
    job: &mut Job,
    auth: Auth,
    key: &[u8],
    tag_len: u8,
) -> Result<(), AllocError> {
    job.auth = auth;
    job.auth_key = Bytes::from_slice(alloc, key)?;
    job.hash_len = job.packet.as_slice().len().min(MOST_BYTES) as u32;
    job.tag_len = tag_len;
    Ok(())
}

/// Gives a job a cipher over the whole blocks of its packet.
pub fn put_cipher(
    alloc: Global,
    job: &mut Job,
    cipher: Cipher,
    key: &[u8],
    iv: &[u8],
) -> Result<(), AllocError> {
    job.cipher = cipher;
    job.key = Bytes::from_slice(alloc, key)?;
    job.iv = Bytes::from_slice(alloc, iv)?;
    job.cipher_len = whole(job.packet.as_slice()) as u32;
    Ok(())
}
