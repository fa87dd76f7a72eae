//! GMAC by a vector of NIST, over a part of it, and under IVs of many lengths.
use crate::fill::put_block;
use crate::stage::check_job;
use mbj_types::{Auth, Bytes, Job};
use std::alloc::{AllocError, Global};
use std::process::Abort;
use std::test::Fail;

/// A vector without a text of NIST's validation program for GCM (gcmEncryptExtIV128): key, IV and additional data.
const KEY: u128 = 0x77be63708971c4e240d1cb79e8d77feb;

const IV: [u8; 12] = [
    0xe0, 0xe0, 0x0f, 0x19, 0xfe, 0xd7, 0xba, 0x01, 0x36, 0xa7, 0x97, 0xf3,
];

const DATA: u128 = 0x7a43ec1d9c0a5a78a0b16533a6213cab;

/// Makes a job one of GMAC over the data. The cipher's key has no part in it.
fn fill_gmac(alloc: Global, job: &mut Job, key: u128, iv: Bytes) -> Result<(), AllocError> {
    job.auth = Auth::Gmac;
    job.hash_len = 16;
    job.tag_len = 16;
    job.iv = iv;
    put_block(alloc, &mut job.key, DATA)?;
    put_block(alloc, &mut job.auth_key, key)?;
    put_block(alloc, &mut job.packet, DATA)
}

/// GMAC over `len` bytes of the vector's data from `off` on is this tag.
fn check_range(rt: &impl Abort, alloc: Global, off: u32, len: u32, tag: u128) -> Result<(), Fail> {
    let mut job = Job::blank(alloc);
    fill_gmac(alloc, &mut job, KEY, Bytes::from_slice(alloc, &IV)?)?;
    job.hash_off = off;
    job.hash_len = len;
    check_job(rt, job, DATA, &tag.to_be_bytes());
    Ok(())
}

// The first is the vector's tag; the second is OpenSSL's.
#[test]
fn gmac_is_over_the_hash_range(rt: HostRuntime) -> Result<(), Fail> {
    check_range(&rt, rt.alloc(), 0, 16, 0x209fcc8d3675ed938e9c7166709dd946)?;
    check_range(&rt, rt.alloc(), 3, 9, 0xa49f991d4f53f55d4d6997a360b0a167)
}

/// Lengths of IVs, and the tag of the data under an IV of this many letters `a` and the key of FIPS 197, C.1: by OpenSSL, and that of
/// 65,535 bytes by pycryptodome.
const TAGS: [(usize, u128); 4] = [
    (1, 0x2f1316698884cf3aa78d83270b83a54f),
    (12, 0x8eb33619f99b77228365f19fcc5de987),
    (16, 0x6f5691ebb05303ba8598d32927d7c344),
    (65_535, 0x1a560b858fbbff2f5e216480bd0c7765),
];

/// The job of a row.
fn job_of(alloc: Global, len: usize) -> Result<Job, AllocError> {
    let mut iv = Vec::new(alloc);
    iv.resize(len, b'a')?;
    let mut job = Job::blank(alloc);
    fill_gmac(
        alloc,
        &mut job,
        0x000102030405060708090a0b0c0d0e0f,
        Bytes::from_vec(iv),
    )?;
    Ok(job)
}

#[test]
fn gmac_takes_ivs_of_many_lengths(rt: HostRuntime) -> Result<(), Fail> {
    for (len, tag) in TAGS {
        check_job(&rt, job_of(rt.alloc(), len)?, DATA, &tag.to_be_bytes());
    }
    Ok(())
}
