//! How many bytes the parts of a job may have, for each algorithm, as the tests of the proved code say it.

use mbj_types::limits::{cbc, ccm, cmac, ctr, gcm, hmac};
use mbj_types::{HashName, is_key_size};
use std::io::{self, Print};

/// No part of a job may be as long as this.
const END: usize = 66_000;

/// The lengths from `first` to `last`, behind a comma if others stand before them.
fn print_run(rt: &impl Print, is_first: bool, first: usize, last: usize) -> io::Result<()> {
    if !is_first {
        print!(rt; ",")?;
    }
    print!(rt; " {first}")?;
    if first < last {
        print!(rt; " to {last}")?;
    }
    Ok(())
}

/// A line with the lengths that are taken: `4, 6, 8`, or `1 to 16` for all of them in a row.
fn print_taken<F: Fn(usize) -> bool>(rt: &impl Print, name: &str, takes: F) -> io::Result<()>
    requires { F.IsAlwaysCallable takes }
{
    print!(rt; "{name}:")?;
    let mut start = None;
    let mut is_first = true;
    for len in 0..END {
        if takes(len) {
            start = start.or(Some(len));
        } else if let Some(first) = start.take() {
            print_run(rt, is_first, first, len.saturating_sub(1))?;
            is_first = false;
        }
    }
    println!(rt)
}

/// The hashes by their names in FIPS 180-4.
const HASHES: [(&str, HashName); 5] = [
    ("SHA-1", HashName::Sha1),
    ("SHA-224", HashName::Sha224),
    ("SHA-256", HashName::Sha256),
    ("SHA-384", HashName::Sha384),
    ("SHA-512", HashName::Sha512),
];

fn print_hash(rt: &impl Print, name: &str, hash: HashName) -> io::Result<()> {
    println!(rt; "digest of {name}: {}", hash.digest_bytes())?;
    println!(rt; "block of {name}: {}", hash.block_bytes())?;
    print!(rt; "{name} ")?;
    print_taken(rt, "states", |len| hmac::takes_states(hash, len))?;
    print!(rt; "{name} ")?;
    print_taken(rt, "tag", |len| hmac::takes_tag(hash, len))
}

pub(crate) fn print_all(rt: &impl Print) -> io::Result<()> {
    print_taken(rt, "key of AES", |len| is_key_size(len))?;
    print_taken(rt, "IV of CBC", cbc::takes_iv)?;
    print_taken(rt, "IV of CTR", ctr::takes_iv)?;
    print_taken(rt, "IV of GCM", gcm::takes_iv)?;
    print_taken(rt, "data of GCM", gcm::takes_aad)?;
    print_taken(rt, "tag of GCM", gcm::takes_tag)?;
    print_taken(rt, "nonce of CCM", ccm::takes_nonce)?;
    print_taken(rt, "data of CCM", ccm::takes_aad)?;
    print_taken(rt, "tag of CCM", ccm::takes_tag)?;
    print_taken(rt, "key of CMAC", cmac::takes_key)?;
    print_taken(rt, "tag of CMAC", cmac::takes_tag)?;
    print_taken(rt, "key of HMAC", hmac::takes_key)?;
    for (name, hash) in HASHES {
        print_hash(rt, name, hash)?;
    }
    Ok(())
}
