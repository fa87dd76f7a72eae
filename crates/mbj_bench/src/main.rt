//! Prints digests that the lane kernels compute, as the standards' examples give them, and those of GHASH and of
//! AES, as another program gives them. With the argument `--time` it also prints how fast each kernel, GHASH, GCM and AES are,
//! in MB/s and beside the plain crate on as many bytes in the same run. Other arguments are ignored.
#![tactic(auto)]

mod aes;
mod clock;
mod front;
mod ghash;
mod hash;
mod hashes;
mod idle;
mod jobs;
mod kinds;
mod line;
mod lists;
mod making;
mod sessions;
mod states;
mod vector;

use std::alloc::Global;
use std::io::Print;
use std::sync::Wait;
use std::thread::Threads;
use std::time::Clock;
use std::{env, io};

fn print_digests(rt: &impl Print) -> io::Result<()> {
    hashes::print_all_digests(rt)?;
    ghash::print_digest(rt)?;
    aes::print_digests(rt)
}

fn print_times<R: Threads + Wait + Sync + Clock + Print>(rt: &R, alloc: Global) -> io::Result<()> {
    hashes::print_all_times(rt)?;
    ghash::print_times(rt)?;
    aes::print_times(rt)?;
    lists::print_times(rt, alloc)?;
    states::print_times(rt, alloc)?;
    jobs::print_times(rt, alloc)?;
    sessions::print_times(rt, alloc)?;
    front::print_times(rt, alloc)?;
    idle::print_times(rt, alloc)
}

fn main(rt: HostRuntime) -> io::Result<()> {
    print_digests(&rt)?;
    if env::args(&rt)?.any(|word| word.as_str() == "--time") {
        print_times(&rt, rt.alloc())?;
    }
    Ok(())
}
