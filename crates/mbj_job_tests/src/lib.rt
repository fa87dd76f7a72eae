//! Tests of kernels, each against the vectors of its standard, and of jobs: their types, the argument table, courses through
//! stages, the ring, and the manager.
#![tactic(auto)]

#[cfg(test)]
mod aes;
#[cfg(test)]
mod aes_bytes;
#[cfg(test)]
mod aes_lanes;
#[cfg(test)]
mod args;
#[cfg(test)]
mod blocks;
#[cfg(test)]
mod bursts;
#[cfg(test)]
mod cbc;
#[cfg(test)]
mod ccm;
#[cfg(test)]
mod cells;
#[cfg(test)]
mod cmac;
#[cfg(test)]
mod compare;
#[cfg(test)]
mod ctr;
#[cfg(test)]
mod digests;
#[cfg(test)]
mod fill;
mod gathered;
#[cfg(test)]
mod gcm;
#[cfg(test)]
mod ghash;
#[cfg(test)]
mod gmac;
#[cfg(test)]
mod hmac;
#[cfg(test)]
mod lane;
#[cfg(test)]
mod lists;
#[cfg(test)]
mod manager;
#[cfg(test)]
mod memory;
#[cfg(test)]
mod message;
#[cfg(test)]
mod own_keys;
#[cfg(test)]
mod ring;
#[cfg(test)]
mod sessions;
#[cfg(test)]
mod sha1_lanes;
#[cfg(test)]
mod sha256_lanes;
#[cfg(test)]
mod sha512_lanes;
#[cfg(test)]
mod stage;
#[cfg(test)]
mod stored;
#[cfg(test)]
mod types;
