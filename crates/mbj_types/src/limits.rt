//! The limits of a job, and those of each algorithm in a module named for it.

ghost use Rattle.std.specs.Prelude.{◌≡◌};

use crate::class::SHA512_LENGTHS;
use ccm::MAX_CCM_AAD_BYTES;
use gcm::{MAX_AAD_BYTES, MAX_IV_BYTES};
use hmac::MAX_HMAC_KEY_BYTES;

pub mod cbc;
pub mod ccm;
pub mod cmac;
pub mod ctr;
pub mod gcm;
pub mod hmac;

/// The longest packet that a job may have, in bytes.
pub const MAX_PACKET_BYTES: usize = 65_535;

/// The longest tag, in bytes: the digest of SHA-512.
pub const MAX_TAG_BYTES: usize = SHA512_LENGTHS.digest as usize;

/// The most sessions of shared keys. They are numbered from 0.
pub const MAX_SESSIONS: usize = 256;

/// A law: the limits are these numbers, which the argument table and the readers of files take from the constants.
pub fn limits_are_these_numbers()
    ensures packet { MAX_PACKET_BYTES ≡ 65535 }
    ensures iv { MAX_IV_BYTES ≡ 65535 }
    ensures aad { MAX_AAD_BYTES ≡ 65535 }
    ensures ccm_aad { MAX_CCM_AAD_BYTES ≡ 65279 }
    ensures hmac_key { MAX_HMAC_KEY_BYTES ≡ 1024 }
    ensures tag { MAX_TAG_BYTES ≡ 64 }
    ensures sessions { MAX_SESSIONS ≡ 256 }
{}
