//! The hashes of FIPS 180-4 and HMAC with them (RFC 2104): HMAC of one message, digests and HMACs of many messages side by side in
//! the lanes of a kernel, and the states of a key, from which HMACs go on.
#![tactic(auto)]

mod digests;
mod ends;
mod entry;
mod form;
mod kernel;
mod key;
mod lane_hash;
mod lane_word;
mod lanes;
mod loaded;
mod next_blocks;
mod places;
mod plain;
mod rests;
mod sha1_lanes;
mod sha256_lanes;
mod sha512_lanes;
mod slots;
mod stored;
mod view;
mod words;

pub use digests::digest_of;
pub use entry::HmacEntry;
pub use kernel::HmacKernel;
pub use key::{MAX_BLOCK_BYTES, pad_key};
pub use lane_hash::LaneHash;
pub use plain::hmac_plain;
pub use sha1_lanes::Sha1Lanes;
pub use sha256_lanes::Sha256Lanes;
pub use sha512_lanes::Sha512Lanes;
pub use slots::HmacSlots;
pub use stored::{MAX_STATE_BYTES, one_block, states};
pub use view::Chains;

/// An entry of a digest or an HMAC with SHA-1.
pub type Hmac1Entry = HmacEntry<Sha1Lanes>;

/// An entry of a digest or an HMAC with SHA-224 or SHA-256.
pub type Hmac256Entry = HmacEntry<Sha256Lanes>;

/// An entry of a digest or an HMAC with SHA-384 or SHA-512.
pub type Hmac512Entry = HmacEntry<Sha512Lanes>;

/// Digests and HMACs with SHA-1 in lanes.
pub type Hmac1Kernel = HmacKernel<Sha1Lanes>;

/// Digests and HMACs with SHA-224 and SHA-256 in lanes.
pub type Hmac256Kernel = HmacKernel<Sha256Lanes>;

/// Digests and HMACs with SHA-384 and SHA-512 in lanes.
pub type Hmac512Kernel = HmacKernel<Sha512Lanes>;
