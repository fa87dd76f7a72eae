//! Jobs, results and the tables that go with them, as plain values, and the definitions of the standards
//! (in `specs/`) that every contract of the library cites.
#![tactic(auto)]

mod block;
mod bytes;
mod class;
mod done;
mod job;
mod key_size;
mod kind;
mod lane32;
mod lane64;
mod lane8;
pub mod limits;
mod reason;
mod refusal;
mod tag;

pub use block::{BLOCK_BYTES, xor_in_place};
pub use bytes::Bytes;
pub use class::{
    AuthClass, CmacKey, HashLengths, HashName, SHA1_LENGTHS, SHA224_LENGTHS, SHA256_LENGTHS,
    SHA384_LENGTHS, SHA512_LENGTHS,
};
pub use done::{Done, Status};
pub use job::{Auth, Cipher, Dir, Job, Order};
pub use key_size::is_key_size;
pub use kind::{
    AES_LANES, AesWord, Kind, SHA1_LANES, SHA256_LANES, SHA512_LANES, Sha1Word, Sha256Word,
    Sha512Word, kinds_are_told_in_order, lane_words_have_these_lanes,
};
pub use lane8::Lane8;
pub use lane32::Lane32;
pub use lane64::Lane64;
pub use limits::ccm::MAX_CCM_AAD_BYTES;
pub use limits::gcm::{MAX_AAD_BYTES, MAX_IV_BYTES};
pub use limits::hmac::MAX_HMAC_KEY_BYTES;
pub use limits::{MAX_PACKET_BYTES, MAX_SESSIONS, MAX_TAG_BYTES, limits_are_these_numbers};
pub use reason::Reason;
pub use refusal::{PostFull, RingFull};
pub use tag::Tag;
