//! CBC with AES (SP 800-38A, 6.2): on a text in place, and encryption of ranges of many packets side by side in lanes; and the law that
//! decryption undoes encryption. Only `new_slots` takes memory.
#![tactic(auto)]

mod entry;
mod in_place;
mod laws;
mod plain;

pub use entry::{CbcEntry, CbcKernel};
pub use in_place::decrypt_in_place;
pub use laws::decryption_undoes_encryption;
pub use plain::encrypt_in_place;
