//! Calls without a manager, for a program that needs one result at a time: a key's schedules, the subkeys of CMAC, a digest, a text
//! by CCM, and a text by GCM and data's GMAC in parts. A whole text by GCM is `seal` and `unseal` of `mbj_gcm`. Only the calls on CCM take
//! memory.
#![tactic(auto)]

mod ccm;
mod columns;
mod counter;
mod digest;
mod gmac;
mod hash;
mod keys;
mod laws;
mod parts;
mod subkeys;
#[cfg(test)]
mod tests;

pub use ccm::{ccm_open, ccm_seal};
pub use digest::digest_of;
pub use gmac::GmacState;
pub use keys::{encryption_schedule, inverse_schedule};
pub use laws::{
    any_cutting_gives_one_tag, any_cutting_gives_one_text, equivalent_cipher_deciphers,
};
pub use parts::GcmState;
pub use subkeys::{Subkeys, cmac_subkeys};
