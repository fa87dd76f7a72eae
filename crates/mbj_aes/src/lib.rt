//! What AES (FIPS 197) on many blocks stands on: the schedule of a key, SBOX and its inverse by lookups in registers, registers of whole
//! blocks, and the laws that encryption and decryption undo each other. No call takes memory.
#![tactic(auto)]

mod compare;
mod expansion;
pub mod inverse_substitution;
mod laws;
pub mod lookups;
pub mod moves;
mod register;
mod schedule;
mod sizes;
pub mod substitution;
pub mod tables;

pub use compare::are_equal;
pub use expansion::round_constant;
pub use laws::{
    blocks_stay_blocks, each_undoes_the_other, examples_of_the_standard, tables_are_of_the_field,
};
pub use register::BlockWord;
pub use schedule::Schedule;
pub use sizes::{
    EXTRA_KEYS, MAX_KEY_BYTES, MAX_KEY_WORDS, MAX_ROUND_KEYS, MAX_SCHEDULE_BYTES, ROUND_WORDS,
    WORD_BYTES, key_size,
};
pub use tables::SBOX_CONSTANT;
