//! AES (FIPS 197) on whole blocks in registers, two in each: texts under one key, and the few busy lanes of a run.
pub mod by_fours;
pub mod cipher;
pub mod counters;
pub mod directions;
pub mod laid_keys;
pub mod layouts;
pub mod mixing;
pub mod one_block;
pub mod same;
pub mod schedules;
pub mod text_key;
