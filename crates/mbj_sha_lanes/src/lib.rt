//! What the lane forms of the three SHA compressions share: the functions on words of FIPS 180-4
//! over lane words, the vectors that blocks and hash values are loaded into, and the compressions of SHA-2.
//!
//! The words of eight blocks, of which one is the padded message "abc":
//!
//! ```
//! let words = u32x8::block_words(&blocks);
//! expect_word(rt, words[0].word(lane) as u64, 0x61626380);
//! expect_word(rt, words[15].word(lane) as u64, 24);
//! ```
#![tactic(auto)]

mod blocks;
mod halves;
pub mod load32;
pub mod load64;
mod scheduled;
mod standard;
#[cfg(test)]
mod tests;
mod windowed;
pub mod words;
mod working;

pub use blocks::Blocks;
pub use halves::{Half, half_words, part_of, put_half, take_half};
pub use load32::Load32;
pub use load64::Load64;
pub use scheduled::compress_scheduled;
pub use standard::Sha2;
pub use windowed::compress_windowed;
pub use working::Working;
