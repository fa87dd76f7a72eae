//! AES (FIPS 197) on many blocks at once, and what the modes share over it: blocks that are chained, and the key stream of counters. Many
//! blocks under keys of their own go one in each lane (`wide`), and few of them, or the blocks of one text, whole in registers (`narrow`).
#![tactic(auto)]

mod advancing;
mod blocks;
mod blocks_cipher;
mod chained_entry;
mod few_keys;
mod gathering;
mod key_bytes;
mod lane_blocks;
mod narrow;
mod slot;
mod slot_keys;
mod slot_rounds;
mod slots;
mod wide;

pub use advancing::advance_all;
pub use chained_entry::ChainedEntry;
pub use key_bytes::{bytes_of_key, bytes_of_schedule, schedule_of_bytes};
pub use narrow::by_fours::BATCH_BLOCKS;
pub use narrow::counters::{xor_counters, xor_counters_after};
pub use narrow::directions::Direction;
pub use narrow::one_block::chained;
pub use narrow::same::{decrypt_same, encrypt_same};
pub use narrow::text_key::{DecryptionKey, LaidKey, TextKey};
pub use slots::{Chained, ChainedSlots};
pub use wide::all_lanes::{decrypt32, encrypt32};
pub use wide::lane_keys::LaneKeys;
pub use wide::lanes::{decrypt_lanes, encrypt_lanes};
