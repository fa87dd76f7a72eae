//! AES (FIPS 197) on many blocks at once, a vector for each byte of the state: in each lane a block and a key of its own. The S-box goes by
//! lookups in registers, so no address and no branch depends on a key or a block.

pub mod all_lanes;
pub mod decryption;
pub mod expansion;
pub mod key_states;
pub mod lane_keys;
pub mod lane_schedules;
pub mod lanes;
pub mod rounds;
pub mod schedules;
pub mod state;
pub mod unmixing;
pub mod words;
