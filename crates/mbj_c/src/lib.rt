//! The manager for C programs, as a static library.
//!
//! A handle holds a manager, or none: C keeps it as one pointer, which is null at first. `mbj_c_new` makes a manager,
//! `mbj_c_free` frees it. `mbj_c_fill` copies a job of C's into the next cell, and `mbj_c_submit` submits it;
//! `mbj_c_submit_job` does both. `mbj_c_submit`, `mbj_c_submit_job`, `mbj_c_get_completed` and `mbj_c_flush` give results back
//! in the order of submission: of a packet only the ciphered range. Other calls need no manager. Only making a manager, filling
//! a job, making, sharing and using key sessions, and a text by CCM take memory.
//!
//! A call that is refused says so and changes nothing, but for a text whose tag is wrong, which is cleared, and for a job that
//! `mbj_c_submit_job` filled if it lacks room, which stays filled. What a call can't look at is promised by C: that pointers
//! point to what their types say, that no two of the things that are written overlap each other or anything that is read, and
//! that the word in a handle is null or was written by these calls.
#![tactic(auto)]

mod bursts;
mod calls;
mod counts;
mod direct;
mod exports;
mod fronts;
mod giving;
mod gmac_parts;
mod handle;
mod job;
mod key_calls;
mod key_handle;
mod key_set;
mod laws;
mod opening;
mod range;
mod ranged;
mod raw_box;
mod refusal;
mod seat_bursts;
mod seat_calls;
mod seat_handle;
mod seated;
mod sessions;
mod stored;
#[cfg(test)]
mod tests;
mod version;
mod words;

pub use bursts::RawBurst;
pub use counts::Counts;
pub use exports::bytes::{mbj_c_is_same_tag, mbj_c_wipe};
pub use exports::gmac::{mbj_gmac_finish, mbj_gmac_init, mbj_gmac_update};
pub use exports::jobs::{
    mbj_c_fill, mbj_c_fill_burst, mbj_c_flush, mbj_c_flush_burst, mbj_c_get_completed,
    mbj_c_get_completed_burst, mbj_c_submit, mbj_c_submit_burst, mbj_c_submit_job,
};
pub use exports::keys::{mbj_c_use_keys, mbj_keys_free, mbj_keys_new, mbj_keys_share};
pub use exports::managers::{
    mbj_c_count, mbj_c_free, mbj_c_held_bytes, mbj_c_new, mbj_c_new_keeping,
    mbj_c_new_keeping_none, mbj_c_queue_size, mbj_c_trim, mbj_c_version,
};
pub use exports::seats::{
    mbj_c_collect, mbj_c_collect_burst, mbj_c_front_new, mbj_c_hand, mbj_c_out, mbj_c_post,
    mbj_c_post_burst, mbj_c_seat_free, mbj_c_settle, mbj_c_turn,
};
pub use exports::tables::{
    mbj_aes_keys, mbj_cmac_subkeys, mbj_digest, mbj_hmac_states, mbj_one_block,
};
pub use exports::texts::{
    mbj_ccm_decrypt_unverified, mbj_ccm_open, mbj_ccm_seal, mbj_gcm_decrypt_unverified,
    mbj_gcm_finish, mbj_gcm_init, mbj_gcm_open, mbj_gcm_seal, mbj_gcm_update,
};
pub use giving::RawDone;
pub use handle::Handle;
pub use job::RawJob;
pub use key_handle::KeysHandle;
pub use key_set::RawBytes;
pub use laws::{
    accepted_ranges_are_within_their_packets, packets_change_in_their_range_alone,
    results_come_back_with_their_ranges, seats_collect_their_own_results_in_order,
    texts_are_opened_by_their_tags,
};
pub use range::CipherRange;
pub use seat_handle::SeatHandle;
// C holds a handle to it; an exported type names it in its contract.
#[doc(hidden)]
pub use key_set::KeySet;
#[doc(hidden)]
pub use ranged::RangedManager;
#[doc(hidden)]
pub use seated::Seated;
#[doc(hidden)]
pub use sessions::Sessions;
pub use version::VERSION;
