//! The entries in which the stages of an accepted job are done in lanes, over the job's packet.

ghost use Rattle.std.specs.Prelude.{◌≡◌, ◌<◌, ◌≤◌, ◌⊎◌, Some, None, length, IsTrue};
ghost use Rattle.mbj_types.specs.Aes.{aes, round_count};
ghost use Rattle.mbj_types.specs.Auths.{class_of, IsCmac};
ghost use Rattle.mbj_types.specs.Ccm.{ccm_mac};
ghost use Rattle.mbj_types.specs.Rounds.{auth_rounds, cbc_rounds, ccm_rounds, cmac_rounds};
ghost use Rattle.mbj_types.specs.Result.{ciphered, cipher_range, mac_by};
ghost use Rattle.mbj_types.specs.Verdict.{verdict_at};
ghost use Rattle.mbj_types.specs.declared.job.Cipher.TheVariants as cipher;
ghost use Rattle.mbj_types.specs.declared.job.Dir.TheVariants as dir;
ghost use Rattle.mbj_lane.specs.Rounds.{end_of};
ghost use Rattle.mbj_lane.specs.Slots.{IsWritten};
ghost use Rattle.mbj_cbc.specs.Rounds.{round as cbc_round, rest_of as cbc_rest};
ghost use Rattle.mbj_cmac.specs.Rounds.{round as cmac_round, rest_of as cmac_rest};
ghost use Rattle.mbj_hmac.specs.Names.{serves_lanes};
ghost use Rattle.mbj_hmac.specs.Slots.{slot_in};
ghost use Rattle.mbj_hmac.specs.Rounds.{round as hmac_round, rest_of as hmac_rest};
ghost use Rattle.mbj_ccm.specs.Rounds.{round as ccm_round, rest_of as ccm_rest};
ghost use Rattle.mbj_keys.specs.Schedules.{IsScheduleOf};
ghost use Rattle.mbj_stage.specs.Ends.{begun_over, ccm_end, cmac_end, hmac_end};

use crate::cipher::iv_block;
use mbj_aes::Schedule;
use mbj_cbc::CbcEntry;
use mbj_ccm::CcmEntry;
use mbj_cmac::CmacEntry;
use mbj_hmac::{HmacEntry, HmacSlots, LaneHash};
use mbj_types::{AuthClass, Job};

/// The CBC encryption of a job whose key has `N` rounds.
pub(crate) fn cbc_entry<const N: usize>(job: &Job, packet: Vec<u8>) -> CbcEntry<N>
    requires cbc { job.now.cipher ≡ cipher.Cbc }
    requires enc { job.now.dir ≡ dir.Enc }
    requires rounds { round_count job.now.key ≡ N }
    requires accepted { verdict_at job.now (length packet.items) ≡ None }
    ensures rest { result.rest ≡ cbc_rounds job.now.cipher_len }
    ensures some { 1 ≤ result.rest }
    ensures packet { (end_of cbc_round cbc_rest result).packet ≡ ciphered job.now packet.items }
{
    let key = job.key.as_slice();
    let iv = iv_block(job.iv.as_slice());
    CbcEntry::new_by_key(key, iv, packet, job.cipher_off, job.cipher_len)
}

/// The CMAC of a job whose key has `N` rounds.
pub(crate) fn cmac_entry<const N: usize>(job: &Job, packet: Vec<u8>) -> CmacEntry<N>
    requires cmac { IsCmac (class_of job.now.auth) }
    requires rounds { round_count job.now.auth_key ≡ N }
    requires accepted { verdict_at job.now (length packet.items) ≡ None }
    ensures rest { result.rest ≡ cmac_rounds job.now.hash_len }
    ensures packet { (cmac_end (end_of cmac_round cmac_rest result)).packet ≡ packet.items }
    ensures mac { (cmac_end (end_of cmac_round cmac_rest result)).mac ≡ mac_by (class_of job.now.auth) job.now packet.items }
{
    let key = job.auth_key.as_slice();
    CmacEntry::new_by_key(key, packet, job.hash_off, job.hash_len)
}

/// The HMAC of a job whose hash is one of `H`, under its key or from its states, or the digest. An HMAC's key that is longer than a
/// block is hashed as the entry is made.
pub(crate) fn hmac_entry<H: LaneHash>(job: &Job, packet: Vec<u8>) -> HmacEntry<H>
    requires serves { IsTrue (serves_lanes H.hashing job.now.auth) }
    requires accepted { verdict_at job.now (length packet.items) ≡ None }
    ensures rest { result.rest ≡ auth_rounds (class_of job.now.auth) H.hashing.block_bytes job.now.hash_len }
    ensures packet { (hmac_end H.hashing (end_of (hmac_round H.hashing) hmac_rest result)).packet ≡ packet.items }
    ensures mac { (hmac_end H.hashing (end_of (hmac_round H.hashing) hmac_rest result)).mac
        ≡ mac_by (class_of job.now.auth) job.now packet.items }
{
    let (auth, off, len) = (job.auth, job.hash_off, job.hash_len);
    match auth.class() {
        AuthClass::Hmac(_) => HmacEntry::new(auth, job.auth_key.as_slice(), packet, off, len),
        AuthClass::Plain(_) => HmacEntry::new_plain(auth, packet, off, len),
        AuthClass::States(_) => {
            HmacEntry::new_from_states(auth, job.auth_key.as_slice(), packet, off, len)
        }
        AuthClass::Null | AuthClass::Cmac(_) | AuthClass::Gcm | AuthClass::Ccm | AuthClass::Gmac =>
            unreachable!(),
    }
}

/// The same entry, right in an idle slot.
pub(crate) fn put_hmac<H: LaneHash>(job: &Job, packet: Vec<u8>, slots: &mut HmacSlots<H>, i: usize)
    requires lane { i < H.LANES }
    requires serves { IsTrue (serves_lanes H.hashing job.now.auth) }
    requires accepted { verdict_at job.now (length packet.items) ≡ None }
    ensures put { IsWritten H.LANES i (Some (begun_over H.hashing job.now packet.items)) (slot_in slots.old) (slot_in slots.new) }
    ensures rest { (begun_over H.hashing job.now packet.items).rest ≡ auth_rounds (class_of job.now.auth) H.hashing.block_bytes job.now.hash_len }
    ensures packet { (hmac_end H.hashing (end_of (hmac_round H.hashing) hmac_rest (begun_over H.hashing job.now packet.items))).packet
        ≡ packet.items }
    ensures mac { (hmac_end H.hashing (end_of (hmac_round H.hashing) hmac_rest (begun_over H.hashing job.now packet.items))).mac
        ≡ mac_by (class_of job.now.auth) job.now packet.items }
{
    let secret = job.auth_key.as_slice();
    slots.put_job(i, job.auth, secret, packet, job.hash_off, job.hash_len);
}

/// The MAC of a CCM job whose key has `N` rounds, by the key's schedule, over the cipher range, which is plaintext. IV and additional data are the job's, and go into the entry too.
pub(crate) fn ccm_entry<const N: usize>(
    job: &Job,
    key: Schedule,
    iv: Vec<u8>,
    aad: Vec<u8>,
    packet: Vec<u8>,
) -> CcmEntry<N>
    requires key { IsScheduleOf job.now.key key }
    requires ccm { job.now.cipher ≡ cipher.Ccm }
    requires rounds { round_count job.now.key ≡ N }
    requires accepted { verdict_at (record job.now { iv = iv.items; aad = aad.items }) (length packet.items) ≡ None }
    ensures rest { result.rest ≡ ccm_rounds (length aad.items) job.now.cipher_len }
    ensures some { 1 ≤ result.rest }
    ensures packet { (ccm_end (end_of ccm_round ccm_rest result)).packet ≡ packet.items }
    ensures iv { (ccm_end (end_of ccm_round ccm_rest result)).iv ≡ iv.items }
    ensures aad { (ccm_end (end_of ccm_round ccm_rest result)).aad ≡ aad.items }
    ensures mac { (ccm_end (end_of ccm_round ccm_rest result)).mac
        ≡ ccm_mac (aes job.now.key) iv.items aad.items (cipher_range job.now packet.items) job.now.tag_len }
{
    let (off, len) = (job.cipher_off, job.cipher_len);
    CcmEntry::new(key, iv, aad, packet, off, len, job.tag_len)
}
