//! The calls without a manager: each looks at what C gives, and then does what the crates of the algorithms do.

ghost use Rattle.std.specs.Prelude.{◌≡◌, ◌≢◌, ℕ, ◌≤◌, Bool, true, false, List, [], ◌++◌, length, take, drop, IfOk, OnErr, OnOk, Ok, Err};
ghost use Rattle.mbj_types.specs.Aes.{aes};
ghost use Rattle.mbj_types.specs.Gcm.{gcm, gcm_text};
ghost use Rattle.mbj_types.specs.Result.{is_enc};
ghost use Rattle.mbj_direct.specs.Parts.{HasTaken, blank_state};
ghost use Rattle.mbj_c.specs.Codes.{code_of};
ghost use Rattle.mbj_c.specs.Direct.{begun_by_code, ccm_accepts, checked_ccm, changed, digest_by_code, ends, gcm_accepts, checked_gcm, goes_on, put_both, checked_schedules, checked_subkeys};
ghost use Rattle.mbj_c.specs.Stored.{put_in};
ghost use Rattle.mbj_c.specs.declared.refusal.Refusal.TheVariants.{Memory};

use crate::giving::put_front;
use crate::refusal::Refusal;
use crate::stored::put;
use crate::words::{dir_at, hash_at};
use mbj_aes::Schedule;
use mbj_direct::{
    GcmState, ccm_open, ccm_seal, cmac_subkeys, digest_of, encryption_schedule, inverse_schedule,
};
use mbj_gcm::{seal, unseal};
use mbj_types::limits::{ccm, cmac, gcm};
use mbj_types::{BLOCK_BYTES, Dir, MAX_PACKET_BYTES, is_key_size};
use std::alloc::Global;

/// Puts two lists of bytes at the fronts of their rooms. Returns `NoRoom` exactly where one is shorter; nothing is written then.
fn put_two(
    first: &[u8],
    second: &[u8],
    first_room: &mut [u8],
    second_room: &mut [u8],
) -> Result<(), Refusal>
    ensures answer { result ≡ (put_both (Ok (first.now, second.now)) (first_room.old, second_room.old)).0 }
    ensures written { (first_room.new, second_room.new) ≡ (put_both (Ok (first.now, second.now)) (first_room.old, second_room.old)).1 }
{
    if first.len() > first_room.len() || second.len() > second_room.len() {
        return Err(Refusal::NoRoom);
    }
    put_front(first_room, first);
    put_front(second_room, second);
    Ok(())
}

/// Puts the schedules of a key at the fronts of their rooms.
pub(crate) fn put_schedules(
    key: &[u8],
    encryption: &mut [u8],
    decryption: &mut [u8],
) -> Result<(), Refusal>
    ensures answer { result ≡ (put_both (checked_schedules key.now) (encryption.old, decryption.old)).0 }
    ensures written { (encryption.new, decryption.new) ≡ (put_both (checked_schedules key.now) (encryption.old, decryption.old)).1 }
{
    if !is_key_size(key.len()) {
        return Err(Refusal::KeyLength);
    }
    let schedule = Schedule::expand(key);
    let len = BLOCK_BYTES * (schedule.rounds() as usize + 1);
    let (forward, inverse) = (encryption_schedule(&schedule), inverse_schedule(&schedule));
    put_two(&forward[..len], &inverse[..len], encryption, decryption)
}

/// Puts the subkeys of a key of CMAC at the fronts of their rooms.
pub(crate) fn put_subkeys(key: &[u8], first: &mut [u8], second: &mut [u8]) -> Result<(), Refusal>
    ensures answer { result ≡ (put_both (checked_subkeys key.now) (first.old, second.old)).0 }
    ensures written { (first.new, second.new) ≡ (put_both (checked_subkeys key.now) (first.old, second.old)).1 }
{
    if !cmac::takes_key(key.len()) {
        return Err(Refusal::KeyLength);
    }
    let subkeys = cmac_subkeys(&Schedule::expand(key));
    put_two(&subkeys.first, &subkeys.second, first, second)
}

/// Puts the digest of a text at the front of its room.
pub(crate) fn put_digest(hash: u32, text: &[u8], room: &mut [u8]) -> Result<(), Refusal>
    ensures answer { result ≡ (put_in (digest_by_code hash text.now) room.old).0 }
    ensures written { room.new ≡ (put_in (digest_by_code hash text.now) room.old).1 }
{
    let Some(hash) = hash_at(hash) else {
        return Err(Refusal::Word);
    };
    put(digest_of(hash, text).bytes(), room)
}

/// Returns why GCM doesn't take a key or an IV, if it doesn't.
pub(crate) fn gcm_takes(key: &[u8], iv: &[u8]) -> Result<(), Refusal>
    ensures { result ≡ gcm_accepts key.now iv.now }
{
    if !is_key_size(key.len()) {
        return Err(Refusal::KeyLength);
    }
    if !gcm::takes_iv(iv.len()) {
        return Err(Refusal::IvLength);
    }
    Ok(())
}

/// Seals a text in place by GCM, and fills the room of its tag.
pub(crate) fn gcm_seal(
    key: &[u8],
    iv: &[u8],
    aad: &[u8],
    text: &mut [u8],
    tag: &mut [u8],
) -> Result<(), Refusal>
    ensures answer { result ≡ (changed (checked_gcm key.now iv.now aad.now true (text.old, tag.old)) (text.old, tag.old)).0 }
    ensures written { (text.new, tag.new) ≡ (changed (checked_gcm key.now iv.now aad.now true (text.old, tag.old)) (text.old, tag.old)).1 }
{
    gcm_takes(key, iv)?;
    if !gcm::takes_tag(tag.len()) {
        return Err(Refusal::TagLength);
    }
    let whole = seal(&Schedule::expand(key), iv, aad, text);
    tag.copy_from_slice(&whole[..tag.len()]);
    Ok(())
}

/// Decrypts a text in place by GCM, and fills the room of the tag that it should have come with.
pub(crate) fn gcm_decrypt_unverified(
    key: &[u8],
    iv: &[u8],
    aad: &[u8],
    text: &mut [u8],
    tag: &mut [u8],
) -> Result<(), Refusal>
    ensures answer { result ≡ (changed (checked_gcm key.now iv.now aad.now false (text.old, tag.old)) (text.old, tag.old)).0 }
    ensures written { (text.new, tag.new) ≡ (changed (checked_gcm key.now iv.now aad.now false (text.old, tag.old)) (text.old, tag.old)).1 }
{
    gcm_takes(key, iv)?;
    if !gcm::takes_tag(tag.len()) {
        return Err(Refusal::TagLength);
    }
    let whole = unseal(&Schedule::expand(key), iv, aad, text);
    tag.copy_from_slice(&whole[..tag.len()]);
    Ok(())
}

/// Begins a text by GCM in parts.
pub(crate) fn gcm_begin(
    dir: u32,
    key: &[u8],
    iv: &[u8],
    aad: &[u8],
    state: &mut GcmState,
) -> Result<(), Refusal>
    ensures answer { code_of result ≡ code_of (begun_by_code dir key.now iv.now) }
    ensures refused { OnErr result (state.new ≡ state.old) }
    ensures begun { OnOk result (IfOk (begun_by_code dir key.now iv.now) (λ d. HasTaken key.now iv.now aad.now (is_enc d) [] state.new)) }
{
    let Some(dir) = dir_at(dir) else {
        return Err(Refusal::Word);
    };
    gcm_takes(key, iv)?;
    *state = GcmState::begin(dir, key, iv, aad);
    Ok(())
}

/// Seals or opens the next part of a text.
pub(crate) fn gcm_update(state: &mut GcmState, part: &mut [u8]) -> Result<(), Refusal>
    ensures answer { result ≡ goes_on state.old }
    ensures refused { OnErr result (state.new ≡ state.old) }
    ensures refused_part { OnErr result (part.new ≡ part.old) }
    ensures taken { OnOk result ((key iv aad text : List ℕ) (sealing : Bool) → HasTaken key iv aad sealing text state.old
        → HasTaken key iv aad sealing (text ++ part.old) state.new) }
    ensures part { OnOk result ((key iv aad text : List ℕ) (sealing : Bool) → HasTaken key iv aad sealing text state.old
        → part.new ≡ drop (length text) (gcm_text (aes key) iv (text ++ part.old))) }
{
    if !state.is_state() {
        return Err(Refusal::NoState);
    }
    state.update(part);
    Ok(())
}

/// Ends a text, and fills the room of its tag.
pub(crate) fn gcm_finish(state: &mut GcmState, tag: &mut [u8]) -> Result<(), Refusal>
    ensures answer { result ≡ ends state.old (length tag.old) }
    ensures refused { OnErr result (state.new ≡ state.old) }
    ensures refused_tag { OnErr result (tag.new ≡ tag.old) }
    ensures cleared { OnOk result (state.new ≡ blank_state) }
    ensures tag { OnOk result ((key iv aad text : List ℕ) (sealing : Bool) → HasTaken key iv aad sealing text state.old
        → tag.new ≡ take (length tag.old) (gcm (aes key) iv aad text sealing).1) }
{
    if !state.is_state() {
        return Err(Refusal::NoState);
    }
    if !gcm::takes_tag(tag.len()) {
        return Err(Refusal::TagLength);
    }
    let whole = state.finish();
    tag.copy_from_slice(&whole[..tag.len()]);
    Ok(())
}

/// Returns why CCM doesn't take a key, a nonce or any other length, if it doesn't.
pub(crate) fn ccm_takes(
    key: &[u8],
    nonce: &[u8],
    aad: &[u8],
    text_len: usize,
    tag_len: usize,
) -> Result<(), Refusal>
    ensures { result ≡ ccm_accepts (length key.now) (length nonce.now) (length aad.now) text_len tag_len }
{
    if !is_key_size(key.len()) {
        return Err(Refusal::KeyLength);
    }
    if !ccm::takes_nonce(nonce.len()) {
        return Err(Refusal::IvLength);
    }
    if !ccm::takes_aad(aad.len()) {
        return Err(Refusal::AadLength);
    }
    if text_len > MAX_PACKET_BYTES {
        return Err(Refusal::TextLength);
    }
    if !ccm::takes_tag(tag_len) {
        return Err(Refusal::TagLength);
    }
    Ok(())
}

/// Seals or opens a text in place by CCM, and fills the room of its tag. Returns `Memory` for want of memory.
pub(crate) fn ccm_change(
    alloc: Global,
    dir: Dir,
    key: &[u8],
    nonce: &[u8],
    aad: &[u8],
    text: &mut [u8],
    tag: &mut [u8],
) -> Result<(), Refusal>
    ensures want_of_memory { result ≡ Err Memory
        → (changed (checked_ccm key.now nonce.now aad.now (is_enc dir) (text.old, tag.old)) (text.old, tag.old)).0 ≡ Ok tt }
    ensures unchanged { result ≡ Err Memory → text.new ≡ text.old }
    ensures unchanged_tag { result ≡ Err Memory → tag.new ≡ tag.old }
    ensures answer { result ≢ Err Memory
        → result ≡ (changed (checked_ccm key.now nonce.now aad.now (is_enc dir) (text.old, tag.old)) (text.old, tag.old)).0 }
    ensures written { result ≢ Err Memory
        → (text.new, tag.new) ≡ (changed (checked_ccm key.now nonce.now aad.now (is_enc dir) (text.old, tag.old)) (text.old, tag.old)).1 }
{
    ccm_takes(key, nonce, aad, text.len(), tag.len())?;
    let schedule = Schedule::expand(key);
    let whole = match dir {
        Dir::Enc => ccm_seal(alloc, &schedule, nonce, aad, text, tag.len() as u8)?,
        Dir::Dec => ccm_open(alloc, &schedule, nonce, aad, text, tag.len() as u8)?,
    };
    tag.copy_from_slice(&whole[..tag.len()]);
    Ok(())
}
