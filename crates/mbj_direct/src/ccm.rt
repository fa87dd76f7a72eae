//! CCM (SP 800-38C) of one text, by the kernel that makes the MACs of many: it is given one.
ghost use Rattle.std.specs.Mem.{FitsInMemory};
ghost use Rattle.std.specs.Prelude.{◌≡◌, ◌+◌, ◌*◌, ◌%◌, ◌≤◌, true, false, length, IfOk, OnErr};
ghost use Rattle.mbj_types.specs.Aes.{encipher};
ghost use Rattle.mbj_types.specs.Ccm.{ccm, ccm_mac};
ghost use Rattle.mbj_lane.specs.Rounds.{end_of};
ghost use Rattle.mbj_types.specs.declared.limits.TheConstants.{MAX_PACKET_BYTES};
ghost use Rattle.mbj_types.specs.declared.limits.ccm.TheConstants.{MAX_CCM_AAD_BYTES};

use mbj_aes::Schedule;
use mbj_ccm::{CcmEntry, CcmKernel, apply_and_mask};
use mbj_lane::Kernel;
use mbj_types::xor_in_place;
use std::alloc::{AllocError, Global};
use std::slice;

// Advances an entry to its end, alone in its lanes.
fn advanced<K: Kernel>(entry: K::Entry) -> K::Entry
    requires { FitsInMemory K.Entry.row }
    ensures end { result ≡ end_of K.round K.rest_of entry }
    ensures done { K.rest_of result ≡ 0 }
{
    let mut entry = entry;
    let rest = K::rest(&entry);
    K::run(slice::from_mut(&mut entry), rest);
    entry
}

// The MAC over a plaintext under a key of `N` rounds, and the plaintext as it was given.
fn mac_in_rounds<const N: usize>(
    key: Schedule,
    nonce: Vec<u8>,
    aad: Vec<u8>,
    plaintext: Vec<u8>,
    tag_len: u8,
) -> (Vec<u8>, [u8; 16])
    requires rounds { length key ≡ 16 * (N + 1) }
    requires nonce_least { 7 ≤ length nonce.items }
    requires nonce_most { length nonce.items ≤ 13 }
    requires aad_fits { length aad.items ≤ MAX_CCM_AAD_BYTES }
    requires text_fits { length plaintext.items ≤ MAX_PACKET_BYTES }
    requires tag_least { 4 ≤ tag_len }
    requires tag_most { tag_len ≤ 16 }
    requires tag_even { tag_len % 2 ≡ 0 }
    ensures plaintext { result.0.items ≡ plaintext.items }
    ensures mac { result.1 ≡ ccm_mac (encipher key) nonce.items aad.items plaintext.items tag_len }
{
    let len = plaintext.len() as u32;
    let entry = CcmEntry::<N>::new(key, nonce, aad, plaintext, 0, len, tag_len);
    let (plaintext, _nonce, _aad, mac) = advanced::<CcmKernel<N>>(entry).into_parts();
    (plaintext, mac)
}

// The same under any key.
fn mac_of(
    key: &Schedule,
    nonce: Vec<u8>,
    aad: Vec<u8>,
    plaintext: Vec<u8>,
    tag_len: u8,
) -> (Vec<u8>, [u8; 16])
    requires nonce_least { 7 ≤ length nonce.items }
    requires nonce_most { length nonce.items ≤ 13 }
    requires aad_fits { length aad.items ≤ MAX_CCM_AAD_BYTES }
    requires text_fits { length plaintext.items ≤ MAX_PACKET_BYTES }
    requires tag_least { 4 ≤ tag_len }
    requires tag_most { tag_len ≤ 16 }
    requires tag_even { tag_len % 2 ≡ 0 }
    ensures plaintext { result.0.items ≡ plaintext.items }
    ensures mac { result.1 ≡ ccm_mac (encipher key.now) nonce.items aad.items plaintext.items tag_len }
{
    match key.rounds() {
        10 => mac_in_rounds::<10>(*key, nonce, aad, plaintext, tag_len),
        12 => mac_in_rounds::<12>(*key, nonce, aad, plaintext, tag_len),
        _ => mac_in_rounds::<14>(*key, nonce, aad, plaintext, tag_len),
    }
}

// The MAC over a plaintext, and the plaintext as it was given.
fn mac(
    alloc: Global,
    key: &Schedule,
    nonce: &[u8],
    aad: &[u8],
    plaintext: Vec<u8>,
    tag_len: u8,
) -> Result<(Vec<u8>, [u8; 16]), AllocError>
    requires nonce_least { 7 ≤ length nonce.now }
    requires nonce_most { length nonce.now ≤ 13 }
    requires aad_fits { length aad.now ≤ MAX_CCM_AAD_BYTES }
    requires text_fits { length plaintext.items ≤ MAX_PACKET_BYTES }
    requires tag_least { 4 ≤ tag_len }
    requires tag_most { tag_len ≤ 16 }
    requires tag_even { tag_len % 2 ≡ 0 }
    ensures plaintext { IfOk result (λ r. r.0.items ≡ plaintext.items) }
    ensures mac { IfOk result (λ r. r.1 ≡ ccm_mac (encipher key.now) nonce.now aad.now plaintext.items tag_len) }
{
    let nonce = Vec::from_slice(alloc, nonce)?;
    let aad = Vec::from_slice(alloc, aad)?;
    Ok(mac_of(key, nonce, aad, plaintext, tag_len))
}

/// Encrypts a text in place by CCM (SP 800-38C, 6.1), and returns the 16 bytes of tag over `aad` and the plaintext, of which the tag
/// is the leftmost `tag_len`. The nonce has 7 to 13 bytes, `aad` at most 65,279, the text at most 65,535, and the tag an even number
/// of bytes from 4 to 16. It copies all three, and so takes memory.
///
/// Returns `AllocError` for want of memory, and the text is as it was then.
pub fn ccm_seal(
    alloc: Global,
    key: &Schedule,
    nonce: &[u8],
    aad: &[u8],
    text: &mut [u8],
    tag_len: u8,
) -> Result<[u8; 16], AllocError>
    requires nonce_least { 7 ≤ length nonce.now }
    requires nonce_most { length nonce.now ≤ 13 }
    requires aad_fits { length aad.now ≤ MAX_CCM_AAD_BYTES }
    requires text_fits { length text.old ≤ MAX_PACKET_BYTES }
    requires tag_least { 4 ≤ tag_len }
    requires tag_most { tag_len ≤ 16 }
    requires tag_even { tag_len % 2 ≡ 0 }
    ensures text { IfOk result (λ t. text.new ≡ (ccm (encipher key.now) nonce.now aad.now text.old tag_len true).0) }
    ensures tag { IfOk result (λ t. t ≡ (ccm (encipher key.now) nonce.now aad.now text.old tag_len true).1) }
    ensures unchanged { OnErr result (text.new ≡ text.old) }
{
    let plaintext = Vec::from_slice(alloc, text)?;
    let (_plaintext, mut tag) = mac(alloc, key, nonce, aad, plaintext, tag_len)?;
    let mask = apply_and_mask(key, nonce, text);
    xor_in_place(&mut tag, &mask);
    Ok(tag)
}

/// Decrypts a text in place by CCM (SP 800-38C, 6.2), and returns the 16 bytes of tag over `aad` and what it was decrypted to. Nothing
/// is compared: the text is decrypted whatever tag it came with, and the caller compares that tag with the leftmost bytes of this
/// one. Lengths and memory are as `ccm_seal` has them.
///
/// Returns `AllocError` for want of memory, and the text is as it was then.
pub fn ccm_open(
    alloc: Global,
    key: &Schedule,
    nonce: &[u8],
    aad: &[u8],
    text: &mut [u8],
    tag_len: u8,
) -> Result<[u8; 16], AllocError>
    requires nonce_least { 7 ≤ length nonce.now }
    requires nonce_most { length nonce.now ≤ 13 }
    requires aad_fits { length aad.now ≤ MAX_CCM_AAD_BYTES }
    requires text_fits { length text.old ≤ MAX_PACKET_BYTES }
    requires tag_least { 4 ≤ tag_len }
    requires tag_most { tag_len ≤ 16 }
    requires tag_even { tag_len % 2 ≡ 0 }
    ensures text { IfOk result (λ t. text.new ≡ (ccm (encipher key.now) nonce.now aad.now text.old tag_len false).0) }
    ensures tag { IfOk result (λ t. t ≡ (ccm (encipher key.now) nonce.now aad.now text.old tag_len false).1) }
    ensures unchanged { OnErr result (text.new ≡ text.old) }
{
    let mut plaintext = Vec::from_slice(alloc, text)?;
    let mask = apply_and_mask(key, nonce, plaintext.as_mut_slice());
    let (plaintext, mut tag) = mac(alloc, key, nonce, aad, plaintext, tag_len)?;
    text.copy_from_slice(plaintext.as_slice());
    xor_in_place(&mut tag, &mask);
    Ok(tag)
}
