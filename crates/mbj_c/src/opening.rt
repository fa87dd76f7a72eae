//! Texts that are opened with the tag that they came with: one that it isn't the tag of is cleared.

ghost use Rattle.std.specs.Prelude.{◌≡◌, ◌≢◌, length, Ok, Err};
ghost use Rattle.mbj_c.specs.Direct.{ccm_accepts, ccm_opened, gcm_opened, verified};
ghost use Rattle.mbj_c.specs.declared.refusal.Refusal.TheVariants.{Memory};

use crate::direct::{ccm_takes, gcm_takes};
use crate::refusal::Refusal;
use mbj_aes::{Schedule, are_equal};
use mbj_gcm::unseal;
use mbj_types::limits::gcm;
use std::alloc::Global;

/// Returns `WrongTag` exactly where the tag that came with a text differs from the one that was found; the text is all zeros then. No
/// branch depends on a byte, but for the one on whether all are equal.
fn verify(found: &[u8], tag: &[u8], text: &mut [u8]) -> Result<(), Refusal>
    ensures answer { result ≡ (verified (text.old, found.now) tag.now text.old).0 }
    ensures written { text.new ≡ (verified (text.old, found.now) tag.now text.old).1 }
{
    if are_equal(found, tag) {
        return Ok(());
    }
    text.fill(0);
    Err(Refusal::WrongTag)
}

/// Opens a text in place by GCM that came with a tag.
pub(crate) fn gcm_open(
    key: &[u8],
    iv: &[u8],
    aad: &[u8],
    text: &mut [u8],
    tag: &[u8],
) -> Result<(), Refusal>
    ensures answer { result ≡ (gcm_opened key.now iv.now aad.now text.old tag.now).0 }
    ensures written { text.new ≡ (gcm_opened key.now iv.now aad.now text.old tag.now).1 }
{
    gcm_takes(key, iv)?;
    if !gcm::takes_tag(tag.len()) {
        return Err(Refusal::TagLength);
    }
    let found = unseal(&Schedule::expand(key), iv, aad, text);
    verify(&found[..tag.len()], tag, text)
}

/// Opens a text in place by CCM that came with a tag. Returns `Memory` for want of memory.
pub(crate) fn ccm_open(
    alloc: Global,
    key: &[u8],
    nonce: &[u8],
    aad: &[u8],
    text: &mut [u8],
    tag: &[u8],
) -> Result<(), Refusal>
    ensures want_of_memory { result ≡ Err Memory
        → ccm_accepts (length key.now) (length nonce.now) (length aad.now) (length text.old) (length tag.now) ≡ Ok tt }
    ensures unchanged { result ≡ Err Memory → text.new ≡ text.old }
    ensures answer { result ≢ Err Memory → result ≡ (ccm_opened key.now nonce.now aad.now text.old tag.now).0 }
    ensures written { result ≢ Err Memory → text.new ≡ (ccm_opened key.now nonce.now aad.now text.old tag.now).1 }
{
    ccm_takes(key, nonce, aad, text.len(), tag.len())?;
    let schedule = Schedule::expand(key);
    let found = mbj_direct::ccm_open(alloc, &schedule, nonce, aad, text, tag.len() as u8)?;
    verify(&found[..tag.len()], tag, text)
}
