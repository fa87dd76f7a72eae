//! Texts by GCM and CCM: calls without a manager.

ghost use Rattle.std.specs.Prelude.{◌≡◌, ◌≢◌, ℕ, Bool, List, [], ◌++◌, length, take, drop, IfOk, Ok, true, false};
ghost use Rattle.mbj_c.specs.Codes.{code_of, refusal_code};
ghost use Rattle.mbj_c.specs.Direct.{begun_by_code, ccm_accepts, ccm_opened, checked_ccm, changed, ends, gcm_opened, checked_gcm, goes_on};
ghost use Rattle.mbj_direct.specs.Parts.{HasTaken, blank_state};
ghost use Rattle.mbj_types.specs.Aes.{aes};
ghost use Rattle.mbj_types.specs.Gcm.{gcm, gcm_text};
ghost use Rattle.mbj_types.specs.Result.{is_enc};
ghost use Rattle.mbj_c.specs.declared.refusal.Refusal.TheVariants.{Memory};

use crate::refusal::code;
use crate::{direct, opening};
use mbj_direct::GcmState;
use mbj_types::Dir;
use std::alloc::Global;

/// Encrypts a text in place by GCM (SP 800-38D, 7.1), and fills `tag` with the first bytes of the tag, as many as it has. It needs no
/// manager and takes no memory.
///
/// Returns 0, or the code of a refusal: `KeyLength` exactly where the key hasn't 16, 24 or 32 bytes; else `IvLength` exactly where the
/// IV hasn't 1 to 65,535; else `TagLength` exactly where `tag` hasn't 1 to 16. A refused call writes nothing.
#[unsafe(no_mangle)]
pub extern "C" fn mbj_gcm_seal(
    key: &[u8],
    iv: &[u8],
    aad: &[u8],
    text: &mut [u8],
    tag: &mut [u8],
) -> u32
    ensures answer { result ≡ code_of (changed (checked_gcm key.now iv.now aad.now true (text.old, tag.old)) (text.old, tag.old)).0 }
    ensures written { (text.new, tag.new) ≡ (changed (checked_gcm key.now iv.now aad.now true (text.old, tag.old)) (text.old, tag.old)).1 }
{
    code(direct::gcm_seal(key, iv, aad, text, tag))
}

/// Decrypts a text in place by GCM (SP 800-38D, 7.2) that came with the tag `tag`, and compares all bytes of that with as many of the tag
/// that the text should have come with. It needs no manager and takes no memory.
///
/// Returns 0 exactly where both are equal: the text is the plaintext then. Else returns `WrongTag`, and the text is all zeros, or the code
/// of a refusal as `mbj_gcm_seal` does, and nothing is written.
#[unsafe(no_mangle)]
pub extern "C" fn mbj_gcm_open(
    key: &[u8],
    iv: &[u8],
    aad: &[u8],
    text: &mut [u8],
    tag: &[u8],
) -> u32
    ensures answer { result ≡ code_of (gcm_opened key.now iv.now aad.now text.old tag.now).0 }
    ensures written { text.new ≡ (gcm_opened key.now iv.now aad.now text.old tag.now).1 }
{
    code(opening::gcm_open(key, iv, aad, text, tag))
}

/// Decrypts a text in place by GCM (SP 800-38D, 7.2), and fills `tag` with the first bytes of the tag that the text should have come
/// with, as many as it has. Nothing is compared: the text is decrypted whatever tag it came with, and the caller compares. It returns
/// as `mbj_gcm_seal` does. It needs no manager and takes no memory.
#[unsafe(no_mangle)]
pub extern "C" fn mbj_gcm_decrypt_unverified(
    key: &[u8],
    iv: &[u8],
    aad: &[u8],
    text: &mut [u8],
    tag: &mut [u8],
) -> u32
    ensures answer { result ≡ code_of (changed (checked_gcm key.now iv.now aad.now false (text.old, tag.old)) (text.old, tag.old)).0 }
    ensures written { (text.new, tag.new) ≡ (changed (checked_gcm key.now iv.now aad.now false (text.old, tag.old)) (text.old, tag.old)).1 }
{
    code(direct::gcm_decrypt_unverified(key, iv, aad, text, tag))
}

/// Begins a text by GCM that comes in parts, in a state of the caller's: `dir` is 0 to seal it, 1 to open it. The state holds the key,
/// and is as secret. It needs no manager and takes no memory.
///
/// Returns 0, or the code of a refusal: `Word` exactly where `dir` is neither; else `KeyLength` and `IvLength` exactly where
/// `mbj_gcm_seal` returns them. A refused call writes nothing.
#[unsafe(no_mangle)]
pub extern "C" fn mbj_gcm_init(
    state: &mut GcmState,
    dir: u32,
    key: &[u8],
    iv: &[u8],
    aad: &[u8],
) -> u32
    ensures answer { result ≡ code_of (begun_by_code dir key.now iv.now) }
    ensures refused { result ≢ 0 → state.new ≡ state.old }
    ensures begun { result ≡ 0 → IfOk (begun_by_code dir key.now iv.now) (λ d. HasTaken key.now iv.now aad.now (is_enc d) [] state.new) }
{
    code(direct::gcm_begin(dir, key, iv, aad, state))
}

/// Seals or opens the next part of a text, of any length, in place. However a text is cut into parts, they become what the whole text
/// becomes. Each call expands the key anew. It needs no manager and takes no memory.
///
/// Returns 0, or the code of a refusal: `NoState` exactly where the state's key hasn't 16, 24 or 32 bytes, or its direction is none. A
/// refused call writes nothing. A state that was written by other than these calls is refused, or gives any text and any tag.
#[unsafe(no_mangle)]
pub extern "C" fn mbj_gcm_update(state: &mut GcmState, part: &mut [u8]) -> u32
    ensures answer { result ≡ code_of (goes_on state.old) }
    ensures refused { result ≢ 0 → state.new ≡ state.old }
    ensures refused_part { result ≢ 0 → part.new ≡ part.old }
    ensures taken { result ≡ 0 → (key iv aad text : List ℕ) (sealing : Bool) → HasTaken key iv aad sealing text state.old
        → HasTaken key iv aad sealing (text ++ part.old) state.new }
    ensures part { result ≡ 0 → (key iv aad text : List ℕ) (sealing : Bool) → HasTaken key iv aad sealing text state.old
        → part.new ≡ drop (length text) (gcm_text (aes key) iv (text ++ part.old)) }
{
    code(direct::gcm_update(state, part))
}

/// Ends a text that came in parts, and fills `tag` with the first bytes of its tag, as many as it has. Nothing is compared: a caller
/// that opened the text compares. The state becomes all zero bytes, which are no state. It needs no manager and takes no memory.
///
/// Returns 0, or the code of a refusal: `NoState` as `mbj_gcm_update` does; else `TagLength` exactly where `tag` hasn't 1 to 16 bytes.
/// A refused call writes nothing.
#[unsafe(no_mangle)]
pub extern "C" fn mbj_gcm_finish(state: &mut GcmState, tag: &mut [u8]) -> u32
    ensures answer { result ≡ code_of (ends state.old (length tag.old)) }
    ensures refused { result ≢ 0 → state.new ≡ state.old }
    ensures refused_tag { result ≢ 0 → tag.new ≡ tag.old }
    ensures cleared { result ≡ 0 → state.new ≡ blank_state }
    ensures tag { result ≡ 0 → (key iv aad text : List ℕ) (sealing : Bool) → HasTaken key iv aad sealing text state.old
        → tag.new ≡ take (length tag.old) (gcm (aes key) iv aad text sealing).1 }
{
    code(direct::gcm_finish(state, tag))
}

/// Encrypts a text in place by CCM (SP 800-38C, 6.1), and fills `tag` with the tag, whose length is that of `tag`. It needs no manager.
/// It copies the nonce, the additional data and the text, and so takes memory.
///
/// Returns 0, or the code of a refusal: `KeyLength` exactly where the key hasn't 16, 24 or 32 bytes; else `IvLength` exactly where the
/// nonce hasn't 7 to 13; else `AadLength` exactly where `aad` has more than 65,279; else `TextLength` exactly where the text has more
/// than 65,535; else `TagLength` exactly where `tag` hasn't 4, 6, 8, 10, 12, 14 or 16; else `Memory` for want of memory. A refused call
/// writes nothing.
#[unsafe(no_mangle)]
pub extern "C" fn mbj_ccm_seal(
    alloc: Global,
    key: &[u8],
    nonce: &[u8],
    aad: &[u8],
    text: &mut [u8],
    tag: &mut [u8],
) -> u32
    ensures want_of_memory { result ≡ refusal_code Memory
        → (changed (checked_ccm key.now nonce.now aad.now true (text.old, tag.old)) (text.old, tag.old)).0 ≡ Ok tt }
    ensures unchanged { result ≡ refusal_code Memory → text.new ≡ text.old }
    ensures unchanged_tag { result ≡ refusal_code Memory → tag.new ≡ tag.old }
    ensures answer { result ≢ refusal_code Memory
        → result ≡ code_of (changed (checked_ccm key.now nonce.now aad.now true (text.old, tag.old)) (text.old, tag.old)).0 }
    ensures written { result ≢ refusal_code Memory
        → (text.new, tag.new) ≡ (changed (checked_ccm key.now nonce.now aad.now true (text.old, tag.old)) (text.old, tag.old)).1 }
{
    code(direct::ccm_change(alloc, Dir::Enc, key, nonce, aad, text, tag))
}

/// Decrypts a text in place by CCM (SP 800-38C, 6.2) that came with the tag `tag`, and compares all bytes of that with the tag of this
/// length that the text should have come with. It takes memory as `mbj_ccm_seal` does.
///
/// Returns 0 exactly where both are equal: the text is the plaintext then. Else returns `WrongTag`, and the text is all zeros, or the code
/// of a refusal as `mbj_ccm_seal` does, and nothing is written.
#[unsafe(no_mangle)]
pub extern "C" fn mbj_ccm_open(
    alloc: Global,
    key: &[u8],
    nonce: &[u8],
    aad: &[u8],
    text: &mut [u8],
    tag: &[u8],
) -> u32
    ensures want_of_memory { result ≡ refusal_code Memory
        → ccm_accepts (length key.now) (length nonce.now) (length aad.now) (length text.old) (length tag.now) ≡ Ok tt }
    ensures unchanged { result ≡ refusal_code Memory → text.new ≡ text.old }
    ensures answer { result ≢ refusal_code Memory → result ≡ code_of (ccm_opened key.now nonce.now aad.now text.old tag.now).0 }
    ensures written { result ≢ refusal_code Memory → text.new ≡ (ccm_opened key.now nonce.now aad.now text.old tag.now).1 }
{
    code(opening::ccm_open(alloc, key, nonce, aad, text, tag))
}

/// Decrypts a text in place by CCM (SP 800-38C, 6.2), and fills `tag` with the tag that the text should have come with, whose length is
/// that of `tag`. Nothing is compared: the text is decrypted whatever tag it came with, and the caller compares. It returns as
/// `mbj_ccm_seal` does, and takes memory as that does.
#[unsafe(no_mangle)]
pub extern "C" fn mbj_ccm_decrypt_unverified(
    alloc: Global,
    key: &[u8],
    nonce: &[u8],
    aad: &[u8],
    text: &mut [u8],
    tag: &mut [u8],
) -> u32
    ensures want_of_memory { result ≡ refusal_code Memory
        → (changed (checked_ccm key.now nonce.now aad.now false (text.old, tag.old)) (text.old, tag.old)).0 ≡ Ok tt }
    ensures unchanged { result ≡ refusal_code Memory → text.new ≡ text.old }
    ensures unchanged_tag { result ≡ refusal_code Memory → tag.new ≡ tag.old }
    ensures answer { result ≢ refusal_code Memory
        → result ≡ code_of (changed (checked_ccm key.now nonce.now aad.now false (text.old, tag.old)) (text.old, tag.old)).0 }
    ensures written { result ≢ refusal_code Memory
        → (text.new, tag.new) ≡ (changed (checked_ccm key.now nonce.now aad.now false (text.old, tag.old)) (text.old, tag.old)).1 }
{
    code(direct::ccm_change(alloc, Dir::Dec, key, nonce, aad, text, tag))
}
