//! What a cipher takes.

ghost use Rattle.std.specs.Prelude.{◌≡◌, length, not};
ghost use Rattle.mbj_types.specs.Verdict.{is_null_cipher, goes_with, takes_key, takes_iv, takes_range, takes_aad};

use crate::auth;
use mbj_types::limits::{cbc, ccm, ctr, gcm};
use mbj_types::{AuthClass, Cipher, is_key_size};

pub(crate) fn is_null(cipher: Cipher) -> bool
    ensures { result ≡ is_null_cipher cipher }
{
    match cipher {
        Cipher::Null => true,
        Cipher::Cbc | Cipher::Ctr | Cipher::Gcm | Cipher::Ccm => false,
    }
}

/// Whether an authentication goes with the cipher: with GCM and with CCM its own alone, with the others any but these two. GMAC has the
/// job's IV, and goes with no cipher.
pub(crate) fn goes_with(cipher: Cipher, class: AuthClass) -> bool
    ensures { result ≡ goes_with cipher class }
{
    match cipher {
        Cipher::Null => !(auth::is_gcm(class) || auth::is_ccm(class)),
        Cipher::Cbc | Cipher::Ctr => {
            !(auth::is_gcm(class) || auth::is_ccm(class)) && !auth::is_gmac(class)
        }
        Cipher::Gcm => auth::is_gcm(class),
        Cipher::Ccm => auth::is_ccm(class),
    }
}

/// Whether the cipher takes keys of this many bytes.
pub(crate) fn takes_key(cipher: Cipher, len: usize) -> bool
    ensures { result ≡ takes_key cipher len }
{
    is_null(cipher) || is_key_size(len)
}

/// Whether the cipher takes initialization vectors of this many bytes.
pub(crate) fn takes_iv(cipher: Cipher, len: usize) -> bool
    ensures { result ≡ takes_iv cipher len }
{
    match cipher {
        Cipher::Null => true,
        Cipher::Cbc => cbc::takes_iv(len),
        Cipher::Ctr => ctr::takes_iv(len),
        Cipher::Gcm => gcm::takes_iv(len),
        Cipher::Ccm => ccm::takes_nonce(len),
    }
}

/// Whether the cipher takes ranges of this many bytes.
pub(crate) fn takes_range(cipher: Cipher, len: usize) -> bool
    ensures { result ≡ takes_range cipher len }
{
    match cipher {
        Cipher::Null | Cipher::Gcm | Cipher::Ccm => true,
        Cipher::Cbc => cbc::takes_text(len),
        Cipher::Ctr => ctr::takes_text(len),
    }
}

/// Whether the cipher takes additional data of this many bytes: ciphers without a tag of their own don't look at it.
pub(crate) fn takes_aad(cipher: Cipher, len: usize) -> bool
    ensures { result ≡ takes_aad cipher len }
{
    match cipher {
        Cipher::Null | Cipher::Cbc | Cipher::Ctr => true,
        Cipher::Gcm => gcm::takes_aad(len),
        Cipher::Ccm => ccm::takes_aad(len),
    }
}
