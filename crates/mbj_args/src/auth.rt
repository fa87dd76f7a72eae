//! What an authentication takes, by its class.

ghost use Rattle.std.specs.Prelude.{◌≡◌};
ghost use Rattle.mbj_types.specs.Verdict.{is_gcm_auth, is_ccm_auth, is_gmac, has_hash_range, takes_auth_iv, takes_auth_key, takes_tag};

use mbj_types::limits::{ccm, cmac, gcm, hmac};
use mbj_types::{AuthClass, is_key_size};

pub(crate) fn is_gcm(class: AuthClass) -> bool
    ensures { result ≡ is_gcm_auth class }
{
    match class {
        AuthClass::Gcm => true,
        AuthClass::Null
        | AuthClass::Hmac(_)
        | AuthClass::Cmac(_)
        | AuthClass::Ccm
        | AuthClass::Plain(_)
        | AuthClass::Gmac
        | AuthClass::States(_) => false,
    }
}

pub(crate) fn is_ccm(class: AuthClass) -> bool
    ensures { result ≡ is_ccm_auth class }
{
    match class {
        AuthClass::Ccm => true,
        AuthClass::Null
        | AuthClass::Hmac(_)
        | AuthClass::Cmac(_)
        | AuthClass::Gcm
        | AuthClass::Plain(_)
        | AuthClass::Gmac
        | AuthClass::States(_) => false,
    }
}

pub(crate) fn is_gmac(class: AuthClass) -> bool
    ensures { result ≡ is_gmac class }
{
    match class {
        AuthClass::Gmac => true,
        AuthClass::Null
        | AuthClass::Hmac(_)
        | AuthClass::Cmac(_)
        | AuthClass::Gcm
        | AuthClass::Ccm
        | AuthClass::Plain(_)
        | AuthClass::States(_) => false,
    }
}

/// Whether the authentication is over the hash range.
pub(crate) fn has_hash_range(class: AuthClass) -> bool
    ensures { result ≡ has_hash_range class }
{
    match class {
        AuthClass::Null | AuthClass::Gcm | AuthClass::Ccm => false,
        AuthClass::Hmac(_)
        | AuthClass::Cmac(_)
        | AuthClass::Plain(_)
        | AuthClass::Gmac
        | AuthClass::States(_) => true,
    }
}

/// Whether the authentication takes initialization vectors of this many bytes. GMAC alone has one.
pub(crate) fn takes_iv(class: AuthClass, len: usize) -> bool
    ensures { result ≡ takes_auth_iv class len }
{
    match class {
        AuthClass::Null
        | AuthClass::Hmac(_)
        | AuthClass::Cmac(_)
        | AuthClass::Gcm
        | AuthClass::Ccm
        | AuthClass::Plain(_)
        | AuthClass::States(_) => true,
        AuthClass::Gmac => gcm::takes_iv(len),
    }
}

/// Whether the authentication takes keys of this many bytes: a digest doesn't look at one, and an HMAC from states takes the inner state
/// and the outer state.
pub(crate) fn takes_key(class: AuthClass, len: usize) -> bool
    ensures { result ≡ takes_auth_key class len }
{
    match class {
        AuthClass::Null | AuthClass::Gcm | AuthClass::Ccm | AuthClass::Plain(_) => true,
        AuthClass::Hmac(_) => hmac::takes_key(len),
        AuthClass::Cmac(key) => len == key.bytes(),
        AuthClass::Gmac => is_key_size(len),
        AuthClass::States(hash) => hmac::takes_states(hash, len),
    }
}

/// Whether the authentication takes tags of this many bytes.
pub(crate) fn takes_tag(class: AuthClass, len: usize) -> bool
    ensures { result ≡ takes_tag class len }
{
    match class {
        AuthClass::Null => len == 0,
        AuthClass::Hmac(hash) | AuthClass::Plain(hash) | AuthClass::States(hash) => {
            hmac::takes_tag(hash, len)
        }
        AuthClass::Cmac(_) => cmac::takes_tag(len),
        AuthClass::Gcm | AuthClass::Gmac => gcm::takes_tag(len),
        AuthClass::Ccm => ccm::takes_tag(len),
    }
}
