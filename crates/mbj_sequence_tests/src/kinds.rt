ghost use Rattle.std.specs.Prelude.{◌≤◌};

use crate::draws::Draws;
use mbj_types::{Auth, Cipher};

const CIPHERS: [Cipher; 5] = [
    Cipher::Null,
    Cipher::Cbc,
    Cipher::Ctr,
    Cipher::Gcm,
    Cipher::Ccm,
];

/// Those that go with the first three ciphers.
const AUTHS: [Auth; 18] = [
    Auth::Null,
    Auth::HmacSha1,
    Auth::HmacSha224,
    Auth::HmacSha256,
    Auth::HmacSha384,
    Auth::HmacSha512,
    Auth::Cmac128,
    Auth::Cmac256,
    Auth::Sha1,
    Auth::Sha224,
    Auth::Sha256,
    Auth::Sha384,
    Auth::Sha512,
    Auth::HmacSha1States,
    Auth::HmacSha224States,
    Auth::HmacSha256States,
    Auth::HmacSha384States,
    Auth::HmacSha512States,
];

/// A cipher, and an authentication that goes with it.
#[derive(Clone, Copy)]
pub(crate) struct Kind {
    pub(crate) cipher: Cipher,
    pub(crate) auth: Auth,
}

/// One job without a cipher in eight has GMAC.
pub(crate) fn draw_kind(draws: &mut Draws) -> Kind {
    let cipher = CIPHERS[draws.below(CIPHERS.len() as u32) as usize];
    let drawn = AUTHS[draws.below(AUTHS.len() as u32) as usize];
    let auth = match cipher {
        Cipher::Gcm => Auth::Gcm,
        Cipher::Ccm => Auth::Ccm,
        Cipher::Null if draws.below(8) == 0 => Auth::Gmac,
        _ => drawn,
    };
    Kind { cipher, auth }
}

/// The longest tag of an authentication, in bytes.
pub(crate) fn longest_tag(auth: Auth) -> u16
    ensures { result ≤ 64 }
{
    match auth {
        Auth::Null => 0,
        Auth::Cmac128 | Auth::Cmac256 | Auth::Gcm | Auth::Ccm | Auth::Gmac => 16,
        Auth::HmacSha1 | Auth::Sha1 | Auth::HmacSha1States => 20,
        Auth::HmacSha224 | Auth::Sha224 | Auth::HmacSha224States => 28,
        Auth::HmacSha256 | Auth::Sha256 | Auth::HmacSha256States => 32,
        Auth::HmacSha384 | Auth::Sha384 | Auth::HmacSha384States => 48,
        Auth::HmacSha512 | Auth::Sha512 | Auth::HmacSha512States => 64,
    }
}
