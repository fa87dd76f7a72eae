ghost use Rattle.std.specs.Prelude.{◌≡◌, map, find, option_map};
ghost use Rattle.std.specs.Str.{bytes_eq};
ghost use Rattle.mbj_text.specs.Inside.Reading.{lookup, cipher_of, dir_of, order_of, auth_of, verb_of};

use crate::command::Verb;
use crate::field::Field;
use mbj_types::{Auth, Cipher, Dir, Order};
use std::alloc::{AllocError, Global};

/// The ciphers, each with its word in a job file.
pub const CIPHER_WORDS: [(&[u8], Cipher); 5] = [
    (b"null", Cipher::Null),
    (b"cbc", Cipher::Cbc),
    (b"ctr", Cipher::Ctr),
    (b"gcm", Cipher::Gcm),
    (b"ccm", Cipher::Ccm),
];

/// The directions, each with its word in a job file.
pub const DIR_WORDS: [(&[u8], Dir); 2] = [(b"enc", Dir::Enc), (b"dec", Dir::Dec)];

/// The orders, each with its word in a job file.
pub const ORDER_WORDS: [(&[u8], Order); 2] = [
    (b"ch", Order::CipherHash),
    (b"hc", Order::HashCipher),
];

/// The authentications, each with its word in a job file.
pub const AUTH_WORDS: [(&[u8], Auth); 21] = [
    (b"null", Auth::Null),
    (b"hmac-sha1", Auth::HmacSha1),
    (b"hmac-sha224", Auth::HmacSha224),
    (b"hmac-sha256", Auth::HmacSha256),
    (b"hmac-sha384", Auth::HmacSha384),
    (b"hmac-sha512", Auth::HmacSha512),
    (b"cmac128", Auth::Cmac128),
    (b"cmac256", Auth::Cmac256),
    (b"gcm", Auth::Gcm),
    (b"ccm", Auth::Ccm),
    (b"sha1", Auth::Sha1),
    (b"sha224", Auth::Sha224),
    (b"sha256", Auth::Sha256),
    (b"sha384", Auth::Sha384),
    (b"sha512", Auth::Sha512),
    (b"gmac", Auth::Gmac),
    (b"hmac-sha1-states", Auth::HmacSha1States),
    (b"hmac-sha224-states", Auth::HmacSha224States),
    (b"hmac-sha256-states", Auth::HmacSha256States),
    (b"hmac-sha384-states", Auth::HmacSha384States),
    (b"hmac-sha512-states", Auth::HmacSha512States),
];

const VERBS: [(&[u8], Verb); 4] = [
    (b"post", Verb::Post),
    (b"claim", Verb::Claim),
    (b"flush", Verb::Flush),
    (b"collect", Verb::Collect),
];

impl Field for Cipher {
    ghost value_of = { cipher_of };

    fn read(_alloc: Global, text: &[u8]) -> Result<Option<Cipher>, AllocError> {
        Ok(lookup(&CIPHER_WORDS, text))
    }
}

impl Field for Dir {
    ghost value_of = { dir_of };

    fn read(_alloc: Global, text: &[u8]) -> Result<Option<Dir>, AllocError> {
        Ok(lookup(&DIR_WORDS, text))
    }
}

impl Field for Order {
    ghost value_of = { order_of };

    fn read(_alloc: Global, text: &[u8]) -> Result<Option<Order>, AllocError> {
        Ok(lookup(&ORDER_WORDS, text))
    }
}

impl Field for Auth {
    ghost value_of = { auth_of };

    fn read(_alloc: Global, text: &[u8]) -> Result<Option<Auth>, AllocError> {
        Ok(lookup(&AUTH_WORDS, text))
    }
}

impl Field for Verb {
    ghost value_of = { verb_of };

    fn read(_alloc: Global, text: &[u8]) -> Result<Option<Verb>, AllocError> {
        Ok(lookup(&VERBS, text))
    }
}

/// The value in the first row whose word is the text.
fn lookup<T: Copy>(rows: &[(&[u8], T)], text: &[u8]) -> Option<T>
    ensures { result ≡ lookup (map (λ row. (row.0.now, row.1)) rows.now) text.now }
{
    find_value(rows, text)
}

fn find_value<T: Copy>(rows: &[(&[u8], T)], text: &[u8]) -> Option<T>
    ensures { result ≡ option_map (λ row. row.1)
        (find (λ row. bytes_eq row.0.now text.now) rows.now) }
{
    rows.iter().find(|row| row.0 == text).map(|row| row.1)
}
