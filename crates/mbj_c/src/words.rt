//! The words of a job and the names of hashes, which C gives as small numbers.

ghost use Rattle.std.specs.Prelude.{◌≡◌, slice_get};
ghost use Rattle.mbj_types.specs.Kinds.{all_kinds};
ghost use Rattle.mbj_c.specs.Words.{ciphers, dirs, orders, auths, hashes};

use mbj_types::{Auth, Cipher, Dir, HashName, Kind, Order};

/// The words of a job.
#[derive(Clone, Copy)]
pub(crate) struct Words {
    pub(crate) cipher: Cipher,
    pub(crate) dir: Dir,
    pub(crate) order: Order,
    pub(crate) auth: Auth,
}

/// The word that stands at a code in its list. Returns `None` exactly where the code is none.
fn word_at<T: Copy>(words: &[T], code: u32) -> Option<T>
    ensures { result ≡ slice_get words.now code }
{
    words.get(code as usize).copied()
}

/// The cipher with this code. Returns `None` exactly where the code is none.
pub(crate) fn cipher_at(code: u32) -> Option<Cipher>
    ensures { result ≡ slice_get ciphers code }
{
    word_at(&Cipher::ALL, code)
}

/// The direction with this code. Returns `None` exactly where the code is none.
pub(crate) fn dir_at(code: u32) -> Option<Dir>
    ensures { result ≡ slice_get dirs code }
{
    word_at(&Dir::ALL, code)
}

/// The order with this code. Returns `None` exactly where the code is none.
pub(crate) fn order_at(code: u32) -> Option<Order>
    ensures { result ≡ slice_get orders code }
{
    word_at(&Order::ALL, code)
}

/// The authentication with this code. Returns `None` exactly where the code is none.
pub(crate) fn auth_at(code: u32) -> Option<Auth>
    ensures { result ≡ slice_get auths code }
{
    word_at(&Auth::ALL, code)
}

/// The hash with this code. Returns `None` exactly where the code is none.
pub(crate) fn hash_at(code: u32) -> Option<HashName>
    ensures { result ≡ slice_get hashes code }
{
    word_at(&HashName::ALL, code)
}

/// The kind of lanes with this code. Returns `None` exactly where the code is none.
pub(crate) fn kind_at(code: u32) -> Option<Kind>
    ensures { result ≡ slice_get all_kinds code }
{
    word_at(&Kind::ALL, code)
}
