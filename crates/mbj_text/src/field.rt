ghost use Rattle.std.specs.Prelude.{◌≡◌, ◌≤◌, List, ℕ, Option, IfOk, length};
ghost use Rattle.mbj_text.specs.Inside.Reading.{bytes_of, spelled_number, below_of, digits_after};
ghost use Rattle.mbj_text.specs.declared.field.TheConstants.{MAX_DIGITS};

use mbj_types::Bytes;
use std::alloc::{AllocError, Global};

/// The most digits of a number.
const MAX_DIGITS: usize = 5;

/// A value that a field of a line spells, in the form that goes with its type.
pub(crate) trait Field: Sized {
    ghost value_of: { List ℕ → Option Self };

    /// What the text spells, or none if it isn't of the form.
    fn read(alloc: Global, text: &[u8]) -> Result<Option<Self>, AllocError>
        ensures { IfOk result (λ value. value ≡ value_of text.now) };
}

/// `-` for none, or two hexadecimal digits for each byte.
impl Field for Bytes {
    ghost value_of = { bytes_of };

    fn read(alloc: Global, text: &[u8]) -> Result<Option<Bytes>, AllocError> {
        if text == b"-".as_slice() {
            return Ok(Some(Bytes::from_vec(Vec::new(alloc))));
        }
        if text.is_empty() {
            return Ok(None);
        }
        match hex::decode(alloc, text) {
            Ok(bytes) => Ok(Some(Bytes::from_vec(bytes))),
            Err(hex::FromHexError::OutOfMemory) => Err(AllocError),
            Err(_) => Ok(None),
        }
    }
}

/// A number of 1 to 5 digits.
impl Field for u32 {
    ghost value_of = { spelled_number };

    fn read(_alloc: Global, text: &[u8]) -> Result<Option<u32>, AllocError> {
        Ok(number(text))
    }
}

/// A number below 256.
impl Field for u8 {
    ghost value_of = { below_of 256 };

    fn read(_alloc: Global, text: &[u8]) -> Result<Option<u8>, AllocError> {
        Ok(number(text).and_then(|n| u8::try_from(n).ok()))
    }
}

/// The number of 1 to 5 digits that is below the limit.
pub(crate) fn below(text: &[u8], limit: u32) -> Option<u32>
    ensures { result ≡ below_of limit text.now }
{
    number(text).filter(|n| *n < limit)
}

/// The number that 1 to 5 digits write, the first of them not `0` unless it is the only one.
pub(crate) fn number(text: &[u8]) -> Option<u32>
    ensures { result ≡ spelled_number text.now }
{
    match text {
        [] | [b'0', _, ..] => None,
        _ if text.len() > MAX_DIGITS => None,
        _ => digits(text),
    }
}

/// The number that digits write.
fn digits(text: &[u8]) -> Option<u32>
    requires { length text.now ≤ MAX_DIGITS }
    ensures { result ≡ digits_after 0 text.now }
{
    let mut number = 0;
    for digit in text {
        if !digit.is_ascii_digit() {
            return None;
        }
        number = number * 10 + u32::from(*digit - b'0');
    }
    Some(number)
}
