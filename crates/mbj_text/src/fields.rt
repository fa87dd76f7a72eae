ghost use Rattle.std.specs.Prelude.{◌≡◌, ◌+◌, ◌<◌, [], ◌∷◌, OnOk, MatchResult, map};
ghost use Rattle.mbj_text.specs.Inside.Reading.{ReadsNext, at_start, below_of, cipher_key_of, key_of};
ghost use Rattle.mbj_text.specs.declared.fields.TheConstants.{MAX_FIELDS};

use crate::fault::LineFault;
use crate::field::{Field, below};
use crate::key::{CipherKey, cipher_key, session_key};
use crate::split::Split;
use mbj_types::Bytes;
use std::alloc::Global;
use std::marker::Model;

/// The most fields of a line.
pub(crate) const MAX_FIELDS: usize = 14;

/// The fields of a line, read from left to right.
#[derive(Drop)]
pub(crate) struct Fields<'a> {
    alloc: Global,
    taken: u32,
    left: Split<'a>,
}

impl<'a> Model for Fields<'a> {
    ghost use Rattle.mbj_text.specs.Inside.Reading.{Cursor};

    ghost Value = { Cursor };

    ghost view = { λ f. record { taken = f.taken; left = f.left } };
}

impl<'a> Fields<'a> {
    pub(crate) fn of(alloc: Global, line: &'a [u8]) -> Fields<'a>
        ensures { result ≡ at_start line.now }
    {
        Fields {
            alloc,
            taken: 0,
            left: Split::new(line, b' '),
        }
    }

    /// The next field, which stands for a `T`.
    pub(crate) fn read<T: Field>(&mut self) -> Result<T, LineFault>
        requires { self.old.taken < MAX_FIELDS }
        ensures value { ReadsNext T.value_of self.old result self.new }
        ensures counted { OnOk result (self.new.taken ≡ self.old.taken + 1) }
    {
        let text = self.next_text()?;
        T::read(self.alloc, text)?.ok_or(LineFault::Field(self.taken))
    }

    /// The next field, which is a number below the limit.
    pub(crate) fn read_below(&mut self, limit: u32) -> Result<u32, LineFault>
        requires { self.old.taken < MAX_FIELDS }
        ensures value { ReadsNext (below_of limit) self.old result self.new }
        ensures counted { OnOk result (self.new.taken ≡ self.old.taken + 1) }
    {
        let text = self.next_text()?;
        below(text, limit).ok_or(LineFault::Field(self.taken))
    }

    /// The next field, which is the key of a session.
    pub(crate) fn read_key(&mut self) -> Result<Bytes, LineFault>
        requires { self.old.taken < MAX_FIELDS }
        ensures value { ReadsNext key_of self.old result self.new }
        ensures counted { OnOk result (self.new.taken ≡ self.old.taken + 1) }
    {
        let text = self.next_text()?;
        session_key(self.alloc, text)?.ok_or(LineFault::Field(self.taken))
    }

    /// The next field, which is the key of a cipher, behind sessions with these keys.
    pub(crate) fn read_cipher_key(&mut self, keys: &[Vec<u8>]) -> Result<CipherKey, LineFault>
        requires { self.old.taken < MAX_FIELDS }
        ensures value { ReadsNext (cipher_key_of (map (λ k. k.items) keys.now)) self.old result self.new }
        ensures counted { OnOk result (self.new.taken ≡ self.old.taken + 1) }
    {
        let text = self.next_text()?;
        cipher_key(self.alloc, text, keys)?.ok_or(LineFault::Field(self.taken))
    }

    /// The next field as it stands.
    pub(crate) fn next_text(&mut self) -> Result<&'a [u8], LineFault>
        requires { self.old.taken < MAX_FIELDS }
        ensures left { MatchResult result (λ text. self.old.left ≡ text.now ∷ self.new.left)
            (λ fault. (fault ≡ LineFault.Field 0) × (self.old.left ≡ [])) }
        ensures counted { OnOk result (self.new.taken ≡ self.old.taken + 1) }
    {
        let text = self.left.next().ok_or(LineFault::Field(0))?;
        self.taken += 1;
        Ok(text)
    }
}
