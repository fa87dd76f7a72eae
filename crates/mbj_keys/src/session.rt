//! One session, and what is noted of it.
ghost use Rattle.std.specs.Prelude.{◌≡◌, ◌↔◌, None, Some, IfOk, IfSome, IsSome, IsTrue, OnErr, OnOk, length};
ghost use Rattle.mbj_aes.specs.Bytes.{IsKeySize};
ghost use Rattle.mbj_keys.specs.Sessions.{IsOf, unlearnt};

use crate::entry::KeyEntry;
use mbj_types::Bytes;
use once_cell::race::{Note, OnceBox};
use std::alloc::{AllocError, Global};
use std::marker::Model;

/// A key, and the cell in which the first thread that expands it puts its entry.
#[derive(Drop)]
pub struct Session {
    key: Bytes,
    cell: OnceBox<KeyEntry>,
}

impl Model for Session {
    ghost use Rattle.std.specs.Prelude.{length};
    ghost use Rattle.mbj_aes.specs.Bytes.{IsKeySize};
    ghost use Rattle.once_cell.specs.Once.{cell_name};
    ghost use Rattle.mbj_keys.specs.Sessions.{Session as Seen};

    ghost Value = { Seen };

    ghost view = { λ s. record { key = s.key; cell = cell_name s.cell } };

    ghost invariant = { λ s. IsKeySize (length s.key) };
}

impl Session {
    /// A session with a key of 16, 24 or 32 bytes, which isn't expanded. It takes no memory.
    pub(crate) fn new(alloc: Global, key: Vec<u8>) -> Session
        requires { IsKeySize (length key.items) }
        ensures { result.key ≡ key.items }
    {
        Session {
            key: Bytes::from_vec(key),
            cell: OnceBox::new(alloc),
        }
    }

    /// The session's key.
    pub(crate) fn key(&self) -> &[u8]
        ensures key { result.now ≡ self.now.key }
        ensures size { IsKeySize (length result.now) }
    {
        self.key.as_slice()
    }
}

/// What one thread has learned of one session.
///
/// The note may have seen an entry that isn't learnt: one that has another key, which no call of this crate puts into a
/// cell.
#[derive(Drop)]
pub struct SessionNote {
    note: Note<KeyEntry>,
    is_learnt: bool,
}

impl Model for SessionNote {
    ghost use Rattle.std.specs.Prelude.{None, IsSome, IsTrue, if◌then◌else◌};
    ghost use Rattle.mbj_keys.specs.Sessions.{Known};

    ghost Value = { Known };

    ghost view = { λ n. record { cell = n.note.cell; entry = (if n.is_learnt then n.note.known else None) } };

    ghost invariant = { λ n. IsTrue n.is_learnt → IsSome n.note.known };
}

impl SessionNote {
    /// A note of a session, which knows nothing yet. It takes no memory.
    pub(crate) fn of(session: &Session) -> SessionNote
        ensures { result ≡ unlearnt session.now }
    {
        SessionNote {
            note: session.cell.note(),
            is_learnt: false,
        }
    }

    /// Whether the note knows an entry.
    pub(crate) fn is_learnt(&self) -> bool
        ensures { IsTrue result ↔ IsSome self.now.entry }
    {
        self.is_learnt
    }

    /// Learns the session's entry, and makes it if none is in its cell.
    ///
    /// Returns `AllocError` for want of memory. It also does if the entry in the cell has another key: a cell can't
    /// promise that none has, so the keys are compared.
    pub(crate) fn learn(&mut self, alloc: Global, session: &Session) -> Result<(), AllocError>
        requires { IsOf session.now self.old }
        ensures is_of { IsOf session.now self.new }
        ensures learnt { OnOk result (IsSome self.new.entry) }
        ensures kept { IfSome self.old.entry (λ e. self.new.entry ≡ Some e) }
        ensures err { OnErr result (self.new ≡ self.old) }
    {
        if self.is_learnt {
            return Ok(());
        }
        let key = session.key();
        let entry = session.cell.get_or_try_init_as(
            move || -> Result<Box<KeyEntry>, AllocError>
                requires { IsKeySize (length key.now) }
            { Ok(Box::new(alloc, KeyEntry::expand(alloc, key)?)?) },
            &mut self.note,
        )?;
        if !entry.has_key(key) {
            return Err(AllocError);
        }
        self.is_learnt = true;
        Ok(())
    }

    /// The session's entry, which the note knows. It takes no memory.
    pub(crate) fn entry<'a>(&mut self, session: &'a Session) -> &'a KeyEntry
        requires cell { self.old.cell ≡ session.now.cell }
        requires learnt { IsSome self.old.entry }
        ensures same { self.new ≡ self.old }
        ensures entry { self.old.entry ≡ Some result.now }
    {
        match session.cell.get_as(&mut self.note) {
            Some(entry) => entry,
            None => unreachable!(),
        }
    }

    /// Two notes of one session that know an entry know the same one. It takes no memory.
    pub(crate) fn agree(&mut self, other: &mut SessionNote)
        requires cell { other.old.cell ≡ self.old.cell }
        requires learnt { IsSome self.old.entry }
        requires other_learnt { IsSome other.old.entry }
        ensures same { self.new ≡ self.old }
        ensures other_same { other.new ≡ other.old }
        ensures agree { self.old.entry ≡ other.old.entry }
    {
        let copy = other.note.again();
        self.note.compare(copy);
    }
}
