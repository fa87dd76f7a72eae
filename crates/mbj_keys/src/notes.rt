ghost use Rattle.std.specs.Prelude.{◌≡◌, ◌↔◌, ℕ, None, IfOk, IsSome, IsTrue, map};
ghost use Rattle.mbj_keys.specs.Sessions.{AreOf, entry_of, unlearnt};

use crate::keys::Keys;
use crate::session::{Session, SessionNote};
use std::alloc::{AllocError, Global};
use std::marker::Model;

/// What one thread has learned of keys that it shares with others: a note for each session. Contracts see what each
/// note knows.
#[derive(Drop)]
pub struct Notes {
    pub(crate) notes: Vec<SessionNote>,
}

impl Model for Notes {
    ghost use Rattle.std.specs.Prelude.{List};
    ghost use Rattle.mbj_keys.specs.Sessions.{Known};

    ghost Value = { List Known };

    ghost view = { λ n. n.notes.items };
}

/// A note of each session, which knows nothing yet.
fn notes_of(alloc: Global, sessions: &[Session]) -> Result<Vec<SessionNote>, AllocError>
    ensures { IfOk result (λ n. n.items ≡ map unlearnt sessions.now) }
{
    sessions
        .iter()
        .map(|session| SessionNote::of(session))
        .collect(alloc)
}

impl Notes {
    /// Notes of these keys, in which no session is learnt.
    ///
    /// Returns `AllocError` for want of memory.
    pub fn new(alloc: Global, keys: &Keys) -> Result<Notes, AllocError>
        ensures notes { IfOk result (λ n. AreOf keys.now n) }
        ensures none { IfOk result (λ n. (k : ℕ) → entry_of n k ≡ None) }
    {
        let notes = notes_of(alloc, &keys.sessions)?;
        Ok(Notes { notes })
    }

    /// Whether session `n` is learnt; not so for every number past the last session's.
    pub fn knows(&self, n: u32) -> bool
        ensures { IsTrue result ↔ IsSome (entry_of self.now n) }
    {
        match self.notes.get(n as usize) {
            Some(note) => note.is_learnt(),
            None => false,
        }
    }
}
