ghost use Rattle.std.specs.Prelude.{◌≡◌, ◌<◌, ◌≤◌, ◌≢◌, ℕ, None, Some, IfOk, IfSome, IsSome, OnErr, OnOk, length, map, slice_get, vec_len, is_some};
ghost use Rattle.std.specs.List.{All};
ghost use Rattle.mbj_aes.specs.Bytes.{IsKeySize};
ghost use Rattle.mbj_keys.specs.Sessions.{AreOf, keys_of, knows_key, entry_of};
ghost use Rattle.mbj_keys.specs.Schedules.{IsScheduleOf};
ghost use Rattle.mbj_types.specs.declared.limits.TheConstants.{MAX_SESSIONS};

use crate::entry::KeyEntry;
use crate::notes::Notes;
use crate::session::Session;
use mbj_aes::Schedule;
use mbj_types::MAX_SESSIONS;
use std::alloc::{AllocError, Global};
use std::marker::Model;

/// Keys that threads share, one for each session. Contracts see each session's key, and the name of the cell in which
/// the key's entry is put.
///
/// A session's entry is made by the threads that learn it while its cell is empty, and each thread uses the one that
/// came first into the cell. A cell is set once.
///
/// ```
/// let mut notes = Notes::new(alloc, &keys)?;
/// assert!(rt; !notes.knows(0) && !notes.knows(1) && !notes.knows(2));
/// keys.learn(alloc, &mut notes, 1)?;
/// assert!(rt; !notes.knows(0) && notes.knows(1) && !notes.knows(2));
/// assert!(rt; !notes.knows(3) && !notes.knows(u32::MAX));
/// check_entry(&rt, keys.entry(&mut notes, 1), &KEY_192, &LAST_192);
/// ```
#[derive(Drop)]
pub struct Keys {
    pub(crate) sessions: Vec<Session>,
}

impl Model for Keys {
    ghost use Rattle.std.specs.Prelude.{List, ◌≤◌, length};
    ghost use Rattle.mbj_keys.specs.Sessions.{Session as Seen};
    ghost use Rattle.mbj_types.specs.declared.limits.TheConstants.{MAX_SESSIONS};

    ghost Value = { List Seen };

    ghost view = { λ k. k.sessions.items };

    ghost invariant = { λ k. length k.sessions.items ≤ MAX_SESSIONS };
}

impl Keys {
    /// Sessions with these keys, at most `MAX_SESSIONS` of 16, 24 or 32 bytes each. None is expanded.
    ///
    /// Returns `AllocError` for want of memory.
    pub fn new(alloc: Global, keys: Vec<Vec<u8>>) -> Result<Keys, AllocError>
        requires few { vec_len keys ≤ MAX_SESSIONS }
        requires sizes { All (λ k. IsKeySize (length k.items)) keys.items }
        ensures { IfOk result (λ s. keys_of s ≡ map (λ k. k.items) keys.items) }
    {
        let mut sessions = Vec::with_capacity(alloc, keys.len())?;
        for key in keys {
            let session = Session::new(alloc, key);
            sessions.push_reserved(session);
        }
        Ok(Keys { sessions })
    }

    /// How many sessions there are.
    pub fn count(&self) -> u32
        ensures count { result ≡ length self.now }
        ensures few { result ≤ MAX_SESSIONS }
    {
        self.sessions.len() as u32
    }

    /// The key of session `n`, which is below the count.
    pub fn key(&self, n: u32) -> &[u8]
        requires { n < length self.now }
        ensures key { slice_get (keys_of self.now) n ≡ Some result.now }
        ensures size { IsKeySize (length result.now) }
    {
        self.sessions[n as usize].key()
    }

    /// Learns the entry of session `n`, which is below the count. The session's key is expanded if no thread has put its
    /// entry into the cell. It doesn't wait: threads that race may each expand the key, and all learn the entry of one of
    /// them.
    ///
    /// Returns `AllocError` for want of memory; the notes then know what they knew.
    pub fn learn(&self, alloc: Global, notes: &mut Notes, n: u32) -> Result<(), AllocError>
        requires within { n < length self.now }
        requires notes { AreOf self.now notes.old }
        ensures notes { AreOf self.now notes.new }
        ensures learnt { OnOk result (IsSome (entry_of notes.new n)) }
        ensures kept { IfSome (entry_of notes.old n) (λ e. entry_of notes.new n ≡ Some e) }
        ensures others { (k : ℕ) → k ≢ n → entry_of notes.new k ≡ entry_of notes.old k }
        ensures err { OnErr result (notes.new ≡ notes.old) }
    {
        notes.notes[n as usize].learn(alloc, &self.sessions[n as usize])
    }

    /// Learns each session.
    ///
    /// Returns `AllocError` for want of memory; the notes then know at least what they knew.
    pub fn learn_all(&self, alloc: Global, notes: &mut Notes) -> Result<(), AllocError>
        requires { AreOf self.now notes.old }
        ensures notes { AreOf self.now notes.new }
        ensures learnt { OnOk result ((n : ℕ) → n < length self.now → IsSome (entry_of notes.new n)) }
        ensures kept { (n : ℕ) → IfSome (entry_of notes.old n) (λ e. entry_of notes.new n ≡ Some e) }
    {
        for n in 0..self.count() {
            self.learn(alloc, notes, n)?;
        }
        Ok(())
    }

    /// The entry of session `n`, which is learnt. It has the session's key. It takes no memory.
    pub fn entry<'a>(&'a self, notes: &mut Notes, n: u32) -> &'a KeyEntry
        requires notes { AreOf self.now notes.old }
        requires learnt { IsSome (entry_of notes.old n) }
        ensures same { notes.new ≡ notes.old }
        ensures entry { entry_of notes.old n ≡ Some result.now }
        ensures key { slice_get (keys_of self.now) n ≡ Some result.now.key }
    {
        notes.notes[n as usize].entry(&self.sessions[n as usize])
    }

    /// The schedule of a key, if the session is learnt and its entry has that key; else `None`. It takes no memory.
    pub fn schedule_for<'a>(
        &'a self,
        notes: &mut Notes,
        session: Option<u32>,
        key: &[u8],
    ) -> Option<&'a Schedule>
        requires { AreOf self.now notes.old }
        ensures same { notes.new ≡ notes.old }
        ensures found { is_some result ≡ knows_key notes.old session key.now }
        ensures schedule { IfSome result (λ s. IsScheduleOf key.now s.now) }
    {
        let n = session?;
        if !notes.knows(n) {
            return None;
        }
        let entry = self.entry(notes, n);
        if entry.has_key(key) {
            Some(&entry.schedule)
        } else {
            None
        }
    }
}
