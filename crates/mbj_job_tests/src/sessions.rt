// Submissions by shared keys. The job is that of SP 800-38A, F.2.1: its first block.
ghost use Rattle.mbj_keys.specs.Sessions.{AreOf};

use mbj_keys::{Keys, Notes};
use mbj_manager::Manager;
use mbj_types::{Bytes, Cipher, Done, Job};
use std::alloc::{AllocError, Global};
use std::process::Abort;
use std::test::Fail;

const KEY: [u8; 16] = [
    0x2b, 0x7e, 0x15, 0x16, 0x28, 0xae, 0xd2, 0xa6, 0xab, 0xf7, 0x15, 0x88, 0x09, 0xcf, 0x4f, 0x3c,
];

const OTHER_KEY: [u8; 16] = [0; 16];

const IV: [u8; 16] = [0, 1, 2, 3, 4, 5, 6, 7, 8, 9, 10, 11, 12, 13, 14, 15];

const PLAIN: [u8; 16] = [
    0x6b, 0xc1, 0xbe, 0xe2, 0x2e, 0x40, 0x9f, 0x96, 0xe9, 0x3d, 0x7e, 0x11, 0x73, 0x93, 0x17, 0x2a,
];

const CIPHERED: [u8; 16] = [
    0x76, 0x49, 0xab, 0xac, 0x81, 0x19, 0xb2, 0x46, 0xce, 0xe9, 0x8e, 0x9b, 0x12, 0xe9, 0x19, 0x7d,
];

/// Jobs where session 0, whose key is `KEY`, is learnt: cipher, length of the cipher range, key, and session; and how many keys are counted
/// as expanded.
const JOBS: [(Cipher, u32, [u8; 16], Option<u32>, u64); 6] = [
    (Cipher::Cbc, 16, KEY, Some(0), 0),
    (Cipher::Cbc, 16, OTHER_KEY, Some(0), 1),
    (Cipher::Cbc, 16, KEY, None, 1),
    (Cipher::Cbc, 16, KEY, Some(1), 1),
    (Cipher::Null, 16, OTHER_KEY, Some(0), 0),
    // Refused: the range isn't whole blocks.
    (Cipher::Cbc, 15, OTHER_KEY, Some(0), 0),
];

fn job(
    alloc: Global,
    cipher: Cipher,
    cipher_len: u32,
    key: &[u8; 16],
    session: Option<u32>,
) -> Result<Job, AllocError> {
    let mut job = Job::blank(alloc);
    job.cipher = cipher;
    job.key = Bytes::from_vec(key.to_vec(alloc)?);
    job.iv = Bytes::from_vec(IV.to_vec(alloc)?);
    job.cipher_len = cipher_len;
    job.packet = Bytes::from_vec(PLAIN.to_vec(alloc)?);
    job.session = session;
    Ok(job)
}

pub(crate) fn one_session(alloc: Global) -> Result<Keys, AllocError> {
    let key = KEY.to_vec(alloc)?;
    let mut list = Vec::new(alloc);
    list.push(key)?;
    Keys::new(alloc, list)
}

/// Keys, and what is known of them.
#[derive(Drop)]
pub(crate) struct Known<'k> {
    keys: &'k Keys,
    notes: Notes,
    ghost of: { AreOf keys.now notes },
}

impl<'k> Known<'k> {
    pub(crate) fn nothing(alloc: Global, keys: &'k Keys) -> Result<Known<'k>, AllocError> {
        let notes = Notes::new(alloc, keys)?;
        Ok(Known { keys, notes })
    }

    /// Learns all sessions.
    pub(crate) fn learn(&mut self, alloc: Global) -> Result<(), AllocError> {
        self.keys.learn_all(alloc, &mut self.notes)
    }

    /// Submits the first open job by what is known.
    pub(crate) fn submit(&mut self, rt: &impl Abort, manager: &mut Manager) -> Option<Done> {
        assert!(rt; manager.get_next_burst(0) > 0);
        manager.submit_in(self.keys, &mut self.notes)
    }

    /// Submits a job by what is known, and gives the earliest back.
    fn done(&mut self, manager: &mut Manager, job: Job) -> Option<Done> {
        let _flushed = manager.make_room();
        manager.put_next(job);
        match manager.submit_in(self.keys, &mut self.notes) {
            Some(done) => Some(done),
            None => manager.flush(),
        }
    }
}

#[test]
fn keys_of_learnt_sessions_are_not_expanded(rt: HostRuntime) -> Result<(), Fail> {
    let alloc = rt.alloc();
    let keys = one_session(alloc)?;
    let mut known = Known::nothing(alloc, &keys)?;
    known.learn(alloc)?;
    for (cipher, len, key, session, expansions) in &JOBS {
        let mut manager = Manager::new(alloc)?;
        let given = known.done(&mut manager, job(alloc, *cipher, *len, key, *session)?);
        assert!(rt; given.is_some() && manager.expansions() == *expansions);
    }
    Ok(())
}

#[test]
fn sessions_change_no_result(rt: HostRuntime) -> Result<(), Fail> {
    let alloc = rt.alloc();
    let keys = one_session(alloc)?;
    let mut known = Known::nothing(alloc, &keys)?;
    let mut manager = Manager::new(alloc)?;
    // First without the session's entry, and then with it.
    for expansions in [1, 1] {
        let given = known.done(&mut manager, job(alloc, Cipher::Cbc, 16, &KEY, Some(0))?);
        let is_right = given.is_some_and(|done| done.packet.as_slice() == CIPHERED.as_slice());
        assert!(rt; is_right && manager.expansions() == expansions);
        known.learn(alloc)?;
    }
    Ok(())
}
