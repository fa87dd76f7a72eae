ghost use Rattle.std.specs.Prelude.{◌≡◌, ◌<◌, IfOk, IsSome, length};
ghost use Rattle.mbj_keys.specs.Sessions.{AreOf, entry_of};

use crate::{KeyEntry, Keys, Notes, agree};
use std::alloc::{AllocError, Global};
use std::process::Abort;
use std::test::Fail;
use std::thread;

/// The keys of FIPS 197, A.1 to A.3.
const KEY_128: [u8; 16] = [
    0x2b, 0x7e, 0x15, 0x16, 0x28, 0xae, 0xd2, 0xa6, 0xab, 0xf7, 0x15, 0x88, 0x09, 0xcf, 0x4f, 0x3c,
];

const KEY_192: [u8; 24] = [
    0x8e, 0x73, 0xb0, 0xf7, 0xda, 0x0e, 0x64, 0x52, 0xc8, 0x10, 0xf3, 0x2b, 0x80, 0x90, 0x79, 0xe5,
    0x62, 0xf8, 0xea, 0xd2, 0x52, 0x2c, 0x6b, 0x7b,
];

const KEY_256: [u8; 32] = [
    0x60, 0x3d, 0xeb, 0x10, 0x15, 0xca, 0x71, 0xbe, 0x2b, 0x73, 0xae, 0xf0, 0x85, 0x7d, 0x77, 0x81,
    0x1f, 0x35, 0x2c, 0x07, 0x3b, 0x61, 0x08, 0xd7, 0x2d, 0x98, 0x10, 0xa3, 0x09, 0x14, 0xdf, 0xf4,
];

/// The last round keys of these keys' schedules, from the same examples.
const LAST_128: [u8; 16] = [
    0xd0, 0x14, 0xf9, 0xa8, 0xc9, 0xee, 0x25, 0x89, 0xe1, 0x3f, 0x0c, 0xc8, 0xb6, 0x63, 0x0c, 0xa6,
];

const LAST_192: [u8; 16] = [
    0xe9, 0x8b, 0xa0, 0x6f, 0x44, 0x8c, 0x77, 0x3c, 0x8e, 0xcc, 0x72, 0x04, 0x01, 0x00, 0x22, 0x02,
];

const LAST_256: [u8; 16] = [
    0xfe, 0x48, 0x90, 0xd1, 0xe6, 0x18, 0x8d, 0x0b, 0x04, 0x6d, 0xf3, 0x44, 0x70, 0x6c, 0x63, 0x1e,
];

/// A session for each of the three keys.
fn three_sessions(alloc: Global) -> Result<Keys, AllocError>
    ensures { IfOk result (λ k. length k ≡ 3) }
{
    let mut list = Vec::new(alloc);
    list.push(KEY_128.to_vec(alloc)?)?;
    list.push(KEY_192.to_vec(alloc)?)?;
    list.push(KEY_256.to_vec(alloc)?)?;
    Keys::new(alloc, list)
}

fn check_entry(rt: &impl Abort, entry: &KeyEntry, key: &[u8], last: &[u8; 16]) {
    assert!(rt; entry.key.as_slice() == key);
    assert!(rt; entry.has_key(key));
    let rounds = entry.schedule.rounds();
    assert!(rt; entry.schedule.round_key(rounds) == *last);
}

#[test]
fn a_session_is_learnt_on_its_own(rt: HostRuntime) -> Result<(), Fail> {
    let alloc = rt.alloc();
    let keys = three_sessions(alloc)?;
    assert_eq!(rt; keys.count(), 3);
    assert!(rt; keys.key(1) == KEY_192.as_slice());
    let mut notes = Notes::new(alloc, &keys)?;
    assert!(rt; !notes.knows(0) && !notes.knows(1) && !notes.knows(2));
    keys.learn(alloc, &mut notes, 1)?;
    assert!(rt; !notes.knows(0) && notes.knows(1) && !notes.knows(2));
    assert!(rt; !notes.knows(3) && !notes.knows(u32::MAX));
    check_entry(&rt, keys.entry(&mut notes, 1), &KEY_192, &LAST_192);
    keys.learn(alloc, &mut notes, 1)?;
    check_entry(&rt, keys.entry(&mut notes, 1), &KEY_192, &LAST_192);
    Ok(())
}

#[test]
fn all_sessions_are_learnt(rt: HostRuntime) -> Result<(), Fail> {
    let alloc = rt.alloc();
    let keys = three_sessions(alloc)?;
    let mut notes = Notes::new(alloc, &keys)?;
    keys.learn_all(alloc, &mut notes)?;
    check_entry(&rt, keys.entry(&mut notes, 0), &KEY_128, &LAST_128);
    check_entry(&rt, keys.entry(&mut notes, 1), &KEY_192, &LAST_192);
    check_entry(&rt, keys.entry(&mut notes, 2), &KEY_256, &LAST_256);
    Ok(())
}

/// No schedule is found for this session and key.
fn check_miss(rt: &impl Abort, keys: &Keys, notes: &mut Notes, session: Option<u32>, key: &[u8])
    requires { AreOf keys.now notes.old }
    ensures { notes.new ≡ notes.old }
{
    assert!(rt; keys.schedule_for(notes, session, key).is_none());
}

#[test]
fn a_schedule_is_found_for_its_key_alone(rt: HostRuntime) -> Result<(), Fail> {
    let alloc = rt.alloc();
    let keys = three_sessions(alloc)?;
    let mut notes = Notes::new(alloc, &keys)?;
    keys.learn(alloc, &mut notes, 0)?;
    let found = keys
        .schedule_for(&mut notes, Some(0), &KEY_128)
        .ok_or("found")?;
    assert!(rt; found.rounds() == 10 && found.round_key(10) == LAST_128);
    let mut last_byte_differs = KEY_128;
    last_byte_differs[15] ^= 1;
    check_miss(&rt, &keys, &mut notes, Some(0), &last_byte_differs);
    check_miss(&rt, &keys, &mut notes, Some(0), &KEY_128[..15]);
    check_miss(&rt, &keys, &mut notes, Some(0), &KEY_192);
    check_miss(&rt, &keys, &mut notes, Some(1), &KEY_192);
    check_miss(&rt, &keys, &mut notes, Some(3), &KEY_128);
    check_miss(&rt, &keys, &mut notes, None, &KEY_128);
    Ok(())
}

/// Notes that know session 0.
fn learnt(alloc: Global, keys: &Keys) -> Result<Notes, AllocError>
    requires { 0 < length keys.now }
    ensures notes { IfOk result (λ n. AreOf keys.now n) }
    ensures learnt { IfOk result (λ n. IsSome (entry_of n 0)) }
{
    let mut notes = Notes::new(alloc, keys)?;
    keys.learn(alloc, &mut notes, 0)?;
    Ok(notes)
}

#[test]
fn two_threads_learn_one_entry(rt: HostRuntime) -> Result<(), Fail> {
    let alloc = rt.alloc();
    let keys = three_sessions(alloc)?;
    let shared = &keys;
    let (one, other) = thread::join(
        &rt,
        move || -> Result<Notes, AllocError>
            requires { 0 < length shared.now }
            ensures notes { IfOk result (λ n. AreOf shared.entry.now n) }
            ensures learnt { IfOk result (λ n. IsSome (entry_of n 0)) }
        { learnt(alloc, shared) },
        move || -> Result<Notes, AllocError>
            requires { 0 < length shared.now }
            ensures notes { IfOk result (λ n. AreOf shared.entry.now n) }
            ensures learnt { IfOk result (λ n. IsSome (entry_of n 0)) }
        { learnt(alloc, shared) },
    );
    let (mut one, mut other) = (one?, other?);
    assert!(rt; one.knows(0) && other.knows(0) && !one.knows(1));
    agree(&keys, &mut one, &mut other, 0);
    let first = keys.entry(&mut one, 0);
    let second = keys.entry(&mut other, 0);
    check_entry(&rt, first, &KEY_128, &LAST_128);
    check_entry(&rt, second, &KEY_128, &LAST_128);
    for r in 0..11u32 {
        assert!(rt; first.schedule.round_key(r) == second.schedule.round_key(r));
    }
    Ok(())
}
