//! Cases that go through one list of lanes.
ghost use Rattle.std.specs.Prelude.{◌≡◌, ◌≤◌, IfOk};

use crate::compare::expect;
use mbj_aes::Schedule;
use mbj_lane::{Lanes, SlotKernel};
use std::alloc::{AllocError, Global};
use std::process::Abort;
use std::test::Fail;

/// No list is tried with more cases.
const MOST_CASES: usize = 16;

/// A kernel with cases, each of which tells what goes into a lane and what has to leave it.
pub(crate) trait Tried<C>: SlotKernel {
    /// The case's entry. The bytes around the text in its packet are the case's number.
    fn entry(
        rt: &impl Abort,
        alloc: Global,
        number: u8,
        case: &C,
    ) -> Result<Self::Entry, AllocError>
        ensures { IfOk result (λ e. 1 ≤ Self.rest_of e) };

    /// Compares an entry that has left the list with its case.
    fn check(rt: &impl Abort, cases: &[C], entry: Self::Entry);
}

/// The schedule of an AES key.
pub(crate) fn schedule_of(rt: &impl Abort, key: &[u8]) -> Schedule {
    assert!(rt; matches!(key.len(), 16 | 24 | 32));
    Schedule::expand(key)
}

/// A packet whose bytes around the message tell the case.
pub(crate) fn packet_of(alloc: Global, number: u8, message: &[u8]) -> Result<Vec<u8>, AllocError> {
    let mut packet = Vec::new(alloc);
    packet.push(number)?;
    packet.extend_from_slice(message)?;
    packet.push(number)?;
    Ok(packet)
}

/// The case that the bytes around a packet's text tell, and the text.
pub(crate) fn case_of<'a, C>(
    rt: &impl Abort,
    cases: &'a [C],
    packet: &'a [u8],
) -> (&'a C, &'a [u8]) {
    assert!(rt; packet.len() >= 2);
    let (number, last) = (packet[0], packet.len() - 1);
    expect(rt, "last byte", packet[last], number);
    assert!(rt; (number as usize) < cases.len());
    (&cases[number as usize], &packet[1..last])
}

/// An entry that has left the list has no round left.
pub(crate) fn expect_no_rest(rt: &impl Abort, rest: u32)
    ensures { rest ≡ 0 }
{
    assert_eq!(rt; rest, 0);
}

/// Puts a case in a lane.
fn enter<C, K: Tried<C>>(
    rt: &impl Abort,
    alloc: Global,
    number: u8,
    case: &C,
    lanes: &mut Lanes<K>,
) -> Result<(), AllocError> {
    assert!(rt; lanes.len() < K::LANES);
    lanes.enter(K::entry(rt, alloc, number, case)?);
    Ok(())
}

/// Puts cases in this many lanes, by turns.
fn enter_by_turns<C, K: Tried<C>>(
    rt: &impl Abort,
    alloc: Global,
    cases: &[C],
    many: usize,
    lanes: &mut Lanes<K>,
) -> Result<(), AllocError> {
    assert!(rt; 0 < cases.len() && cases.len() <= MOST_CASES);
    for i in 0..many {
        let number = i % cases.len();
        assert!(rt; number < cases.len());
        enter(rt, alloc, number as u8, &cases[number], lanes)?;
    }
    Ok(())
}

/// Compares an entry that is finished, or advances the entries.
fn step<C, K: Tried<C>>(rt: &impl Abort, cases: &[C], lanes: &mut Lanes<K>) {
    match lanes.take_finished() {
        Some(entry) => K::check(rt, cases, entry),
        None => {
            if lanes.len() > 0 {
                lanes.run_shortest();
            }
        }
    }
}

/// Runs this many entries of the cases in an empty list, and looks at what leaves it.
fn run_in<C, K: Tried<C>>(
    rt: &impl Abort,
    alloc: Global,
    cases: &[C],
    many: usize,
    lanes: &mut Lanes<K>,
) -> Result<(), Fail> {
    enter_by_turns(rt, alloc, cases, many, lanes)?;
    expect(rt, "entries", lanes.len() as usize, many);
    for _ in 0..40u32 {
        step(rt, cases, lanes);
    }
    expect(rt, "entries left", lanes.len(), 0);
    Ok(())
}

/// Runs the cases in one list, first each once, then by turns in all its lanes, and looks at what leaves it.
pub(crate) fn run_in_one_list<C, K: Tried<C>>(
    rt: &impl Abort,
    alloc: Global,
    cases: &[C],
) -> Result<(), Fail> {
    let mut lanes = Lanes::<K>::new(alloc)?;
    run_in(rt, alloc, cases, cases.len(), &mut lanes)?;
    run_in(rt, alloc, cases, K::LANES as usize, &mut lanes)
}
