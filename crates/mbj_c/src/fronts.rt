//! Making a shared front with its seats.
ghost use Rattle.std.specs.Prelude.{◌≡◌, ◌+◌, ◌≤◌, ◌++◌, Some, IfOk, OnErr, OnOk, drop, is_some, length, map, take};
ghost use Rattle.std_alloc.specs.Arc.{arc_value};
ghost use Rattle.mbj_core.specs.declared.cells.TheConstants.{MAX_SUBMITTERS, MAX_WORKERS};
ghost use Rattle.mbj_core.specs.Parties.{new_party};
ghost use Rattle.mbj_front.specs.Seats.{IsIssued, IsOf, submitters_of, view_of};
ghost use Rattle.mbj_c.specs.Inside.Answers.{IsAnswerTo};
ghost use Rattle.mbj_c.specs.Seats.{are_counts, front_refusal, has_seat, new_seat, new_seats, seats_made};

use crate::key_handle::KeysHandle;
use crate::refusal::Refusal;
use crate::seat_handle::SeatHandle;
use crate::seated::Seated;
use mbj_core::{MAX_SUBMITTERS, MAX_WORKERS};
use mbj_front::{Front, Seat};
use mbj_keys::Keys;
use std::alloc::{AllocError, Global};
use std::collections::VecDeque;
use std::sync::Arc;

/// Whether a front may have so many submitters and workers.
fn are_counts(submitters: u32, workers: u32) -> bool
    ensures { result ≡ are_counts submitters workers }
{
    1 <= submitters && submitters <= MAX_SUBMITTERS && workers <= MAX_WORKERS
}

/// Whether the handle has a seat, which stays.
fn has_seat(alloc: Global, handle: &mut SeatHandle) -> bool
    ensures has { result ≡ is_some handle.old.seat }
    ensures same { handle.new.seat ≡ handle.old.seat }
{
    match handle.take(alloc) {
        Some(seat) => {
            handle.put(seat);
            true
        }
        None => false,
    }
}

/// Whether one of the first places has a seat. All stay.
fn have_seat(alloc: Global, places: &mut [SeatHandle], parties: usize) -> bool
    requires { parties ≤ length places.old }
    ensures has { result ≡ has_seat (take parties (map (λ p. p.seat) places.old)) }
    ensures same { map (λ p. p.seat) places.new ≡ map (λ p. p.seat) places.old }
{
    for place in 0..parties {
        if has_seat(alloc, &mut places[place]) {
            return true;
        }
    }
    false
}

/// A front that may have several owners, and the seats of its parties.
///
/// Returns `AllocError` for want of memory.
fn front(
    alloc: Global,
    submitters: u32,
    workers: u32,
) -> Result<(Arc<Front>, Vec<Seat>), AllocError>
    requires some { 1 ≤ submitters }
    requires submitters { submitters ≤ MAX_SUBMITTERS }
    requires workers { workers ≤ MAX_WORKERS }
    ensures count { IfOk result (λ f. length f.1.items ≡ submitters + workers) }
    ensures submitters { IfOk result (λ f. submitters_of (arc_value f.0) ≡ submitters) }
    ensures seats { IfOk result (λ f. IsIssued (arc_value f.0) f.1.items) }
{
    let (front, seats) = Front::new(alloc, submitters, workers)?;
    Ok((Arc::new(alloc, front)?, seats))
}

/// A share of the handle's keys, if it has a set.
///
/// Returns `AllocError` if the set has more owners than can be counted.
fn keys_of(alloc: Global, handle: &mut KeysHandle) -> Result<Option<Arc<Keys>>, AllocError>
    ensures same { handle.new.keys ≡ handle.old.keys }
{
    match handle.take(alloc) {
        Some(set) => {
            let share = set.share();
            handle.put(set);
            Ok(Some(share?.into_keys()))
        }
        None => Ok(None),
    }
}

/// The same share for one more owner.
///
/// Returns `AllocError` if it has more owners than can be counted.
fn share_of(keys: &Option<Arc<Keys>>) -> Result<Option<Arc<Keys>>, AllocError> {
    match keys {
        Some(keys) => Ok(Some(Arc::try_clone(keys)?)),
        None => Ok(None),
    }
}

/// A seat on the heap, of a party that has done nothing.
///
/// Returns `AllocError` for want of memory.
fn boxed(
    alloc: Global,
    front: &Arc<Front>,
    seat: Seat,
    keys: &Option<Arc<Keys>>,
) -> Result<Box<Seated>, AllocError>
    requires front { IsOf (arc_value front.now) seat }
    requires blank { view_of seat ≡ new_party (view_of seat).number }
    ensures { IfOk result (λ s. s.value ≡ new_seat (submitters_of (arc_value front.now)) (view_of seat).number) }
{
    let seated = Seated::new(alloc, Arc::try_clone(front)?, seat, share_of(keys)?)?;
    Ok(Box::new(alloc, seated)?)
}

/// The seats of a front on the heap, in the order of their numbers.
///
/// Returns `AllocError` for want of memory.
fn seated(
    alloc: Global,
    front: &Arc<Front>,
    seats: Vec<Seat>,
    keys: &Option<Arc<Keys>>,
) -> Result<VecDeque<Box<Seated>>, AllocError>
    requires { IsIssued (arc_value front.now) seats.items }
    ensures { IfOk result (λ v. map (λ b. b.value) v.items ≡ new_seats (submitters_of (arc_value front.now)) 0 (length seats.items)) }
{
    let mut left = VecDeque::from(seats);
    let mut made = Vec::new(alloc);
    while let Some(seat) = left.pop_front() {
        let seated = boxed(alloc, front, seat, keys)?;
        made.push(seated)?;
    }
    Ok(VecDeque::from(made))
}

/// Puts the seats into the first places, which have none.
fn put_all(places: &mut [SeatHandle], mut made: VecDeque<Box<Seated>>)
    requires { length made.items ≤ length places.old }
    ensures { map (λ p. p.seat) places.new ≡ map Some (map (λ b. b.value) made.items) ++ drop (length made.items) (map (λ p. p.seat) places.old) }
{
    let mut place = 0;
    while let Some(seat) = made.pop_front() {
        places[place].put(seat);
        place += 1;
    }
}

/// All seats of a new front, which share the handle's keys, if it has a set.
///
/// Returns `AllocError` for want of memory.
fn all_seats(
    alloc: Global,
    submitters: u32,
    workers: u32,
    keys: &mut KeysHandle,
) -> Result<VecDeque<Box<Seated>>, AllocError>
    requires some { 1 ≤ submitters }
    requires submitters { submitters ≤ MAX_SUBMITTERS }
    requires workers { workers ≤ MAX_WORKERS }
    ensures seats { IfOk result (λ v. map (λ b. b.value) v.items ≡ new_seats submitters 0 (submitters + workers)) }
    ensures same { keys.new.keys ≡ keys.old.keys }
{
    let keys = keys_of(alloc, keys)?;
    let (front, seats) = front(alloc, submitters, workers)?;
    seated(alloc, &front, seats, &keys)
}

/// Makes a front, and puts a seat of each of its parties into the first places.
pub(crate) fn make(
    alloc: Global,
    submitters: u32,
    workers: u32,
    keys: &mut KeysHandle,
    places: &mut [SeatHandle],
) -> Result<(), Refusal>
    ensures answer { IsAnswerTo (front_refusal submitters workers (map (λ p. p.seat) places.old)) result }
    ensures made { OnOk result (map (λ p. p.seat) places.new ≡ seats_made submitters workers (map (λ p. p.seat) places.old)) }
    ensures unchanged { OnErr result (map (λ p. p.seat) places.new ≡ map (λ p. p.seat) places.old) }
    ensures same { keys.new.keys ≡ keys.old.keys }
{
    if !are_counts(submitters, workers) {
        return Err(Refusal::SeatCount);
    }
    let parties = (submitters + workers) as usize;
    if places.len() < parties {
        return Err(Refusal::NoRoom);
    }
    if have_seat(alloc, places, parties) {
        return Err(Refusal::HasSeat);
    }
    let made = all_seats(alloc, submitters, workers, keys)?;
    put_all(places, made);
    Ok(())
}
