//! The calls of a seat's handle, which the exports make.
ghost use Rattle.std.specs.Prelude.{◌≡◌, [], None, is_some};
ghost use Rattle.mbj_c.specs.Inside.Answers.{IsDone};
ghost use Rattle.mbj_c.specs.Seats.{ClaimsIn, IsCollected, IsSettled, KeepsJobsIn, hand_in, out_in, posted};

use crate::giving::RawDone;
use crate::job::RawJob;
use crate::refusal::Refusal;
use crate::seat_handle::SeatHandle;
use crate::seated::Seated;
use std::alloc::Global;

/// Posts a copy of C's job.
pub(crate) fn post(alloc: Global, handle: &mut SeatHandle, raw: &RawJob<'_>) -> Result<(), Refusal>
    ensures { IsDone (posted raw.now handle.old.seat) handle.old.seat result handle.new.seat }
{
    let Some(mut seat) = handle.take(alloc) else {
        return Err(Refusal::NoSeat);
    };
    let answer = seat.post(raw);
    handle.put(seat);
    answer
}

/// Collects the earliest result that is due, if it is there.
pub(crate) fn collect(
    alloc: Global,
    handle: &mut SeatHandle,
    out: &mut RawDone<'_>,
    refusal: &mut u32,
) -> bool
    ensures { IsCollected handle.old.seat handle.new.seat result refusal.new out.old out.new }
{
    let Some(mut seat) = handle.take(alloc) else {
        *refusal = Refusal::NoSeat.code();
        return false;
    };
    let is_given = seat.collect(out, refusal);
    handle.put(seat);
    is_given
}

/// Makes a turn. Returns how many jobs it claimed: 0 if there is no seat.
pub(crate) fn turn(alloc: Global, handle: &mut SeatHandle) -> u32
    ensures claims { ClaimsIn result handle.old.seat handle.new.seat }
    ensures jobs { KeepsJobsIn handle.old.seat handle.new.seat }
{
    let Some(mut seat) = handle.take(alloc) else {
        return 0;
    };
    let claimed = seat.turn();
    handle.put(seat);
    claimed
}

/// Settles the first job in the hand. Returns whether there was one.
pub(crate) fn settle(alloc: Global, handle: &mut SeatHandle) -> bool
    ensures settled { IsSettled result handle.old.seat handle.new.seat }
    ensures jobs { KeepsJobsIn handle.old.seat handle.new.seat }
{
    let Some(mut seat) = handle.take(alloc) else {
        return false;
    };
    let settled = seat.settle();
    handle.put(seat);
    settled
}

/// How many jobs are in the hand: none if there is no seat.
pub(crate) fn hand(alloc: Global, handle: &mut SeatHandle) -> u32
    ensures hand { result ≡ hand_in handle.old.seat }
    ensures same { handle.new.seat ≡ handle.old.seat }
{
    match handle.take(alloc) {
        Some(seat) => {
            let hand = seat.hand();
            handle.put(seat);
            hand
        }
        None => 0,
    }
}

/// How many of its own jobs are out: none if there is no seat.
pub(crate) fn out(alloc: Global, handle: &mut SeatHandle) -> u32
    ensures out { result ≡ out_in handle.old.seat }
    ensures same { handle.new.seat ≡ handle.old.seat }
{
    match handle.take(alloc) {
        Some(seat) => {
            let out = seat.out();
            handle.put(seat);
            out
        }
        None => 0,
    }
}

/// Frees a seat whose hand is empty, so that no job of others is lost.
fn leave(seat: Box<Seated>)
    requires { seat.value.part.hand ≡ [] }
{
    drop(seat);
}

/// Settles the seat's hand, and frees the seat. Returns whether there was one.
pub(crate) fn free(alloc: Global, handle: &mut SeatHandle) -> bool
    ensures freed { result ≡ is_some handle.old.seat }
    ensures empty { handle.new.seat ≡ None }
{
    let Some(mut seat) = handle.take(alloc) else {
        return false;
    };
    seat.settle_all();
    leave(seat);
    true
}
