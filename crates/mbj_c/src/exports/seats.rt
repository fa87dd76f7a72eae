//! Seats of a front that threads share: submitters post jobs and collect their results, and every seat's turns do jobs of all.
ghost use Rattle.std.specs.Prelude.{◌≡◌, ◌≢◌, None, Ok, is_some, map};
ghost use Rattle.mbj_c.specs.Bursts.{IsBurstTaken};
ghost use Rattle.mbj_c.specs.Codes.{code_by, code_of, refusal_code};
ghost use Rattle.mbj_c.specs.SeatBursts.{IsBurstCollected, post_behind};
ghost use Rattle.mbj_c.specs.Seats.{ClaimsIn, IsCollected, IsSettled, KeepsJobsIn, front_refusal, hand_in, out_in, posted, seats_made};
ghost use Rattle.mbj_c.specs.declared.refusal.Refusal.TheVariants.{Memory};

use crate::bursts::RawBurst;
use crate::giving::RawDone;
use crate::job::RawJob;
use crate::key_handle::KeysHandle;
use crate::refusal::code;
use crate::seat_handle::SeatHandle;
use crate::{fronts, seat_bursts, seat_calls};
use std::alloc::Global;

/// Makes a front, and puts a seat of each of its parties into the first places, in the order of their numbers, submitters first. It takes
/// all the memory of the front and of the managers of its parties. If `keys` has a set, all parties share it.
///
/// Returns 0, or the code of a refusal: `SeatCount` exactly where there are not 1 to 16 submitters and at most 16 workers; else `NoRoom`
/// exactly where there are fewer places than parties; else `HasSeat` exactly where one of these places has a seat already; else
/// `Memory` for want of memory. A refused call changes nothing.
#[unsafe(no_mangle)]
pub extern "C" fn mbj_c_front_new(
    alloc: Global,
    submitters: u32,
    workers: u32,
    keys: &mut KeysHandle,
    places: &mut [SeatHandle],
) -> u32
    ensures want_of_memory { result ≡ refusal_code Memory → front_refusal submitters workers (map (λ p. p.seat) places.old) ≡ None }
    ensures answer { result ≢ refusal_code Memory → result ≡ code_by (front_refusal submitters workers (map (λ p. p.seat) places.old)) }
    ensures made { result ≡ 0 → map (λ p. p.seat) places.new ≡ seats_made submitters workers (map (λ p. p.seat) places.old) }
    ensures unchanged { result ≢ 0 → map (λ p. p.seat) places.new ≡ map (λ p. p.seat) places.old }
    ensures same { keys.new.keys ≡ keys.old.keys }
{
    code(fronts::make(alloc, submitters, workers, keys, places))
}

/// Posts a copy of C's job, for whichever party claims it. Its result is then due to this seat.
///
/// Returns 0, or the code of a refusal: `NoSeat` exactly where there is no seat; else `NotSubmitter` exactly where it is a worker's; else
/// `Full` exactly where 512 of its jobs are out; else `Word` exactly where a code is no cipher, direction, order or authentication; else
/// `Memory` for want of memory. A refused call changes nothing.
#[unsafe(no_mangle)]
pub extern "C" fn mbj_c_post(alloc: Global, handle: &mut SeatHandle, raw: &RawJob<'_>) -> u32
    ensures want_of_memory { result ≡ refusal_code Memory → (posted raw.now handle.old.seat).0 ≡ Ok tt }
    ensures unchanged { result ≡ refusal_code Memory → handle.new.seat ≡ handle.old.seat }
    ensures answer { result ≢ refusal_code Memory → result ≡ code_of (posted raw.now handle.old.seat).0 }
    ensures state { result ≢ refusal_code Memory → handle.new.seat ≡ (posted raw.now handle.old.seat).1 }
{
    code(seat_calls::post(alloc, handle, raw))
}

/// Gives the result of the seat's earliest job that is out, if that is finished. It waits for nobody.
///
/// Returns true exactly where it gives one, which is then written whole, with the range of its own packet; else `out` stays as it was.
/// `refusal` is 0, or the code of a refusal: `NoSeat` exactly where there is no seat; else `NotSubmitter` exactly where it is a worker's;
/// else `NoRoom` exactly where a job is out and the room for bytes is shorter than its range, or the room for the tag is under 64
/// bytes. A refused call changes nothing.
#[unsafe(no_mangle)]
pub extern "C" fn mbj_c_collect(
    alloc: Global,
    handle: &mut SeatHandle,
    out: &mut RawDone<'_>,
    refusal: &mut u32,
) -> bool
    ensures { IsCollected handle.old.seat handle.new.seat result refusal.new out.old out.new }
{
    seat_calls::collect(alloc, handle, out, refusal)
}

/// Hunts for jobs of all submitters and claims up to 32, which go into the seat's hand; lanes that are full run, and results that are
/// finished are handed to their submitters. It waits for nobody. Returns how many jobs it claimed: 0 if there is no seat.
#[unsafe(no_mangle)]
pub extern "C" fn mbj_c_turn(alloc: Global, handle: &mut SeatHandle) -> u32
    ensures claims { ClaimsIn result handle.old.seat handle.new.seat }
    ensures jobs { KeepsJobsIn handle.old.seat handle.new.seat }
{
    seat_calls::turn(alloc, handle)
}

/// Finishes the first job in the hand, and hands its result to its submitter; lanes run for it that are not full. Returns false exactly
/// if there is no seat or its hand is empty; nothing changes then.
#[unsafe(no_mangle)]
pub extern "C" fn mbj_c_settle(alloc: Global, handle: &mut SeatHandle) -> bool
    ensures settled { IsSettled result handle.old.seat handle.new.seat }
    ensures jobs { KeepsJobsIn handle.old.seat handle.new.seat }
{
    seat_calls::settle(alloc, handle)
}

/// How many jobs are in the seat's hand, claimed and not finished, at most 512: 0 if there is no seat.
#[unsafe(no_mangle)]
pub extern "C" fn mbj_c_hand(alloc: Global, handle: &mut SeatHandle) -> u32
    ensures hand { result ≡ hand_in handle.old.seat }
    ensures same { handle.new.seat ≡ handle.old.seat }
{
    seat_calls::hand(alloc, handle)
}

/// How many of the seat's own jobs are out, posted and their results not collected, at most 512: 0 if there is no seat, and for a
/// worker's.
#[unsafe(no_mangle)]
pub extern "C" fn mbj_c_out(alloc: Global, handle: &mut SeatHandle) -> u32
    ensures out { result ≡ out_in handle.old.seat }
    ensures same { handle.new.seat ≡ handle.old.seat }
{
    seat_calls::out(alloc, handle)
}

/// Settles the seat's hand, so that no job of others is lost, and frees the seat. The front is freed with its last seat. Results of the
/// seat's own jobs that are out are lost. Returns false exactly where there is no seat.
#[unsafe(no_mangle)]
pub extern "C" fn mbj_c_seat_free(alloc: Global, handle: &mut SeatHandle) -> bool
    ensures freed { result ≡ is_some handle.old.seat }
    ensures empty { handle.new.seat ≡ None }
{
    seat_calls::free(alloc, handle)
}

/// Posts jobs with copies of C's, one after another, as `mbj_c_post` posts one. Returns how many are posted, and writes to each job's place
/// among the refusals 0, or the code of a refusal, as `mbj_c_post` returns it. A job that is refused is left out, and the jobs behind it are
/// posted. If there are fewer places than jobs, the jobs without a place are left out.
#[unsafe(no_mangle)]
pub extern "C" fn mbj_c_post_burst(
    alloc: Global,
    handle: &mut SeatHandle,
    jobs: &[RawJob<'_>],
    refusals: &mut [u32],
) -> usize
    ensures { IsBurstTaken post_behind jobs.now refusals.old refusals.new handle.old.seat result handle.new.seat }
{
    seat_bursts::post(alloc, handle, jobs, refusals)
}

/// Makes `mbj_c_collect` as many times as there is room for a result, one after another. The results that are given go to the rooms in
/// order, the first one to the first room; rooms behind them stay as they were.
#[unsafe(no_mangle)]
pub extern "C" fn mbj_c_collect_burst(
    alloc: Global,
    handle: &mut SeatHandle,
    outs: &mut [RawDone<'_>],
    returned: &mut RawBurst,
)
    ensures { IsBurstCollected handle.old.seat outs.old returned.new outs.new handle.new.seat }
{
    seat_bursts::collect(alloc, handle, outs, returned);
}
