ghost use Rattle.std.specs.Prelude.{◌≡◌, ◌+◌, ◌%◌, ◌^◌, ◌<◌, ◌∷◌, [], length, vec_len, IfSome};
ghost use Rattle.mbj_core.specs.declared.party.Phase.TheVariants.{Rest};
ghost use Rattle.mbj_core.specs.Parties.{new_party};
ghost use Rattle.mbj_front.specs.Seats.{view_of, IsSubmitter, IsOf, IsIssued, submitters_of, cells_of};
ghost use Rattle.mbj_front.specs.Views.{after_publish};

use mbj_core::{MAX_SUBMITTERS, MAX_WORKERS, SUBMITTER_CELLS};
use mbj_front::{Front, PartySeat, Results, SharedFront};
use std::alloc::{AllocError, Global};
use std::test::Fail;

/// A job is a number, and it is owed the next one.
struct Next;

impl Results<u32, u32> for Next {
    ghost owed = { λ n. (n + 1) % 2 ^ 32 };
}

type Numbers = SharedFront<u32, u32, Next>;

type Seat = PartySeat<u32, u32>;

/// What a job's way through a cell shows: the words of the cell at first and after open and publish, those that a third
/// party, a second claim and an early take find once it is claimed, those after finish, take and free, and the result.
type Seen = ([[u64; 3]; 3], u32);

/// A submitter posts a job in its next cell. Returns the words of the cell at first and after open and publish, as a third
/// party finds them.
fn post(front: &Numbers, owner: &mut Seat, third: &mut Seat, cell: u32, job: u32) -> [u64; 3]
    requires fronts { IsOf front.now owner.old × IsOf front.now third.old }
    requires rest { (view_of owner.old).phase ≡ Rest }
    requires submitter { (view_of owner.old).number < submitters_of front.now }
    requires none_out { length (view_of owner.old).due ≡ (view_of owner.old).handed }
    requires cell { cell < cells_of front.now }
    ensures fronts { IsOf front.now owner.new × IsOf front.now third.new }
    ensures owner { view_of owner.new ≡ after_publish (view_of owner.old) ((job + 1) % 2 ^ 32) }
    ensures third { view_of third.new ≡ record (view_of third.old) { looks = (view_of third.new).looks } }
{
    let at_first = front.scan(third, cell);
    front.open_cell(owner);
    let opened = front.scan(third, cell);
    front.publish(owner, job);
    let published = front.scan(third, cell);
    [at_first, opened, published]
}

/// A helper claims the job of a cell. Then a third party tries to claim it and the owner to take its result, in vain. Returns
/// the job, the word that the third party finds in between, and those that the two find.
fn claim(
    front: &Numbers,
    owner: &mut Seat,
    helper: &mut Seat,
    third: &mut Seat,
    cell: u32,
) -> Option<(u32, [u64; 3])>
    requires fronts { IsOf front.now owner.old × IsOf front.now helper.old × IsOf front.now third.old }
    requires rests { ((view_of owner.old).phase ≡ Rest) × ((view_of helper.old).phase ≡ Rest) × ((view_of third.old).phase ≡ Rest) }
    requires out { (view_of owner.old).handed < length (view_of owner.old).due }
    requires hand { (view_of helper.old).hand ≡ [] }
    requires cell { cell < cells_of front.now }
    ensures fronts { IsOf front.now owner.new × IsOf front.now helper.new × IsOf front.now third.new }
    ensures owner { IfSome result (λ _. view_of owner.new ≡ record (view_of owner.old) { looks = (view_of owner.new).looks }) }
    ensures helper { IfSome result (λ r. ((view_of helper.new).phase ≡ Rest)
        × ((view_of helper.new).hand ≡ (cell, (r.0 + 1) % 2 ^ 32) ∷ [])) }
    ensures third { IfSome result (λ _. view_of third.new ≡ record (view_of third.old) { looks = (view_of third.new).looks }) }
{
    let job = front.try_claim(helper, cell).ok()?;
    let in_hand = front.scan(third, cell);
    let missed_claim = front.try_claim(third, cell).err()?;
    let missed_take = front.try_take(owner).err()?;
    Some((job, [in_hand, missed_claim, missed_take]))
}

/// The helper finishes the cell, and the owner takes the result and frees the cell. Returns the result, and the word that a
/// third party finds after each.
fn finish(
    front: &Numbers,
    owner: &mut Seat,
    helper: &mut Seat,
    third: &mut Seat,
    cell: u32,
    done: u32,
) -> Option<(u32, [u64; 3])>
    requires fronts { IsOf front.now owner.old × IsOf front.now helper.old × IsOf front.now third.old }
    requires rests { ((view_of owner.old).phase ≡ Rest) × ((view_of helper.old).phase ≡ Rest) }
    requires out { (view_of owner.old).handed < length (view_of owner.old).due }
    requires hand { (view_of helper.old).hand ≡ (cell, done) ∷ [] }
    requires cell { cell < cells_of front.now }
    ensures fronts { IsOf front.now owner.new × IsOf front.now helper.new × IsOf front.now third.new }
    ensures rests { ((view_of helper.new).phase ≡ Rest) × IfSome result (λ _. (view_of owner.new).phase ≡ Rest) }
    ensures hand { (view_of owner.new).hand ≡ (view_of owner.old).hand }
    ensures third { view_of third.new ≡ record (view_of third.old) { looks = (view_of third.new).looks } }
{
    front.finish(helper, cell, done);
    let finished = front.scan(third, cell);
    let taken = front.try_take(owner).ok()?;
    let in_taking = front.scan(third, cell);
    front.free(owner);
    Some((taken, [finished, in_taking, front.scan(third, cell)]))
}

/// A submitter's job goes through its next cell, and a helper makes its result. A third party looks on.
fn goes_round(
    front: &Numbers,
    owner: &mut Seat,
    helper: &mut Seat,
    third: &mut Seat,
    job: u32,
) -> Option<Seen>
    requires fronts { IsOf front.now owner.old × IsOf front.now helper.old × IsOf front.now third.old }
    requires rests { ((view_of owner.old).phase ≡ Rest) × ((view_of helper.old).phase ≡ Rest) × ((view_of third.old).phase ≡ Rest) }
    requires submitter { IsSubmitter owner.old × ((view_of owner.old).number < submitters_of front.now) }
    requires none_out { length (view_of owner.old).due ≡ (view_of owner.old).handed }
    requires hand { (view_of helper.old).hand ≡ [] }
    ensures fronts { IsOf front.now owner.new × IsOf front.now helper.new × IsOf front.now third.new }
    ensures rests { IfSome result (λ _. ((view_of owner.new).phase ≡ Rest) × ((view_of helper.new).phase ≡ Rest)) }
    ensures owner { IfSome result (λ _. (view_of owner.new).hand ≡ (view_of owner.old).hand) }
    ensures third { IfSome result (λ _. view_of third.new ≡ record (view_of third.old) { looks = (view_of third.new).looks }) }
{
    let cell = owner.first_cell();
    let posted = post(front, owner, third, cell, job);
    let (claimed, in_hand) = claim(front, owner, helper, third, cell)?;
    let next = claimed.wrapping_add(1);
    let (done, finished) = finish(front, owner, helper, third, cell, next)?;
    Some(([posted, in_hand, finished], done))
}

/// The three seats of a new front of three parties, in their order.
fn three(front: &Numbers, mut seats: Vec<Seat>) -> Option<(Seat, Seat, Seat)>
    requires three { vec_len seats ≡ 3 }
    requires seats { IsIssued front.now seats.items }
    ensures first { IfSome result (λ t. IsOf front.now t.0 × (view_of t.0 ≡ new_party 0)) }
    ensures second { IfSome result (λ t. IsOf front.now t.1 × (view_of t.1 ≡ new_party 1)) }
    ensures third { IfSome result (λ t. IsOf front.now t.2 × (view_of t.2 ≡ new_party 2)) }
{
    let third = seats.pop()?;
    let second = seats.pop()?;
    let first = seats.pop()?;
    Some((first, second, third))
}

/// What two jobs show in turn: the first submitter's, which the worker does, and the second's, which the first does.
fn go_round(
    front: &Numbers,
    first: &mut Seat,
    second: &mut Seat,
    worker: &mut Seat,
) -> Option<[Seen; 2]>
    requires submitters { submitters_of front.now ≡ 2 }
    requires first { IsOf front.now first.old × (view_of first.old ≡ new_party 0) }
    requires second { IsOf front.now second.old × (view_of second.old ≡ new_party 1) }
    requires worker { IsOf front.now worker.old × (view_of worker.old ≡ new_party 2) }
{
    let one = goes_round(front, first, worker, second, 7)?;
    let two = goes_round(front, second, first, worker, 8)?;
    Some([one, two])
}

/// The same of the seats of a new front.
fn two_rounds(alloc: Global) -> Result<Option<[Seen; 2]>, AllocError> {
    let (front, seats) = Numbers::new(alloc, 2, 1)?;
    match three(&front, seats) {
        Some((mut first, mut second, mut worker)) => {
            Ok(go_round(&front, &mut first, &mut second, &mut worker))
        }
        None => Ok(None),
    }
}

#[test]
fn each_step_leaves_its_word(rt: HostRuntime) -> Result<(), Fail> {
    let one = ([[0, 3, 1], [10, 10, 10], [2, 5, 0]], 8);
    let two = ([[0, 6, 1], [4, 4, 4], [2, 8, 0]], 9);
    assert!(rt; two_rounds(rt.alloc())? == Some([one, two]));
    Ok(())
}

// The most parties: each seat is that of the party of its number.
#[test]
fn seats_come_in_the_order_of_the_parties(rt: HostRuntime) -> Result<(), Fail> {
    let (front, seats) = Numbers::new(rt.alloc(), MAX_SUBMITTERS, MAX_WORKERS)?;
    let cells = MAX_SUBMITTERS * SUBMITTER_CELLS;
    assert!(rt; front.cells() == cells && are_in_order(&seats));
    Ok(())
}

/// Whether there are 32 seats, each of the party of its number, with none of its jobs out.
fn are_in_order(seats: &[Seat]) -> bool {
    for (party, seat) in seats.iter().enumerate() {
        if seat.party() as usize != party || seat.out() != 0 {
            return false;
        }
    }
    seats.len() == 32
}

/// Takes a value that may cross to another thread.
fn cross<T: Send + Drop>(_value: T) {}

/// Takes a value that threads may share.
fn share<T: Sync>(_value: &T) {}

#[test]
fn a_front_is_shared_and_seats_cross_to_other_threads(rt: HostRuntime) -> Result<(), Fail> {
    let (front, seats) = Front::new(rt.alloc(), 1, 1)?;
    share(&front);
    cross(front);
    cross::<Vec<mbj_front::Seat>>(seats);
    Ok(())
}
