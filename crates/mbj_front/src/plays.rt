// What each step on the table tells the seat that makes it.
ghost use Rattle.std.specs.Prelude.{◌+◌};
ghost use Rattle.mbj_core.specs.Parties.{new_party};
ghost use Rattle.mbj_front.specs.Rule.{place, root};
ghost use Rattle.mbj_front.specs.Inside.Plays.{LookTells, ClaimTells, FinishTells, OpenTells, PublishTells, TakeTells, FreeTells};

use crate::place::Place;
use crate::results::Results;
use crate::slot::Slot;
use atomic_table::{Play, Split};
use std::marker::PhantomData;

/// A load.
pub(crate) struct Scan<R> {
    results: PhantomData<R>,
}

impl<J, D, R: Results<J, D>> Play<Slot<J, D>, Place<D>> for Scan<R> {
    ghost then = { LookTells R.owed };
}

/// From the word of a job to that of the party's hand.
pub(crate) struct Claim<R> {
    results: PhantomData<R>,
}

impl<J, D, R: Results<J, D>> Play<Slot<J, D>, Place<D>> for Claim<R> {
    ghost then = { ClaimTells R.owed };
}

/// From the word of the party's hand to that of a result.
pub(crate) struct Finish<R> {
    results: PhantomData<R>,
}

impl<J, D, R: Results<J, D>> Play<Slot<J, D>, Place<D>> for Finish<R> {
    ghost then = { FinishTells R.owed };
}

/// From the word of a free cell to that of one that the party fills.
pub(crate) struct Open<R> {
    results: PhantomData<R>,
}

impl<J, D, R: Results<J, D>> Play<Slot<J, D>, Place<D>> for Open<R> {
    ghost then = { OpenTells R.owed };
}

/// From the word of a cell that the party fills to that of a job.
pub(crate) struct Publish<R> {
    results: PhantomData<R>,
}

impl<J, D, R: Results<J, D>> Play<Slot<J, D>, Place<D>> for Publish<R> {
    ghost then = { PublishTells R.owed };
}

/// From the word of a result to that of a cell that the party empties.
pub(crate) struct Take<R> {
    results: PhantomData<R>,
}

impl<J, D, R: Results<J, D>> Play<Slot<J, D>, Place<D>> for Take<R> {
    ghost then = { TakeTells R.owed };
}

/// From the word of a cell that the party empties to that of a free cell.
pub(crate) struct Free<R> {
    results: PhantomData<R>,
}

impl<J, D, R: Results<J, D>> Play<Slot<J, D>, Place<D>> for Free<R> {
    ghost then = { FreeTells R.owed };
}

/// The next party is cut from the root.
pub(crate) struct Cut;

impl<D> Split<Place<D>> for Cut {
    ghost left = { λ p. root p.submitters p.workers (p.view.number + 1) };

    ghost right = { λ p. place p.submitters p.workers (new_party p.view.number) };
}
