ghost use Rattle.mbj_front.specs.Rule.{Rule, root};

use crate::place::{Place, Size};
use crate::results::Results;
use crate::slot::Slot;
use atomic_table::TableRule;
use std::marker::PhantomData;

/// What holds of a front's table between any two steps: its words, its slots and what its seats know show a lawful
/// state of the front.
pub struct FrontRule<R> {
    results: PhantomData<R>,
}

impl<J, D, R: Results<J, D>> TableRule<Slot<J, D>, Place<D>, Size> for FrontRule<R> {
    ghost holds = { λ size. Rule R.owed size.submitters size.workers };

    ghost first = { λ size. root size.submitters size.workers 0 };
}
