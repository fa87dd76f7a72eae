ghost use Rattle.std.specs.Prelude.{◌≡◌, ◌*◌, ◌≤◌};
ghost use Rattle.mbj_core.specs.declared.cells.TheConstants.{MAX_SUBMITTERS, SUBMITTER_CELLS};

use crate::place::{Place, Size};
use crate::results::Results;
use crate::rule::FrontRule;
use crate::slot::Slot;
use atomic_table::Table;
use std::alloc::Global;

/// Submitters, each with `SUBMITTER_CELLS` cells, and workers, who may run in threads of their own. Job `n` of submitter
/// `s`, counted from 0, has cell `SUBMITTER_CELLS * s + n % SUBMITTER_CELLS`. Every party may claim jobs and finish them.
///
/// `J` are the jobs, `D` the results, and `R` says which result a job has.
///
/// ```
/// let at_first = front.scan(third, cell);
/// front.open_cell(owner);
/// let opened = front.scan(third, cell);
/// front.publish(owner, job);
/// let published = front.scan(third, cell);
/// [at_first, opened, published]
/// ```
#[derive(Drop)]
pub struct SharedFront<J, D, R: Results<J, D>> {
    pub(crate) table: Table<Slot<J, D>, Place<D>, Size, FrontRule<R>, Global>,
    pub(crate) submitters: u32,
    pub(crate) ghost wide: { table.shared.table_id.words ≡ SUBMITTER_CELLS * submitters },
    pub(crate) ghost submitters_are: { table.shared.key.submitters ≡ submitters },
    pub(crate) ghost some_submitter: { 1 ≤ submitters },
    pub(crate) ghost few_submitters: { submitters ≤ MAX_SUBMITTERS },
}
