ghost use Rattle.std.specs.Prelude.{◌≡◌, ◌+◌, ◌*◌, ◌<◌, ◌≤◌, IfNone, IfSome, None, Some, option_map};
ghost use Rattle.std.specs.Bool.{OnFalse, OnTrue};
ghost use Rattle.mbj_types.specs.declared.job.Job.{Job};
ghost use Rattle.mbj_core.specs.Cells.{cell_of};
ghost use Rattle.mbj_core.specs.CoreStates.{HasHand, HasJob, jobs_out};
ghost use Rattle.mbj_core.specs.Events.{carried_out, finish};
ghost use Rattle.mbj_core.specs.Stands.{Leads};
ghost use Rattle.mbj_core.specs.declared.cells.TheConstants.{SUBMITTER_CELLS};
ghost use Rattle.mbj_replay.specs.Inside.Claiming.{ClaimsAt};
ghost use Rattle.mbj_replay.specs.Inside.Giving.{core_after};
ghost use Rattle.mbj_replay.specs.Replay.{cells_out, first_ready};

use mbj_core::{Core, SUBMITTER_CELLS};
use mbj_types::Done;

/// The party of a worker.
pub(crate) fn party_of(core: &Core, w: u32) -> u32
    requires { w < core.now.workers }
    ensures { result ≡ core.now.submitters + w }
{
    let workers = core.workers();
    prove!(w < workers);
    core.submitters() + w
}

/// The cell of a submitter's job that is `count` behind its earliest one that is out.
pub(crate) fn cell_behind(core: &Core, s: u32, count: u32) -> u32
    requires submitter { s < core.now.submitters }
    requires count { count ≤ SUBMITTER_CELLS }
    ensures cell { result ≡ cell_of s ((jobs_out core.now s).first + count) }
    ensures within { result < SUBMITTER_CELLS * core.now.submitters }
{
    let submitters = core.submitters();
    prove!(s < submitters);
    SUBMITTER_CELLS * s + (core.first_cell(s) + count) % SUBMITTER_CELLS
}

/// Claims the job of a cell for a party. `false` exactly where the cell isn't ready; then nothing changes.
fn try_claim(core: &mut Core, p: u32, cell: u32) -> bool
    requires party { p < core.old.submitters + core.old.workers }
    requires cell { cell < SUBMITTER_CELLS * core.old.submitters }
    ensures claimed { OnTrue result (ClaimsAt core.old p cell core.new) }
    ensures unready { OnFalse result ((job : Job) → ¬ HasJob core.old cell job) }
    ensures same { OnFalse result (core.new ≡ core.old) }
{
    match core.claim(p, cell) {
        Some(_job) => true,
        None => false,
    }
}

/// Claims the earliest job that a submitter has out and no party has claimed, and returns its cell. `None` exactly
/// if there is none; then nothing changes.
pub(crate) fn claim_earliest(core: &mut Core, p: u32, s: u32) -> Option<u32>
    requires party { p < core.old.submitters + core.old.workers }
    requires submitter { s < core.old.submitters }
    ensures claimed { IfSome result (λ cell. (c : ClaimsAt core.old p cell core.new)
        × (first_ready core.old (cells_out core.old s) ≡ Some (cell, c.job))) }
    ensures within { IfSome result (λ cell. cell < SUBMITTER_CELLS * core.old.submitters) }
    ensures none { IfNone result (first_ready core.old (cells_out core.old s) ≡ None) }
    ensures same { IfNone result (core.new ≡ core.old) }
{
    for count in 0..core.out(s) {
        let cell = cell_behind(core, s, count);
        if try_claim(core, p, cell) {
            return Some(cell);
        }
    }
    None
}

/// Finishes the job of a cell, if there is a result, and returns that cell.
pub(crate) fn finish_given(core: &mut Core, p: u32, given: Option<(u32, Done)>) -> Option<u32>
    requires party { p < core.old.submitters + core.old.workers }
    requires held { IfSome given (λ g. HasHand core.old g.0 p g.1) }
    ensures cell { result ≡ option_map (λ g. g.0) given }
    ensures core { core.new ≡ core_after p given core.old }
    ensures leads { IfSome given (λ g. Leads core.old (finish p g.0 g.1) carried_out core.new) }
{
    let (cell, done) = given?;
    core.finish(p, cell, done);
    Some(cell)
}
