ghost use Rattle.std.specs.Prelude.{◌≡◌, ◌⊎◌, ◌+◌, ◌≤◌, length};
ghost use Rattle.mbj_core.specs.Cells.{cell_of};
ghost use Rattle.mbj_core.specs.declared.cells.TheConstants.{SUBMITTER_CELLS};
ghost use Rattle.mbj_front.specs.Seats.{view_of, IsSubmitter};

use crate::seat::PartySeat;
use mbj_core::cell_at;

impl<J, D> PartySeat<J, D> {
    /// The party's number: submitter `p` is party `p`, and the workers come after the submitters.
    pub fn party(&self) -> u32
        ensures { result ≡ (view_of self.now).number }
    {
        self.party
    }

    /// How many of its own jobs are out: published, and their results not taken. 0 for a worker.
    pub fn out(&self) -> u32
        ensures out { length (view_of self.now).due ≡ (view_of self.now).handed + result }
        ensures within { result ≤ SUBMITTER_CELLS }
        ensures worker { IsSubmitter self.now ⊎ (result ≡ 0) }
    {
        self.out
    }

    /// The cell of a submitter's earliest job that is out, or of its next job if none is out.
    pub fn first_cell(&self) -> u32
        requires { IsSubmitter self.now }
        ensures { result ≡ cell_of (view_of self.now).number (view_of self.now).handed }
    {
        cell_at(self.party, self.first)
    }
}
