ghost use Rattle.std.specs.Prelude.{◌≡◌};
ghost use Rattle.mbj_stage.specs.CourseState.{lengths_of};

use mbj_types::Job;

/// How long a job's IV and its additional data are, in bytes: what the course keeps of them while they are out in an entry.
#[derive(Clone, Copy)]
pub(crate) struct Lengths {
    pub(crate) iv: usize,
    pub(crate) aad: usize,
}

pub(crate) fn lengths_of(job: &Job) -> Lengths
    ensures { result ≡ lengths_of job.now }
{
    Lengths {
        iv: job.iv.as_slice().len(),
        aad: job.aad.as_slice().len(),
    }
}
