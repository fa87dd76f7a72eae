ghost use Rattle.std.specs.Prelude.{◌≡◌, [], ◌∷◌, ◌++◌};
ghost use Rattle.mbj_types.specs.Result.{result_of};
ghost use Rattle.mbj_work.specs.Feeding.{fed, results_given};

use mbj_manager::Manager;
use mbj_types::{Done, Job};

/// What a manager gave back when a job was given to it.
#[derive(Debug, Drop)]
pub struct Submitted {
    /// The earliest job, if no cell was left and it was flushed to make room.
    pub flushed: Option<Done>,
    /// What `Manager::submit` gave back.
    pub given: Option<Done>,
}

/// Gives a job to a manager. If its ring is full, the earliest job is flushed first.
pub fn submit_job(manager: &mut Manager, job: Job) -> Submitted
    ensures result { result ≡ (fed job manager.old).0 }
    ensures state { manager.new ≡ (fed job manager.old).1 }
    ensures order { results_given result ++ manager.new.owed ≡ manager.old.owed ++ result_of job ∷ [] }
{
    let flushed = manager.make_room();
    let given = manager.submit_job(job);
    Submitted { flushed, given }
}
