//! The schedule of the key of a job's cipher.

ghost use Rattle.std.specs.Prelude.{◌≡◌, length};
ghost use Rattle.std.specs.Bool.{OnTrue};
ghost use Rattle.mbj_types.specs.Verdict.{verdict};
ghost use Rattle.mbj_aes.specs.Bytes.{IsKeySize};
ghost use Rattle.mbj_keys.specs.Schedules.{IsScheduleOf};
ghost use Rattle.mbj_stage.specs.Keys.{needs_schedule, uses_key, keeps_schedule};
ghost use Rattle.mbj_stage.specs.Inside.Kept.{HasSchedule};

use mbj_aes::Schedule;
use mbj_types::{Cipher, Dir, Job, Reason};

/// Whether the key is used, if the job is refused for this reason or for none.
pub(crate) fn uses_key(reason: Option<Reason>, job: &Job) -> bool
    ensures { result ≡ uses_key reason job.now.cipher }
{
    match (reason, job.cipher) {
        (Some(_), _) | (None, Cipher::Null) => false,
        (None, Cipher::Cbc | Cipher::Ctr | Cipher::Gcm | Cipher::Ccm) => true,
    }
}

/// Whether an accepted job needs the schedule. Lanes expand the key of CBC encryption.
fn needs_schedule(job: &Job) -> bool
    ensures { result ≡ needs_schedule job.now.cipher job.now.dir }
{
    match (job.cipher, job.dir) {
        (Cipher::Null, _) | (Cipher::Cbc, Dir::Enc) => false,
        (Cipher::Cbc, Dir::Dec) | (Cipher::Ctr | Cipher::Gcm | Cipher::Ccm, _) => true,
    }
}

/// Whether the job needs the schedule, if it is refused for this reason or for none.
pub(crate) fn keeps_schedule(reason: Option<Reason>, job: &Job) -> bool
    requires { reason ≡ verdict job.now }
    ensures wants { result ≡ keeps_schedule reason job.now.cipher job.now.dir }
    ensures size { OnTrue result (IsKeySize (length job.now.key)) }
{
    match reason {
        Some(_) => false,
        None => needs_schedule(job),
    }
}

/// The schedule of a key.
pub(crate) fn expanded(key: &[u8]) -> Schedule
    requires { IsKeySize (length key.now) }
    ensures { IsScheduleOf key.now result }
{
    Schedule::expand(key)
}

/// The schedule that is at hand.
pub(crate) fn at_hand<'a>(schedule: &'a Option<Schedule>, job: &Job) -> &'a Schedule
    requires { HasSchedule job.now schedule.now }
    ensures { IsScheduleOf job.now.key result.now }
{
    match schedule {
        Some(schedule) => schedule,
        None => unreachable!(),
    }
}
