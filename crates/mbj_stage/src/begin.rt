//! How the course of a job begins, and where it gets the schedule of the job's key.

ghost use Rattle.std.specs.Prelude.{◌≡◌, IfSome};
ghost use Rattle.mbj_types.specs.Result.{result_of};
ghost use Rattle.mbj_keys.specs.Schedules.{IsScheduleOf};
ghost use Rattle.mbj_keys.specs.Sessions.{AreOf};
ghost use Rattle.mbj_stage.specs.CourseState.{begun, owed};

use crate::course::Course;
use crate::keyed::{expanded, keeps_schedule};
use mbj_aes::Schedule;
use mbj_args::check;
use mbj_keys::{Keys, Notes};
use mbj_types::Job;

impl Course {
    /// The course of a job, with nothing done. The key of a job that is accepted and has a cipher is expanded, but for CBC encryption,
    /// whose lanes expand it.
    pub fn begin(job: Job) -> Course
        ensures begun { result ≡ begun job }
        ensures owed { owed result ≡ result_of job }
    {
        Course::begin_with(job, None)
    }

    /// The course of a job, with nothing done. If the job is accepted and needs the schedule of its key, the schedule is that of the
    /// entry of the job's session, if the notes know it and its key is the job's; else the key is expanded.
    pub fn begin_in(job: Job, keys: &Keys, notes: &mut Notes) -> Course
        requires { AreOf keys.now notes.old }
        ensures same { notes.new ≡ notes.old }
        ensures begun { result ≡ begun job }
        ensures owed { owed result ≡ result_of job }
    {
        let found = keys.schedule_for(notes, job.session, job.key.as_slice());
        Course::begin_with(job, found)
    }

    /// The course of a job, with nothing done. If the job is accepted and needs the schedule of its key, the schedule is the one that
    /// was found; if none was, the key is expanded.
    pub fn begin_with(job: Job, found: Option<&Schedule>) -> Course
        requires { IfSome found (λ s. IsScheduleOf job.key s.now) }
        ensures begun { result ≡ begun job }
        ensures owed { owed result ≡ result_of job }
    {
        Course::start_with(job, found)
    }

    fn start_with(job: Job, found: Option<&Schedule>) -> Course
        requires { IfSome found (λ s. IsScheduleOf job.key s.now) }
        ensures { result ≡ begun job }
    {
        let reason = check(&job);
        if !keeps_schedule(reason, &job) {
            return Course::start(job, reason, None);
        }
        let schedule = match found {
            Some(schedule) => *schedule,
            None => expanded(job.key.as_slice()),
        };
        Course::start(job, reason, Some(schedule))
    }

    /// Begins the course of its own job, whatever was done of it. If the job is accepted and needs the schedule of its key, the schedule
    /// is the one that was found; if none was, the key is expanded.
    pub fn begin_in_place(&mut self, found: Option<&Schedule>)
        requires { IfSome found (λ s. IsScheduleOf self.old.job.key s.now) }
        ensures begun { self.new ≡ begun self.old.job }
        ensures owed { owed self.new ≡ result_of self.old.job }
    {
        self.begin_over(found);
    }

    fn begin_over(&mut self, found: Option<&Schedule>)
        requires { IfSome found (λ s. IsScheduleOf self.old.job.key s.now) }
        ensures { self.new ≡ begun self.old.job }
    {
        let reason = check(self.job());
        self.restart(reason, found);
    }
}
