ghost use Rattle.std.specs.Prelude.{◌≡◌, [], ◌∷◌, None, true, length, is_some, IfSome};
ghost use Rattle.std.specs.Borrow.{sem};
ghost use Rattle.mbj_types.specs.Blank.{blank};
ghost use Rattle.mbj_types.specs.Verdict.{verdict, verdict_at};
ghost use Rattle.mbj_keys.specs.Schedules.{IsScheduleOf};
ghost use Rattle.mbj_stage.specs.declared.stage.Stage.TheVariants as stage;
ghost use Rattle.mbj_stage.specs.Steps.{stage_at, steps_in};
ghost use Rattle.mbj_stage.specs.Inside.Kept.{HasSchedule, IsStepOf};
ghost use Rattle.mbj_stage.specs.Keys.{needs_schedule, uses_key, keeps_schedule};
ghost use Rattle.mbj_stage.specs.CourseState.{IsIdle, stage_of, begun, packet_after, tag_after, ran, status_of, owed};

mod handing;

use crate::keyed::{at_hand, expanded, keeps_schedule, uses_key};
use crate::lengths::{Lengths, lengths_of};
use crate::stage::{Stage, Step, Steps, stage_of_step, steps_by};
use crate::{ccm, cipher, gcm, gmac};
use mbj_aes::Schedule;
use mbj_types::{Bytes, Done, Job, Reason, Status, Tag};
use std::alloc::Global;
use std::marker::Model;
use std::mem;

/// The reason that stands in an idle course, of which no stage is left, as in the course of a job that is refused.
const IDLE: Reason = Reason::PacketLong;

/// The course of one job: its stages one after another, each of which is done once.
///
/// The stages of a job that is accepted are its cipher's and its authentication's, in the job's order. A null cipher
/// or authentication has none, and GCM has one for both. CCM has two: its MAC over the plaintext, and its text with the mask of the
/// tag; a text that is sealed is authenticated first, and one that is opened is deciphered first. A job that is refused has none.
///
/// CBC encryption, CMAC, HMAC, digests and CCM's MAC are done in lanes: a call hands the packet out in an entry, and another one takes it
/// back once the entry's rounds are done. `run_now` does all else.
///
/// No call takes memory. The key of a cipher is expanded as the course begins, unless its schedule is found there. The keys of CBC
/// encryption and of CMAC are expanded in their lanes, and that of another authentication is prepared as its stage begins.
///
/// A course may be used for one job after another. While it is idle its job can be filled, and has no stage; `begin_in_place` begins the
/// course of that job, and `end` makes it idle again.
///
/// ```
/// let mut course = Course::begin(job);
/// 'stages: loop {
///     match course.next_stage() {
///         Stage::Now => course.run_now(),
///         Stage::Lane(kind) => do_lane(&mut course, kind),
///         Stage::Finished => return course.into_done(),
///     }
/// }
/// ```
#[derive(Drop)]
pub struct Course {
    job: Job,
    tag: Tag,
    // Why the job is refused; in a course that is idle IDLE, whatever the job is.
    reason: Option<Reason>,
    left: Steps,
    // The length of the packet while it is out.
    out: Option<usize>,
    lengths: Lengths,
    // Of the cipher's key, if the job is accepted and has a cipher, but for CBC encryption.
    schedule: Option<Schedule>,
}

impl Model for Course {
    ghost use Rattle.mbj_stage.specs.Steps.{steps_in};
    ghost use Rattle.mbj_stage.specs.CourseState.{CourseState};
    ghost use Rattle.mbj_stage.specs.Inside.Kept.{IsKept};

    ghost Value = { CourseState };

    ghost view = { λ c. record {
      job = c.job;
      tag = c.tag;
      reason = c.reason;
      left = steps_in c.left;
      out = c.out;
      lengths = c.lengths;
    } };

    ghost invariant = { λ c. IsKept c.job c.reason (steps_in c.left) c.out c.lengths c.schedule };
}

/// Does a step of an accepted job that is done at once.
fn run_step(step: Step, job: &Job, schedule: &Option<Schedule>, packet: &mut Vec<u8>, tag: &mut Tag)
    requires keyed { needs_schedule job.now.cipher job.now.dir ≡ true → HasSchedule job.now schedule.now }
    requires own { IsStepOf job.now step }
    requires now { stage_at job.now (step ∷ []) ≡ stage.Now }
    requires accepted { verdict_at job.now (length packet.old.items) ≡ None }
    ensures packet { packet.new.items ≡ packet_after step job.now packet.old.items }
    ensures len { length packet.new.items ≡ length packet.old.items }
    ensures tag { tag.new ≡ tag_after step job.now packet.old.items tag.old }
{
    match step {
        Step::Cipher => cipher::run(job, at_hand(schedule, job), packet.as_mut_slice()),
        Step::Auth => unreachable!(),
        Step::Gcm => *tag = gcm::run(job, at_hand(schedule, job), packet.as_mut_slice()),
        Step::CcmMac => unreachable!(),
        Step::CcmText => ccm::run(job, at_hand(schedule, job), packet.as_mut_slice(), tag),
        Step::Gmac => *tag = gmac::run(job, packet.as_slice()),
    }
}

/// Does a step of an accepted job that is done at once, on the job's own packet.
fn run_step_in(step: Step, job: &mut Job, schedule: &Option<Schedule>, tag: &mut Tag)
    requires keyed { needs_schedule job.old.cipher job.old.dir ≡ true → HasSchedule job.old schedule.now }
    requires own { IsStepOf job.old step }
    requires now { stage_at job.old (step ∷ []) ≡ stage.Now }
    requires accepted { verdict job.old ≡ None }
    ensures job { job.new ≡ record job.old { packet = packet_after step job.old job.old.packet } }
    ensures len { length job.new.packet ≡ length job.old.packet }
    ensures tag { tag.new ≡ tag_after step job.old job.old.packet tag.old }
{
    let mut packet = job.packet.take();
    run_step(step, job, schedule, &mut packet, tag);
    job.packet = Bytes::from_vec(packet);
}

/// How a job ends that is refused for this reason, or for none.
fn status(reason: Option<Reason>) -> Status
    ensures { result ≡ status_of reason }
{
    match reason {
        None => Status::Ok,
        Some(reason) => Status::InvalidArgs(reason),
    }
}

/// Keeps the schedule of a job's key, if the job needs one: the one that was found, or the expanded key if none was.
fn keep_schedule(
    kept: &mut Option<Schedule>,
    job: &Job,
    reason: Option<Reason>,
    found: Option<&Schedule>,
)
    requires reason { reason ≡ verdict job.now }
    requires found { IfSome found (λ s. IsScheduleOf job.now.key s.now) }
    ensures wanted { is_some kept.new ≡ keeps_schedule reason job.now.cipher job.now.dir }
    ensures schedule { IfSome kept.new (IsScheduleOf job.now.key) }
{
    if !keeps_schedule(reason, job) {
        forget(kept);
        return;
    }
    *kept = Some(match found {
        Some(schedule) => *schedule,
        None => expanded(job.key.as_slice()),
    });
}

/// Keeps no schedule. Nothing is written if there is none.
fn forget(kept: &mut Option<Schedule>)
    ensures { kept.new ≡ None }
{
    if kept.is_some() {
        *kept = None;
    }
}

impl Course {
    ghost use Rattle.mbj_stage.specs.CourseLends.{LendsJob};

    /// An idle course with a blank job. It takes no memory: the allocator is that of the job's empty bytes.
    pub fn blank(alloc: Global) -> Course
        ensures idle { IsIdle result }
        ensures job { result.job ≡ blank }
    {
        let job = Job::blank(alloc);
        let lengths = lengths_of(&job);
        Course {
            job,
            tag: Tag::from_slice(&[]),
            reason: Some(IDLE),
            left: Steps::Done,
            out: None,
            lengths,
            schedule: None,
        }
    }

    /// The course of a job, with nothing done, which is refused for this reason or for none. The schedule of its key is there if the job
    /// needs one.
    pub(crate) fn start(job: Job, reason: Option<Reason>, schedule: Option<Schedule>) -> Course
        requires reason { reason ≡ verdict job }
        requires wanted { is_some schedule ≡ keeps_schedule reason job.cipher job.dir }
        requires schedule { IfSome schedule (IsScheduleOf job.key) }
        ensures { result ≡ begun job }
    {
        let left = steps_by(reason, &job);
        let lengths = lengths_of(&job);
        Course {
            job,
            tag: Tag::from_slice(&[]),
            reason,
            left,
            out: None,
            lengths,
            schedule,
        }
    }

    /// The course of its own job, with nothing done, if the job is refused for this reason or for none. The schedule of the cipher's
    /// key, if the job needs one, is the one that was found; if none was, the key is expanded.
    pub(crate) fn restart(&mut self, reason: Option<Reason>, found: Option<&Schedule>)
        requires reason { reason ≡ verdict self.old.job }
        requires found { IfSome found (λ s. IsScheduleOf self.old.job.key s.now) }
        ensures { self.new ≡ begun self.old.job }
    {
        keep_schedule(&mut self.schedule, &self.job, reason, found);
        self.left = steps_by(reason, &self.job);
        self.lengths = lengths_of(&self.job);
        self.tag.clear();
        self.reason = reason;
        self.out = None;
    }

    /// Ends the course, which is idle then, and makes its job a blank one. Memory of at most `most` bytes is kept for each field of the
    /// job; longer memory is freed.
    pub fn end(&mut self, most: usize)
        ensures idle { IsIdle self.new }
        ensures job { self.new.job ≡ blank }
    {
        self.make_idle();
        self.job.clear(most);
    }

    /// Ends the course, which is idle then, and gives its job away; a blank one stands in its place. It takes no memory: the allocator
    /// is that of the blank job's empty bytes.
    pub fn end_giving(&mut self, alloc: Global) -> Job
        ensures idle { IsIdle self.new }
        ensures job { self.new.job ≡ blank }
        ensures given { result ≡ self.old.job }
    {
        self.make_idle();
        mem::replace(&mut self.job, Job::blank(alloc))
    }

    fn make_idle(&mut self)
        ensures idle { IsIdle self.new }
        ensures job { self.new.job ≡ self.old.job }
    {
        self.reason = Some(IDLE);
        self.left = Steps::Done;
        self.out = None;
        forget(&mut self.schedule);
    }

    /// The job. While its packet is out in an entry it has no packet, and while that is one of CCM's MAC no IV and data.
    pub fn job(&self) -> &Job
        ensures { result.now ≡ self.now.job }
    {
        &self.job
    }

    /// Lends the job of an idle course, to fill it. The course stays idle.
    pub fn job_mut(&mut self) -> &mut Job
        requires { IsIdle self.old }
        ensures* lends { sem 𝓛 (LendsJob self.entry result) }
        ensures value { result.now ≡ self.old.job }
    {
        &mut self.job
    }

    /// Whether the key of the job's cipher is used: it is where the job is accepted and has a cipher.
    pub fn uses_key(&self) -> bool
        ensures { result ≡ uses_key self.now.reason self.now.job.cipher }
    {
        uses_key(self.reason, &self.job)
    }

    /// What comes next: `Finished` exactly where no stage is left.
    pub fn next_stage(&self) -> Stage
        ensures { result ≡ stage_of self.now }
    {
        match self.left {
            Steps::Done => Stage::Finished,
            Steps::One(step) | Steps::Two(step, _) => stage_of_step(step, &self.job),
        }
    }

    /// Does the work of the next stage, and of no other. That stage is done at once.
    pub fn run_now(&mut self)
        requires { stage_of self.old ≡ stage.Now }
        ensures ran { self.new ≡ ran self.old }
        ensures owed { owed self.new ≡ owed self.old }
    {
        self.run();
    }

    fn run(&mut self)
        requires { stage_of self.old ≡ stage.Now }
        ensures { self.new ≡ ran self.old }
    {
        match self.left {
            Steps::Done => unreachable!(),
            Steps::One(step) => {
                run_step_in(step, &mut self.job, &self.schedule, &mut self.tag);
                self.left = Steps::Done;
            }
            Steps::Two(step, later) => {
                run_step_in(step, &mut self.job, &self.schedule, &mut self.tag);
                self.left = Steps::One(later);
            }
        }
    }

    /// How the job ended whose stages are all done.
    pub fn status(&self) -> Status
        requires { stage_of self.now ≡ stage.Finished }
        ensures { result ≡ (owed self.now).status }
    {
        status(self.reason)
    }

    /// The packet of a job whose stages are all done.
    pub fn packet(&self) -> &[u8]
        requires { stage_of self.now ≡ stage.Finished }
        ensures { result.now ≡ (owed self.now).packet }
    {
        self.job.packet.as_slice()
    }

    /// The tag of a job whose stages are all done.
    pub fn tag(&self) -> &Tag
        requires { stage_of self.now ≡ stage.Finished }
        ensures { result.now ≡ (owed self.now).tag }
    {
        &self.tag
    }

    /// Takes the result of a job whose stages are all done.
    pub fn take_done(&mut self) -> Done
        requires { stage_of self.old ≡ stage.Finished }
        ensures { result ≡ owed self.old }
    {
        Done {
            status: status(self.reason),
            packet: Bytes::from_vec(self.job.packet.take()),
            tag: mem::replace(&mut self.tag, Tag::from_slice(&[])),
        }
    }

    /// The result of a job whose stages are all done.
    pub fn into_done(mut self) -> Done
        requires { stage_of self ≡ stage.Finished }
        ensures { result ≡ owed self }
    {
        self.take_done()
    }
}
