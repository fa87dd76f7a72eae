ghost use Rattle.std.specs.Prelude.{◌≡◌, ◌≢◌, ◌≤◌, None, Some, IfOk, IfSome, is_some, length, true};
ghost use Rattle.std.specs.Borrow.{sem};
ghost use Rattle.mbj_types.specs.Blank.{blank};
ghost use Rattle.mbj_lane.specs.Rounds.{end_of};
ghost use Rattle.mbj_keys.specs.Schedules.{IsScheduleOf};
ghost use Rattle.mbj_stage.specs.CourseState.{begun, owed, stage_of};
ghost use Rattle.mbj_stage.specs.Keys.{counts_expansion};
ghost use Rattle.mbj_stage.specs.Handing.{IsNext, IsOut, handed_out, taken_back};
ghost use Rattle.mbj_stage.specs.declared.stage.Stage.TheVariants as stage;
ghost use Rattle.mbj_manager.specs.Cells as cell;
ghost use Rattle.mbj_manager.specs.Cells.{IsFinished, IsGoing, IsOpen, course_in, job_in};
ghost use Rattle.mbj_manager.specs.Written.{range_in};
ghost use Rattle.mbj_manager.specs.Machine.Stages.{pending};
ghost use Rattle.mbj_manager.specs.Machine.Course.{in_lanes_next};
ghost use Rattle.mbj_manager.specs.Inside.Courses.{Follows};
ghost use Rattle.mbj_manager.specs.Inside.Leaving.{Gives};

use mbj_aes::Schedule;
use mbj_stage::{Course, JobKernel, Stage};
use mbj_types::{Done, Job, Status, Tag};
use std::alloc::{AllocError, Global};
use std::marker::Model;

/// What a cell holds, in memory of its own.
#[derive(Drop)]
pub struct CellContents {
    // The course, with its job, which is filled in it while the course is idle.
    pub(crate) course: Course,
    pub(crate) is_going: bool,
}

impl CellContents {
    /// Begins the course of the job that was filled. Returns whether the job's key is expanded for it alone.
    fn begin(&mut self, found: Option<&Schedule>) -> bool
        requires schedule { IfSome found (λ s. IsScheduleOf self.old.course.job.key s.now) }
        ensures course { self.new.course ≡ begun self.old.course.job }
        ensures going { self.new.is_going ≡ true }
        ensures expands { result ≡ counts_expansion (is_some found.entry) self.old.course.job }
    {
        self.course.begin_in_place(found);
        self.is_going = true;
        self.course.uses_key() && found.is_none()
    }
}

/// A cell of a manager: a job that is being filled, or the course of one that is submitted. It is made once, and used for one job after
/// another. If a cell is moved, its job stays where it is.
#[derive(Drop)]
pub struct Cell {
    contents: Box<CellContents>,
}

impl Model for Cell {
    ghost use Rattle.mbj_manager.specs.Cells.{Cell as CellState, cell_by};
    ghost use Rattle.mbj_manager.specs.Inside.Contents.{IsIdleWhileOpen};

    ghost Value = { CellState };

    ghost view = { λ c. cell_by c.contents.value.is_going c.contents.value.course.job c.contents.value.course };

    ghost invariant = { λ c. IsIdleWhileOpen c.contents.value.is_going c.contents.value.course };
}

/// Does the stages that finish at once. Returns what is next then.
fn run_nows(course: &mut Course) -> Stage
    requires { course.old.out ≡ None }
    ensures follows { Follows course.new course.old }
    ensures stage { result ≡ stage_of course.new }
{
    'stages: loop {
        match course.next_stage() {
            Stage::Now => course.run_now(),
            stage => return stage,
        }
    }
}

impl Cell {
    ghost use Rattle.mbj_manager.specs.CellLends.{LendsCourseIn, LendsJobIn};

    /// A cell with a blank job.
    ///
    /// Returns `AllocError` for want of memory.
    pub fn blank(alloc: Global) -> Result<Cell, AllocError>
        ensures { IfOk result (λ c. c ≡ cell.Open blank) }
    {
        let contents = CellContents {
            course: Course::blank(alloc),
            is_going: false,
        };
        Ok(Cell {
            contents: Box::new(alloc, contents)?,
        })
    }

    /// Lends the job that is being filled.
    pub fn job_mut(&mut self) -> &mut Job
        requires { IsOpen self.old }
        ensures* lends { sem 𝓛 (LendsJobIn self.entry result) }
        ensures value { cell.Open result.now ≡ self.old }
    {
        let contents = &mut *self.contents;
        contents.course.job_mut()
    }

    /// Lends the course of the job that is submitted.
    pub(crate) fn course_mut(&mut self) -> &mut Course
        requires { IsGoing self.old }
        ensures* lends { sem 𝓛 (LendsCourseIn self.entry result) }
        ensures value { cell.Going result.now ≡ self.old }
    {
        let contents = &mut *self.contents;
        &mut contents.course
    }

    /// The course of the job that is submitted.
    fn course(&self) -> &Course
        requires { IsGoing self.now }
        ensures { cell.Going result.now ≡ self.now }
    {
        &self.contents.course
    }

    /// Begins the course of the job that was filled. It takes no memory.
    ///
    /// Returns whether the job's key is expanded for it alone: it is if the key is used and its schedule wasn't found.
    pub(crate) fn begin(&mut self, found: Option<&Schedule>) -> bool
        requires is_open { IsOpen self.old }
        requires schedule { IfSome found (λ s. IsScheduleOf (job_in self.old).key s.now) }
        ensures begun { self.new ≡ cell.Going (begun (job_in self.old)) }
        ensures expands { result ≡ counts_expansion (is_some found.entry) (job_in self.old) }
    {
        let contents = &mut *self.contents;
        contents.begin(found)
    }

    /// What is next in the course.
    pub(crate) fn next_stage(&self) -> Stage
        requires { IsGoing self.now }
        ensures { result ≡ stage_of (course_in self.now) }
    {
        self.course().next_stage()
    }

    /// Does what finishes at once. Returns what is next then.
    pub(crate) fn run_nows(&mut self) -> Stage
        requires going { IsGoing self.old }
        requires here { (course_in self.old).out ≡ None }
        ensures going { IsGoing self.new }
        ensures follows { Follows (course_in self.new) (course_in self.old) }
        ensures stage { result ≡ stage_of (course_in self.new) }
    {
        run_nows(self.course_mut())
    }

    /// The range of the packet that the job's cipher writes, as its offset and its length: empty if the job is refused or has no cipher.
    pub(crate) fn range(&self) -> (u32, u32)
        requires { IsGoing self.now }
        ensures { result ≡ range_in (course_in self.now) }
    {
        let course = self.course();
        if !course.uses_key() {
            return (0, 0);
        }
        let job = course.job();
        (job.cipher_off, job.cipher_len)
    }

    /// How the job ended, which is finished.
    pub fn status(&self) -> Status
        requires { IsFinished self.now }
        ensures { result ≡ (owed (course_in self.now)).status }
    {
        self.course().status()
    }

    /// The packet of a job that is finished.
    pub fn packet(&self) -> &[u8]
        requires { IsFinished self.now }
        ensures { result.now ≡ (owed (course_in self.now)).packet }
    {
        self.course().packet()
    }

    /// The tag of a job that is finished.
    pub fn tag(&self) -> &Tag
        requires { IsFinished self.now }
        ensures { result.now ≡ (owed (course_in self.now)).tag }
    {
        self.course().tag()
    }

    /// Takes the result of a job that is finished.
    pub(crate) fn take_done(&mut self) -> Done
        requires { IsFinished self.old }
        ensures { result ≡ owed (course_in self.old) }
    {
        self.course_mut().take_done()
    }

    /// Takes the result of a job that is finished, and the job itself, which has no packet then. It is a cell with a blank job then.
    pub fn take_parts(&mut self, alloc: Global) -> (Done, Job)
        requires { IsFinished self.old }
        ensures result { result.0 ≡ owed (course_in self.old) }
        ensures blank { self.new ≡ cell.Open blank }
    {
        let contents = &mut *self.contents;
        contents.is_going = false;
        (
            contents.course.take_done(),
            contents.course.end_giving(alloc),
        )
    }

    /// Makes it a cell with a blank job, whatever it held. Memory of at most `most` bytes is kept for each field of the job, and longer
    /// memory is freed.
    pub fn clear(&mut self, most: usize)
        ensures { self.new ≡ cell.Open blank }
    {
        let contents = &mut *self.contents;
        contents.course.end(most);
        contents.is_going = false;
    }

    /// How many bytes of memory its job has. A packet that is out in a lane isn't counted.
    pub fn capacity(&self) -> usize {
        self.contents.course.job().capacity()
    }
}
