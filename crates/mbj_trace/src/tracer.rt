ghost use Rattle.std.specs.Prelude.{◌≡◌, ◌+◌, ◌<◌, ◌≤◌, ◌++◌, [], if◌then◌else◌, IfOk, OnOk, flat_map, is_some, length, option_map};
ghost use Rattle.mbj_types.specs.Kinds.{all_kinds};
ghost use Rattle.mbj_ring.specs.declared.ring.TheConstants.{CELLS};
ghost use Rattle.mbj_text.specs.declared.limits.TheConstants.{JOB_LIMIT};
ghost use Rattle.mbj_trace.specs.Trace.{traced, count_lines, job_told, jobs_told, new_tracing, room_told, take_told, trace_lines};
ghost use Rattle.mbj_trace.specs.Inside.State.{MAX_GIVEN, jobs_in, state_of};

use crate::line::TraceLine;
use mbj_manager::Manager;
use mbj_types::{Done, Job, Kind};
use std::alloc::{AllocError, Global};

/// How a job is taken back.
#[derive(Clone, Copy, Debug, PartialEq, Eq)]
pub enum Taking {
    /// By `Manager::get_completed`.
    Completed,
    /// By `Manager::flush`.
    Flushed,
}

/// A manager, and the lines of its calls.
#[derive(Drop)]
struct Tracer {
    manager: Manager,
    // How many jobs it gave back.
    given: u32,
    lines: Vec<TraceLine>,
}

impl Tracer {
    /// A new manager, and no lines.
    fn new(alloc: Global) -> Result<Tracer, AllocError>
        ensures { IfOk result (λ t. (state_of t ≡ new_tracing) × (t.lines.items ≡ [])) }
    {
        let manager = Manager::new(alloc)?;
        Ok(Tracer {
            manager,
            given: 0,
            lines: Vec::new(alloc),
        })
    }

    /// Counts a job that was given back, and returns its number.
    fn number(&mut self, done: Option<Done>) -> Option<u32>
        requires { self.old.given < MAX_GIVEN }
        ensures number { result ≡ option_map (λ _. self.old.given) done }
        ensures given { self.new.given ≡ (if is_some done then self.old.given + 1 else self.old.given) }
        ensures manager { self.new.manager ≡ self.old.manager }
        ensures lines { self.new.lines ≡ self.old.lines }
    {
        done?;
        let number = self.given;
        self.given += 1;
        Some(number)
    }

    /// If no cell is left, tells that and flushes the earliest job.
    fn make_room(&mut self) -> Result<(), AllocError>
        requires { jobs_in (state_of self.old) ≤ JOB_LIMIT }
        ensures lines { OnOk result (self.new.lines.items ≡ self.old.lines.items ++ (room_told (state_of self.old)).0) }
        ensures state { OnOk result (state_of self.new ≡ (room_told (state_of self.old)).1) }
        ensures room { OnOk result (length self.new.manager.owed < CELLS) }
        ensures count { OnOk result (jobs_in (state_of self.new) ≡ jobs_in (state_of self.old)) }
    {
        let full = self.manager.is_full();
        let done = self.manager.make_room();
        let flushed = self.number(done);
        if full {
            self.lines.push(TraceLine::Full)?;
            self.lines.push(TraceLine::Flush(flushed))?;
        }
        Ok(())
    }

    /// Submits job `number` of the file.
    fn submit(&mut self, number: u32, job: Job) -> Result<(), AllocError>
        requires { jobs_in (state_of self.old) < JOB_LIMIT }
        ensures lines { OnOk result (self.new.lines.items
            ≡ self.old.lines.items ++ (job_told number job (state_of self.old)).0) }
        ensures state { OnOk result (state_of self.new ≡ (job_told number job (state_of self.old)).1) }
        ensures count { OnOk result (jobs_in (state_of self.new) ≡ jobs_in (state_of self.old) + 1) }
    {
        self.make_room()?;
        let done = self.manager.submit_job(job);
        let given = self.number(done);
        self.lines.push(TraceLine::Submit { job: number, given })?;
        Ok(())
    }

    /// Submits the jobs of a file.
    fn submit_all(&mut self, jobs: Vec<Job>) -> Result<(), AllocError>
        requires jobs { length jobs.items ≤ JOB_LIMIT }
        requires none { jobs_in (state_of self.old) ≡ 0 }
        ensures lines { OnOk result (self.new.lines.items
            ≡ self.old.lines.items ++ (jobs_told 0 jobs.items (state_of self.old)).0) }
        ensures state { OnOk result (state_of self.new ≡ (jobs_told 0 jobs.items (state_of self.old)).1) }
        ensures count { OnOk result (jobs_in (state_of self.new) ≤ JOB_LIMIT) }
    {
        let mut number = 0;
        for job in jobs {
            self.submit(number, job)?;
            number += 1;
        }
        Ok(())
    }

    /// Takes a job back, and returns whether there was one.
    fn take(&mut self, how: Taking) -> Result<bool, AllocError>
        requires { jobs_in (state_of self.old) ≤ JOB_LIMIT }
        ensures taken { IfOk result (λ taken. self.new.given ≡ (if taken then self.old.given + 1 else self.old.given)) }
        ensures lines { OnOk result (self.new.lines.items
            ≡ self.old.lines.items ++ (take_told how (state_of self.old)).0) }
        ensures state { OnOk result (state_of self.new ≡ (take_told how (state_of self.old)).1) }
        ensures count { OnOk result (jobs_in (state_of self.new) ≡ jobs_in (state_of self.old)) }
    {
        let done = match how {
            Taking::Completed => self.manager.get_completed(),
            Taking::Flushed => self.manager.flush(),
        };
        let given = self.number(done);
        self.lines.push(match how {
            Taking::Completed => TraceLine::Completed(given),
            Taking::Flushed => TraceLine::Flush(given),
        })?;
        Ok(given.is_some())
    }

    /// Takes jobs back until there is none.
    fn take_all(&mut self, how: Taking) -> Result<(), AllocError>
        requires { jobs_in (state_of self.old) ≤ JOB_LIMIT }
        ensures lines { OnOk result (self.new.lines.items ≡ self.old.lines.items ++ (traced how (state_of self.old)).0) }
        ensures state { OnOk result (state_of self.new ≡ (traced how (state_of self.old)).1) }
        ensures count { OnOk result (jobs_in (state_of self.new) ≡ jobs_in (state_of self.old)) }
    {
        'taking: while self.take(how)? {}
        Ok(())
    }

    /// Tells how many rounds and blocks the full runs of a kind took, if there were any.
    fn count_kind(&mut self, kind: Kind) -> Result<(), AllocError>
        ensures lines { OnOk result (self.new.lines.items
            ≡ self.old.lines.items ++ count_lines self.old.manager.machine kind) }
        ensures manager { self.new.manager ≡ self.old.manager }
    {
        let rounds = self.manager.rounds(kind);
        if rounds != 0 {
            let blocks = self.manager.blocks(kind);
            self.lines.push(TraceLine::Rounds {
                kind,
                rounds,
                blocks,
            })?;
        }
        Ok(())
    }

    /// Tells how many rounds and blocks the full runs of each kind took.
    fn count(&mut self) -> Result<(), AllocError>
        ensures { OnOk result (self.new.lines.items
            ≡ self.old.lines.items ++ flat_map (count_lines self.old.manager.machine) all_kinds) }
    {
        for kind in Kind::ALL {
            self.count_kind(kind)?;
        }
        Ok(())
    }

    /// Does the jobs of a file, and tells each call.
    fn tell(&mut self, jobs: Vec<Job>) -> Result<(), AllocError>
        requires jobs { length jobs.items ≤ JOB_LIMIT }
        requires fresh { state_of self.old ≡ new_tracing }
        requires none { self.old.lines.items ≡ [] }
        ensures { OnOk result (self.new.lines.items ≡ trace_lines jobs.items) }
    {
        self.submit_all(jobs)?;
        self.take_all(Taking::Completed)?;
        self.take_all(Taking::Flushed)?;
        self.count()?;
        Ok(())
    }
}

/// The lines that tell what each call of one manager gives back over the jobs of a file.
///
/// Returns `AllocError` for want of memory.
///
/// ```
/// let lines = trace_lines(alloc, jobs)?;
/// Ok(write_lines(out, &lines)?)
/// ```
pub fn trace_lines(alloc: Global, jobs: Vec<Job>) -> Result<Vec<TraceLine>, AllocError>
    requires { length jobs.items ≤ JOB_LIMIT }
    ensures { IfOk result (λ lines. lines.items ≡ trace_lines jobs.items) }
{
    let mut tracer = Tracer::new(alloc)?;
    tracer.tell(jobs)?;
    Ok(tracer.lines)
}
