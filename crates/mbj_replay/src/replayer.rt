ghost use Rattle.std.specs.Prelude.{◌≡◌, ◌≢◌, ◌<◌, ◌≤◌, [], ◌∷◌, ◌++◌, All, IfOk, IfSome, List, OnOk, Some, length, map, option_map, option_to_list, replicate};
ghost use Rattle.std.specs.List.{range_with_len};
ghost use Rattle.mbj_types.specs.declared.job.Job.{Job};
ghost use Rattle.mbj_core.specs.CoreStates.{out_of, posted};
ghost use Rattle.mbj_core.specs.Events.{carried_out, post};
ghost use Rattle.mbj_core.specs.Stands.{Leads};
ghost use Rattle.mbj_core.specs.declared.cells.TheConstants.{MAX_SUBMITTERS, MAX_WORKERS, SUBMITTER_CELLS};
ghost use Rattle.mbj_text.specs.declared.limits.TheConstants.{JOB_LIMIT};
ghost use Rattle.mbj_replay.specs.Replay.{IsFor, Replaying, replayed, new_replay, cell_number, replay_lines, told};
ghost use Rattle.mbj_replay.specs.Inside.State.{HasPartiesOf, IsPlaying, lines_of, state_of, with_copy};

use crate::claiming::{cell_behind, claim_earliest, finish_given, party_of};
use crate::line::ReplayLine;
use crate::worker::{Worker, idle_workers};
use mbj_core::{Core, SUBMITTER_CELLS};
use mbj_text::Cmd;
use mbj_types::Job;
use std::alloc::{AllocError, Global};

/// A job that is not posted, and its copy, which a worker gets once it claims the job.
#[derive(Drop)]
pub(crate) struct Unposted {
    job: Job,
    copy: Job,
}

/// What a replay keeps of a cell: the number of the job that was last posted there, and a copy of that job until a
/// worker claims it.
#[derive(Drop)]
pub(crate) struct Posted {
    number: u32,
    copy: Option<Job>,
}

impl Posted {
    /// The job of this number was posted, and this is a copy of it.
    fn put(&mut self, number: u32, copy: Job)
        ensures { self.new ≡ record { number = number; copy = Some copy } }
    {
        *self = Posted {
            number,
            copy: Some(copy),
        };
    }
}

/// What a command prints: a line, and, if a claim led to a finish, the line of that.
type Told = (ReplayLine, Option<ReplayLine>);

/// A front, a manager for each worker, and the jobs of a file, which the commands of a script drive.
#[derive(Drop)]
pub(crate) struct Replayer {
    core: Core,
    workers: Vec<Worker>,
    // By their numbers, the jobs that are not posted.
    unposted: Vec<Option<Unposted>>,
    // For each submitter, the number of its next job.
    nexts: Vec<u32>,
    // For each cell of the core.
    posted: Vec<Posted>,
}

/// Each job with a copy, if none is posted.
fn with_copies(alloc: Global, jobs: Vec<Job>) -> Result<Vec<Option<Unposted>>, AllocError>
    ensures { IfOk result (λ unposted. unposted.items ≡ map with_copy jobs.items) }
{
    let mut unposted = Vec::new(alloc);
    for job in jobs {
        let copy = job.copy(alloc)?;
        unposted.push(Some(Unposted { job, copy }))?;
    }
    Ok(unposted)
}

/// The numbers below this one.
fn numbers_below(alloc: Global, count: u32) -> Result<Vec<u32>, AllocError>
    ensures { IfOk result (λ ns. ns.items ≡ range_with_len 0 count) }
{
    let mut numbers = Vec::new(alloc);
    for number in 0..count {
        numbers.push(number)?;
    }
    Ok(numbers)
}

/// This many cells in which nothing was posted.
fn unused_cells(alloc: Global, count: u32) -> Result<Vec<Posted>, AllocError>
    ensures { IfOk result (λ cells. map (λ x. x.number) cells.items ≡ replicate count 0) }
{
    let mut cells = Vec::new(alloc);
    for _ in 0..count {
        cells.push(Posted {
            number: 0,
            copy: None,
        })?;
    }
    Ok(cells)
}

/// Posts a job of a submitter, which has a cell free, and returns its copy.
fn post_entry(core: &mut Core, s: u32, entry: &mut Option<Unposted>) -> Job
    requires entry { (job : Job) × (entry.old ≡ with_copy job) }
    requires submitter { s < core.old.submitters }
    requires room { out_of core.old s ≢ SUBMITTER_CELLS }
    ensures copy { entry.old ≡ with_copy result }
    ensures posted { core.new ≡ posted core.old s result }
    ensures leads { Leads core.old (post s result) carried_out core.new }
{
    let Some(Unposted { job, copy }) = entry.take() else {
        unreachable!()
    };
    match core.post(s, job) {
        Ok(()) => copy,
        Err(_) => unreachable!(),
    }
}

/// The line of a finish that a claim led to, if it led to one.
fn finish_line(w: u32, job: Option<u32>) -> Option<ReplayLine>
    ensures { option_to_list result ≡ map (λ n. ReplayLine.Finish w (Some n)) (option_to_list job) }
{
    let job = job?;
    Some(ReplayLine::Finish {
        worker: w,
        job: Some(job),
    })
}

/// Puts what a command prints behind the lines.
fn push_told(lines: &mut Vec<ReplayLine>, told: Told) -> Result<(), AllocError>
    ensures { OnOk result (lines.new.items ≡ lines.old.items ++ lines_of told) }
{
    let (line, finish) = told;
    lines.push(line)?;
    if let Some(finish) = finish {
        lines.push(finish)?;
    }
    Ok(())
}

impl Replayer {
    /// Takes the memory of the core, of the workers and of a copy of each job. The commands take none.
    ///
    /// Returns `AllocError` for want of memory.
    fn new(
        alloc: Global,
        jobs: Vec<Job>,
        submitters: u32,
        workers: u32,
    ) -> Result<Replayer, AllocError>
        requires submitters { (1 ≤ submitters) × (submitters ≤ MAX_SUBMITTERS) }
        requires workers { workers ≤ MAX_WORKERS }
        ensures state { IfOk result (λ r. state_of r ≡ new_replay submitters workers) }
        ensures jobs { IfOk result (λ r. r.unposted.items ≡ map with_copy jobs.items) }
        ensures playing { IfOk result (IsPlaying jobs.items) }
    {
        let core = Core::new(alloc, submitters, workers)?;
        Ok(Replayer {
            core,
            workers: idle_workers(alloc, workers)?,
            unposted: with_copies(alloc, jobs)?,
            nexts: numbers_below(alloc, submitters)?,
            posted: unused_cells(alloc, SUBMITTER_CELLS * submitters)?,
        })
    }

    /// The number of the job in a cell, if there is a cell.
    fn number_at(&self, cell: Option<u32>) -> Option<u32>
        requires { IfSome cell (λ c. c < length self.now.posted.items) }
        ensures { result ≡ option_map (cell_number (state_of self.now)) cell }
    {
        let cell = cell?;
        Some(self.posted[cell as usize].number)
    }

    /// A submitter posts its next job. If all its cells hold jobs that are out, that job stays the next one.
    fn post(&mut self, s: u32) -> ReplayLine
        ghost jobs: { List Job }
        requires playing { IsPlaying jobs self.old }
        requires limit { length jobs ≤ JOB_LIMIT }
        requires submitter { s < self.old.core.submitters }
        ensures told { (result ∷ [], state_of self.new) ≡ told jobs (Cmd.Post s) (state_of self.old) }
        ensures playing { IsPlaying jobs self.new }
        ensures parties { HasPartiesOf self.old self.new }
    {
        let number = self.nexts[s as usize];
        let at = number as usize;
        if at >= self.unposted.len() {
            return ReplayLine::PostEnd(s);
        }
        let out = self.core.out(s);
        if out == SUBMITTER_CELLS {
            return ReplayLine::PostFull(s);
        }
        let cell = cell_behind(&self.core, s, out) as usize;
        let copy = post_entry(&mut self.core, s, &mut self.unposted[at]);
        self.posted[cell].put(number, copy);
        self.nexts[s as usize] = number + self.core.submitters();
        ReplayLine::Post {
            submitter: s,
            job: number,
        }
    }

    /// A worker claims the earliest job of a submitter that is out and that no party has claimed, and submits it. What
    /// the worker's manager gives back goes into the first cell of its hand.
    fn claim(&mut self, w: u32, s: u32) -> Told
        ghost jobs: { List Job }
        requires playing { IsPlaying jobs self.old }
        requires worker { w < self.old.core.workers }
        requires submitter { s < self.old.core.submitters }
        ensures told { (lines_of result, state_of self.new) ≡ told jobs (Cmd.Claim w s) (state_of self.old) }
        ensures playing { IsPlaying jobs self.new }
        ensures parties { HasPartiesOf self.old self.new }
    {
        let worker = w as usize;
        if self.workers[worker].is_full() {
            return (ReplayLine::ClaimFull(w), None);
        }
        let party = party_of(&self.core, w);
        let Some(cell) = claim_earliest(&mut self.core, party, s) else {
            return (
                ReplayLine::Claim {
                    worker: w,
                    job: None,
                },
                None,
            );
        };
        let job = self.number_at(Some(cell));
        let Some(copy) = self.posted[cell as usize].copy.take() else {
            unreachable!()
        };
        let given = self.workers[worker].submit(cell, copy);
        // By the law of the front each cell of the hand is there once.
        self.core.stands_for_lawful_states();
        let finished = finish_given(&mut self.core, party, given);
        let finish = finish_line(w, self.number_at(finished));
        (ReplayLine::Claim { worker: w, job }, finish)
    }

    /// A worker flushes its manager. What that gives back goes into the first cell of the worker's hand.
    fn flush(&mut self, w: u32) -> ReplayLine
        ghost jobs: { List Job }
        requires playing { IsPlaying jobs self.old }
        requires worker { w < self.old.core.workers }
        ensures told { (result ∷ [], state_of self.new) ≡ told jobs (Cmd.Flush w) (state_of self.old) }
        ensures playing { IsPlaying jobs self.new }
        ensures parties { HasPartiesOf self.old self.new }
    {
        let given = self.workers[w as usize].flush();
        let party = party_of(&self.core, w);
        // By the law of the front each cell of the hand is there once.
        self.core.stands_for_lawful_states();
        let finished = finish_given(&mut self.core, party, given);
        let job = self.number_at(finished);
        ReplayLine::Finish { worker: w, job }
    }

    /// A submitter collects the result of its earliest job that is out.
    fn collect(&mut self, s: u32) -> ReplayLine
        ghost jobs: { List Job }
        requires playing { IsPlaying jobs self.old }
        requires submitter { s < self.old.core.submitters }
        ensures told { (result ∷ [], state_of self.new) ≡ told jobs (Cmd.Collect s) (state_of self.old) }
        ensures playing { IsPlaying jobs self.new }
        ensures parties { HasPartiesOf self.old self.new }
    {
        let cell = self.core.first_cell(s);
        match self.core.collect(s) {
            Some(done) => ReplayLine::Collect {
                submitter: s,
                job: self.posted[cell as usize].number,
                done,
            },
            None => ReplayLine::CollectNone(s),
        }
    }

    /// Does what a command says.
    fn perform(&mut self, command: Cmd) -> Told
        ghost jobs: { List Job }
        requires playing { IsPlaying jobs self.old }
        requires limit { length jobs ≤ JOB_LIMIT }
        requires parties { IsFor self.old.core.submitters self.old.core.workers command }
        ensures told { (lines_of result, state_of self.new) ≡ told jobs command (state_of self.old) }
        ensures playing { IsPlaying jobs self.new }
        ensures parties { HasPartiesOf self.old self.new }
    {
        match command {
            Cmd::Post(s) => (self.post(s), None),
            Cmd::Claim(w, s) => self.claim(w, s),
            Cmd::Flush(w) => (self.flush(w), None),
            Cmd::Collect(s) => (self.collect(s), None),
        }
    }

    /// Does what the commands say, and returns what they print.
    fn play(&mut self, alloc: Global, commands: Vec<Cmd>) -> Result<Vec<ReplayLine>, AllocError>
        ghost jobs: { List Job }
        requires playing { IsPlaying jobs self.old }
        requires limit { length jobs ≤ JOB_LIMIT }
        requires parties { All (IsFor self.old.core.submitters self.old.core.workers) commands.items }
        ensures { IfOk result (λ lines. lines.items ≡ (replayed jobs commands.items (state_of self.old)).0) }
    {
        let mut lines = Vec::new(alloc);
        for command in commands {
            let told = self.perform(command);
            push_told(&mut lines, told)?;
        }
        Ok(lines)
    }
}

/// The lines that tell the outcome of each command of a script, over one front and a manager for each worker.
///
/// Returns `AllocError` for want of memory.
///
/// ```
/// let mut jobs = Vec::new(alloc);
/// jobs.push(Job::blank(alloc))?;
/// jobs.push(Job::blank(alloc))?;
/// replay_lines(alloc, jobs, Vec::from_slice(alloc, &COMMANDS)?, 1, 1)
/// ```
pub fn replay_lines(
    alloc: Global,
    jobs: Vec<Job>,
    commands: Vec<Cmd>,
    submitters: u32,
    workers: u32,
) -> Result<Vec<ReplayLine>, AllocError>
    requires submitters { (1 ≤ submitters) × (submitters ≤ MAX_SUBMITTERS) }
    requires workers { workers ≤ MAX_WORKERS }
    requires jobs { length jobs.items ≤ JOB_LIMIT }
    requires parties { All (IsFor submitters workers) commands.items }
    ensures { IfOk result (λ lines. lines.items ≡ replay_lines jobs.items commands.items submitters workers) }
{
    let mut replayer = Replayer::new(alloc, jobs, submitters, workers)?;
    replayer.play(alloc, commands)
}
