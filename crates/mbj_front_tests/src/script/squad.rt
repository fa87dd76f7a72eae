// What each command of a script makes the parties of a front do and tell.
use crate::player::Player;
use mbj_replay::ReplayLine;
use mbj_text::Cmd;
use mbj_types::Job;
use mbj_work::HAND_ROOM;
use std::alloc::{AllocError, Global};

/// What commands come to.
pub(crate) type Lines = Vec<ReplayLine>;

/// The parties of a front, and the jobs of a file, of which the submitters post copies by turns.
#[derive(Drop)]
pub(crate) struct Squad<'a> {
    pub(crate) submitters: Vec<Player<'a>>,
    pub(crate) workers: Vec<Player<'a>>,
    pub(crate) jobs: &'a [Job],
}

/// Posts a copy of the next job, which stays the next one if all cells are in use.
fn post(alloc: Global, s: u32, submitter: &mut Player, jobs: &[Job]) -> Option<ReplayLine> {
    let Some(job) = jobs.get(submitter.next as usize) else {
        return Some(ReplayLine::PostEnd(s));
    };
    if !submitter.submits() || !submitter.posts(job.copy(alloc).ok()?) {
        return Some(ReplayLine::PostFull(s));
    }
    let job = submitter.next;
    submitter.next = job.wrapping_add(submitter.submitters());
    submitter.jobs.push_back(job).ok()?;
    Some(ReplayLine::Post { submitter: s, job })
}

/// Claims the earliest job of a submitter that is to be claimed.
fn claim(w: u32, worker: &mut Player, submitter: &Player) -> Option<ReplayLine> {
    if worker.party.hand() == HAND_ROOM {
        return Some(ReplayLine::ClaimFull(w));
    }
    let job = worker.claim_from(submitter);
    if let Some(job) = job {
        worker.jobs.push_back(job).ok()?;
    }
    Some(ReplayLine::Claim { worker: w, job })
}

/// Settles the first job in the hand.
fn flush(w: u32, worker: &mut Player) -> ReplayLine {
    let job = if worker.party.settle(worker.front) {
        worker.jobs.pop_front()
    } else {
        None
    };
    ReplayLine::Finish { worker: w, job }
}

/// Collects the result of the earliest job that is out.
fn collect(s: u32, submitter: &mut Player) -> Option<ReplayLine> {
    let Some(done) = submitter.party.collect(submitter.front) else {
        return Some(ReplayLine::CollectNone(s));
    };
    Some(ReplayLine::Collect {
        submitter: s,
        job: submitter.jobs.pop_front()?,
        done,
    })
}

/// The finish that a claim led to: the hand is then shorter than the list of its numbers.
fn finish(w: u32, worker: &mut Player) -> Option<ReplayLine> {
    if worker.party.hand() as usize == worker.jobs.len() {
        return None;
    }
    let job = worker.jobs.pop_front();
    Some(ReplayLine::Finish { worker: w, job })
}

/// The worker and the submitter of a command, if it is without one of them the first.
fn parties_of(command: Cmd) -> (u32, u32) {
    match command {
        Cmd::Post(s) | Cmd::Collect(s) => (0, s),
        Cmd::Claim(w, s) => (w, s),
        Cmd::Flush(w) => (w, 0),
    }
}

fn push(lines: &mut Lines, line: Option<ReplayLine>) -> Result<(), AllocError> {
    if let Some(line) = line {
        lines.push(line)?;
    }
    Ok(())
}

impl Squad<'_> {
    /// Does what a command says, if its parties are there, and adds the lines that tell what it comes to.
    fn perform(
        &mut self,
        alloc: Global,
        command: Cmd,
        lines: &mut Lines,
    ) -> Result<(), AllocError> {
        let (w, s) = parties_of(command);
        let Some(submitter) = self.submitters.get_mut(s as usize) else {
            return Ok(());
        };
        let Some(worker) = self.workers.get_mut(w as usize) else {
            return Ok(());
        };
        let line = match command {
            Cmd::Post(_) => post(alloc, s, submitter, self.jobs),
            Cmd::Claim(..) => claim(w, worker, submitter),
            Cmd::Flush(_) => Some(flush(w, worker)),
            Cmd::Collect(_) => collect(s, submitter),
        };
        push(lines, line)?;
        push(lines, finish(w, worker))
    }

    /// The lines that tell what each command comes to.
    pub(crate) fn follow(mut self, alloc: Global, commands: &[Cmd]) -> Result<Lines, AllocError> {
        let mut lines = Vec::new(alloc);
        for command in commands {
            self.perform(alloc, *command, &mut lines)?;
        }
        Ok(lines)
    }
}
