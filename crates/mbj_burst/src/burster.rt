ghost use Rattle.std.specs.Prelude.{◌≡◌, ◌+◌, ◌-◌, ◌<◌, ◌≤◌, ◌++◌, [], IfOk, List, OnOk, drop, length, map, min, replicate, take, vec_capacity};
ghost use Rattle.std.specs.Vec.Iter.{into_iter_items};
ghost use Rattle.mbj_types.specs.declared.job.Job.{Job};
ghost use Rattle.mbj_types.specs.Result.{result_of};
ghost use Rattle.mbj_ring.specs.declared.ring.TheConstants.{CELLS};
ghost use Rattle.mbj_manager.specs.Calls as calls;
ghost use Rattle.mbj_burst.specs.declared.line.BurstLine.TheVariants as line;
ghost use Rattle.mbj_burst.specs.Burst.{burst_told, calls_told, cells_left, flushes_told, group_told, groups_told, new_bursting, room_told, submit_told};
ghost use Rattle.mbj_burst.specs.Inside.State.{HasResults, HasRoom, state_of};

use crate::line::BurstLine;
use mbj_manager::Manager;
use mbj_ring::CELLS;
use mbj_types::{Done, Job};
use std::alloc::{AllocError, Global};
use std::vec::IntoIter;

/// A manager, and the lines of its bursts.
#[derive(Drop)]
struct Burster {
    manager: Manager,
    // What it gave back, in order. There is room for the results of all jobs.
    results: Vec<Done>,
    lines: Vec<BurstLine>,
}

/// The outcome of bursts over the jobs of a file: a line for each call, and the jobs' results in order.
#[derive(Drop)]
pub struct Told {
    /// A line for each call.
    pub lines: Vec<BurstLine>,
    /// The jobs' results, in the order of the file.
    pub results: Vec<Done>,
}

impl Burster {
    /// A new manager, no lines, and room for the results of `jobs` jobs.
    fn new(alloc: Global, jobs: usize) -> Result<Burster, AllocError>
        ensures state { IfOk result (λ b. state_of b ≡ new_bursting) }
        ensures lines { IfOk result (λ b. b.lines.items ≡ []) }
        ensures room { IfOk result (HasRoom jobs) }
    {
        let results = Vec::with_capacity(alloc, jobs)?;
        let manager = Manager::new(alloc)?;
        Ok(Burster {
            manager,
            results,
            lines: Vec::new(alloc),
        })
    }

    /// Flushes `count` jobs at most, and tells it. Returns how many results came back.
    fn flush(&mut self, count: u32) -> Result<u32, AllocError>
        requires { HasRoom 0 self.old }
        ensures lines { OnOk result (self.new.lines.items
            ≡ self.old.lines.items ++ (calls_told line.Flush (replicate count calls.flush) (state_of self.old)).0) }
        ensures state { OnOk result (state_of self.new
            ≡ (calls_told line.Flush (replicate count calls.flush) (state_of self.old)).1) }
        ensures results { (jobs : List Job) → HasResults jobs (state_of self.old) → OnOk result (HasResults jobs (state_of self.new)) }
        ensures count { IfOk result (λ given. given ≡ min count (length self.old.manager.owed)) }
        ensures given { IfOk result (λ given. length self.new.results.items ≡ length self.old.results.items + given) }
        ensures left { IfOk result (λ given. length self.new.manager.owed + given ≡ length self.old.manager.owed) }
        ensures opened { OnOk result (self.new.manager.opened ≡ self.old.manager.opened) }
        ensures room { OnOk result (vec_capacity self.new.results ≡ vec_capacity self.old.results) }
    {
        let given = self.manager.flush_burst(count, &mut self.results);
        self.lines.push(BurstLine::Flush(given))?;
        Ok(given)
    }

    /// If no cell is left, tells that and flushes as many jobs as a group has.
    fn make_room(&mut self, size: u32) -> Result<(), AllocError>
        requires size { 0 < size }
        requires room { HasRoom 0 self.old }
        ensures lines { OnOk result (self.new.lines.items ≡ self.old.lines.items ++ (room_told size (state_of self.old)).0) }
        ensures state { OnOk result (state_of self.new ≡ (room_told size (state_of self.old)).1) }
        ensures results { (jobs : List Job) → HasResults jobs (state_of self.old) → OnOk result (HasResults jobs (state_of self.new)) }
        ensures cell { OnOk result (length self.new.manager.owed < CELLS) }
        ensures opened { OnOk result (self.new.manager.opened ≡ self.old.manager.opened) }
        ensures jobs { OnOk result (length self.new.results.items + length self.new.manager.owed
            ≡ length self.old.results.items + length self.old.manager.owed) }
        ensures room { OnOk result (vec_capacity self.new.results ≡ vec_capacity self.old.results) }
    {
        if self.manager.is_full() {
            self.lines.push(BurstLine::Full)?;
            self.flush(size)?;
        }
        Ok(())
    }

    /// Writes the next jobs into the open cells, of which there are `count`.
    fn fill(&mut self, jobs: &mut IntoIter<Job>, count: u32)
        requires opened { length self.old.manager.opened ≡ count }
        requires jobs { count ≤ length (into_iter_items jobs.old) }
        ensures manager { self.new.manager ≡ record (self.old.manager) { opened = take count (into_iter_items jobs.old) } }
        ensures rest { into_iter_items jobs.new ≡ drop count (into_iter_items jobs.old) }
        ensures results { self.new.results ≡ self.old.results }
        ensures lines { self.new.lines ≡ self.old.lines }
    {
        for index in 0..count {
            let Some(job) = jobs.next() else {
                unreachable!()
            };
            *self.manager.burst_mut(index) = job;
        }
    }

    /// Submits in one burst as many of the next `count` jobs as there are cells, and tells it. Returns how many.
    fn submit(&mut self, jobs: &mut IntoIter<Job>, count: u32) -> Result<u32, AllocError>
        requires closed { self.old.manager.opened ≡ [] }
        requires count { count ≤ length (into_iter_items jobs.old) }
        requires room { HasRoom count self.old }
        ensures size { IfOk result (λ n. n ≡ min count (cells_left (state_of self.old))) }
        ensures lines { IfOk result (λ n. self.new.lines.items
            ≡ self.old.lines.items ++ (submit_told (take n (into_iter_items jobs.old)) (state_of self.old)).0) }
        ensures state { IfOk result (λ n. state_of self.new ≡ (submit_told (take n (into_iter_items jobs.old)) (state_of self.old)).1) }
        ensures rest { IfOk result (λ n. into_iter_items jobs.new ≡ drop n (into_iter_items jobs.old)) }
        ensures results { (done : List Job) → HasResults done (state_of self.old)
            → IfOk result (λ n. HasResults (done ++ take n (into_iter_items jobs.old)) (state_of self.new)) }
        ensures closed { OnOk result (self.new.manager.opened ≡ []) }
        ensures jobs { IfOk result (λ n. length self.new.results.items + length self.new.manager.owed
            ≡ length self.old.results.items + length self.old.manager.owed + n) }
        ensures room { OnOk result (vec_capacity self.new.results ≡ vec_capacity self.old.results) }
    {
        let open = self.manager.get_next_burst(count);
        self.fill(jobs, open);
        let given = self.manager.submit_burst(open, &mut self.results);
        self.lines.push(BurstLine::Submit { jobs: open, given })?;
        Ok(open)
    }

    /// Hands over the next `count` jobs, which are a group, by as many bursts as it takes.
    fn hand_over(
        &mut self,
        jobs: &mut IntoIter<Job>,
        size: u32,
        count: u32,
    ) -> Result<(), AllocError>
        requires size { 0 < size }
        requires within { count ≤ size }
        requires closed { self.old.manager.opened ≡ [] }
        requires count { count ≤ length (into_iter_items jobs.old) }
        requires room { HasRoom count self.old }
        ensures lines { OnOk result (self.new.lines.items
            ≡ self.old.lines.items ++ (group_told size size (take count (into_iter_items jobs.old)) (state_of self.old)).0) }
        ensures state { OnOk result (state_of self.new
            ≡ (group_told size size (take count (into_iter_items jobs.old)) (state_of self.old)).1) }
        ensures rest { OnOk result (into_iter_items jobs.new ≡ drop count (into_iter_items jobs.old)) }
        ensures results { (done : List Job) → HasResults done (state_of self.old)
            → OnOk result (HasResults (done ++ take count (into_iter_items jobs.old)) (state_of self.new)) }
        ensures closed { OnOk result (self.new.manager.opened ≡ []) }
        ensures jobs { OnOk result (length self.new.results.items + length self.new.manager.owed
            ≡ length self.old.results.items + length self.old.manager.owed + count) }
        ensures room { OnOk result (vec_capacity self.new.results ≡ vec_capacity self.old.results) }
    {
        let mut rest = count;
        'bursts: while rest > 0 {
            self.make_room(size)?;
            rest -= self.submit(jobs, rest)?;
        }
        Ok(())
    }

    /// Hands over the jobs of a file in groups of `size`.
    fn submit_all(&mut self, jobs: Vec<Job>, size: u32) -> Result<(), AllocError>
        requires size { 0 < size }
        requires fresh { state_of self.old ≡ new_bursting }
        requires room { HasRoom (length jobs.items) self.old }
        ensures lines { OnOk result (self.new.lines.items
            ≡ self.old.lines.items ++ (groups_told size (length jobs.items) jobs.items (state_of self.old)).0) }
        ensures state { OnOk result (state_of self.new ≡ (groups_told size (length jobs.items) jobs.items (state_of self.old)).1) }
        ensures results { OnOk result (HasResults jobs.items (state_of self.new)) }
        ensures room { OnOk result (HasRoom 0 self.new) }
    {
        let mut left = jobs.len();
        let mut jobs = jobs.into_iter();
        'groups: while left > 0 {
            let count = left.min(size as usize);
            self.hand_over(&mut jobs, size, count as u32)?;
            left -= count;
        }
        Ok(())
    }

    /// Flushes all cells until a flush gives nothing back.
    fn flush_all(&mut self) -> Result<(), AllocError>
        requires { HasRoom 0 self.old }
        ensures lines { OnOk result (self.new.lines.items
            ≡ self.old.lines.items ++ (flushes_told (length self.old.manager.owed) (state_of self.old)).0) }
        ensures results { (jobs : List Job) → HasResults jobs (state_of self.old)
            → OnOk result (self.new.results.items ≡ map result_of jobs) }
    {
        'flushing: while self.flush(CELLS)? > 0 {}
        Ok(())
    }
}

/// The lines that tell how many results one manager gives back over the jobs of a file, which are handed over in groups of
/// `size`, and the results.
///
/// Returns `AllocError` for want of memory.
///
/// ```
/// let told = tell_bursts(alloc, jobs, size)?;
/// Ok(write_told(out, &told)?)
/// ```
pub fn tell_bursts(alloc: Global, jobs: Vec<Job>, size: u32) -> Result<Told, AllocError>
    requires { 0 < size }
    ensures lines { IfOk result (λ told. told.lines.items ≡ (burst_told size jobs.items).0) }
    ensures results { IfOk result (λ told. told.results.items ≡ map result_of jobs.items) }
{
    let mut burster = Burster::new(alloc, jobs.len())?;
    burster.submit_all(jobs, size)?;
    burster.flush_all()?;
    Ok(Told {
        lines: burster.lines,
        results: burster.results,
    })
}
