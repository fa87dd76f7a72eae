ghost use Rattle.std.specs.Prelude.{◌≡◌, ◌+◌, ◌<◌, ◌≤◌, ◌↔◌, [], ◌∷◌, ◌++◌, IfOk, IfSome, IsTrue, length, map, option_map, option_to_list, replicate, vec_capacity};
ghost use Rattle.mbj_types.specs.Result.{result_of};
ghost use Rattle.mbj_ring.specs.declared.ring.TheConstants.{CELLS};
ghost use Rattle.mbj_manager.specs.State.{after_flush, new_manager, after_submit, with_open};
ghost use Rattle.mbj_replay.specs.Inside.Giving.{first_with};

use mbj_manager::Manager;
use mbj_ring::CELLS;
use mbj_types::{Done, Job};
use std::alloc::{AllocError, Global};

/// A worker of a replay: its manager, and its hand, which are the cells whose jobs it has claimed and not finished, the
/// earliest claim first. The manager owes a result for each of them.
#[derive(Drop)]
pub(crate) struct Worker {
    manager: Manager,
    hand: Vec<u32>,
    ghost room: { CELLS ≤ vec_capacity hand },
    ghost paired: { length hand.items ≡ length manager.owed },
}

/// The first cell of a hand leaves it with the result that goes there, if there is a result.
fn take_first(hand: &mut Vec<u32>, done: Option<Done>) -> Option<(u32, Done)>
    requires { IfSome done (λ _. 0 < length hand.old.items) }
    ensures taken { result ≡ first_with hand.old.items done }
    ensures given { option_map (λ t. t.1) result ≡ done }
    ensures hand { option_to_list (option_map (λ t. t.0) result) ++ hand.new.items ≡ hand.old.items }
    ensures room { vec_capacity hand.new ≡ vec_capacity hand.old }
{
    let done = done?;
    Some((hand.remove(0), done))
}

impl Worker {
    /// A worker whose hand is empty. It takes the memory for all cells of its manager and its hand; no other call takes
    /// any.
    ///
    /// Returns `AllocError` for want of memory.
    pub(crate) fn new(alloc: Global) -> Result<Worker, AllocError>
        ensures { IfOk result (λ w. (w.manager ≡ new_manager) × (w.hand.items ≡ [])) }
    {
        let hand = Vec::with_capacity(alloc, CELLS as usize)?;
        let manager = Manager::new(alloc)?;
        Ok(Worker { manager, hand })
    }

    /// Whether the hand has as many cells as the manager.
    pub(crate) fn is_full(&self) -> bool
        ensures full { IsTrue result ↔ (length self.now.hand.items ≡ CELLS) }
        ensures within { length self.now.hand.items ≤ CELLS }
    {
        self.manager.is_full()
    }

    /// Takes a cell with its job into the hand, and submits the job. What the manager gives back is returned with the
    /// first cell of the hand, which leaves it.
    pub(crate) fn submit(&mut self, cell: u32, job: Job) -> Option<(u32, Done)>
        requires { length self.old.hand.items < CELLS }
        ensures finished { result ≡ first_with (self.old.hand.items ++ cell ∷ [])
            (after_submit (with_open self.old.manager job)).0 }
        ensures manager { self.new.manager ≡ (after_submit (with_open self.old.manager job)).1 }
        ensures hand { option_to_list (option_map (λ t. t.0) result) ++ self.new.hand.items
            ≡ self.old.hand.items ++ cell ∷ [] }
        ensures owed { option_to_list (option_map (λ t. t.1) result) ++ self.new.manager.owed
            ≡ self.old.manager.owed ++ result_of job ∷ [] }
    {
        self.hand.push_reserved(cell);
        let done = self.manager.submit_job(job);
        take_first(&mut self.hand, done)
    }

    /// Flushes the manager. What it gives back is returned with the first cell of the hand, which leaves it.
    pub(crate) fn flush(&mut self) -> Option<(u32, Done)>
        ensures finished { result ≡ first_with self.old.hand.items (after_flush self.old.manager).0 }
        ensures manager { self.new.manager ≡ (after_flush self.old.manager).1 }
        ensures hand { option_to_list (option_map (λ t. t.0) result) ++ self.new.hand.items ≡ self.old.hand.items }
        ensures owed { option_to_list (option_map (λ t. t.1) result) ++ self.new.manager.owed
            ≡ self.old.manager.owed }
    {
        let done = self.manager.flush();
        take_first(&mut self.hand, done)
    }
}

/// This many workers whose hands are empty.
///
/// Returns `AllocError` for want of memory.
pub(crate) fn idle_workers(alloc: Global, count: u32) -> Result<Vec<Worker>, AllocError>
    ensures managers { IfOk result (λ ws. map (λ w. w.manager) ws.items ≡ replicate count new_manager) }
    ensures hands { IfOk result (λ ws. map (λ w. w.hand.items) ws.items ≡ replicate count []) }
{
    let mut workers = Vec::new(alloc);
    for _ in 0..count {
        workers.push(Worker::new(alloc)?)?;
    }
    Ok(workers)
}
