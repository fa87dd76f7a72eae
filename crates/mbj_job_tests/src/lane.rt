ghost use Rattle.std.specs.Prelude.{◌≡◌, ℕ, ◌-◌, ◌≤◌, [], All, map};
ghost use Rattle.mbj_job_tests.specs.Gathered.{at_slot};

use crate::compare::expect;
use crate::gathered::GatheredSlots;
use mbj_lane::{Kernel, Lanes, SlotKernel};
use std::alloc::{AllocError, Global};
use std::process::Abort;
use std::test::*;

/// Someone who waits for a number of turns.
#[derive(Drop)]
struct Waiter {
    name: u8,
    turns: u32,
}

/// Waiting, for up to three at once.
struct Waiting;

impl Kernel for Waiting {
    type Entry = Waiter;

    const LANES: u32 = 3;

    ghost LANES = { 3 };

    ghost rest_of = { λ w. w.turns };

    ghost round = { λ w. record w { turns = w.turns - 1 } };

    fn rest(entry: &Waiter) -> u32 {
        entry.turns
    }

    fn run(entries: &mut [Waiter], m: u32) {
        'waiters: for entry in entries.iter_mut() {
            entry.turns -= m;
        }
    }

    ghost use Rattle.std.proofs.Common.{refl, rules};

    ghost some = { Prim.search rules };

    ghost few = { Prim.search rules };

    ghost falls = { λ w. refl };
}

impl SlotKernel for Waiting {
    type Slots = GatheredSlots<Waiting>;

    ghost slot = { λ s. at_slot s.0 s.1 };

    fn new_slots(alloc: Global) -> Result<GatheredSlots<Waiting>, AllocError> {
        GatheredSlots::new(alloc)
    }

    fn put(slots: &mut GatheredSlots<Waiting>, i: usize, entry: Waiter) {
        slots.put(i, entry);
    }

    fn rest_at(slots: &GatheredSlots<Waiting>, i: usize) -> u32 {
        slots.rest_at(i)
    }

    fn least(slots: &GatheredSlots<Waiting>) -> u32 {
        slots.least()
    }

    fn run_all(slots: &mut GatheredSlots<Waiting>, m: u32) {
        slots.run_all(m);
    }

    fn take(slots: &mut GatheredSlots<Waiting>, i: usize) -> Waiter {
        slots.take(i)
    }
}

fn name_of(taken: Option<Waiter>) -> Option<u8> {
    taken.map(|waiter| waiter.name)
}

/// The first entry leaves for its rest, and the others for theirs. The list is empty at first.
fn check_order(rt: &impl Abort, lanes: &mut Lanes<Waiting>)
    requires { lanes.old.entries ≡ [] }
{
    lanes.enter(Waiter { name: 1, turns: 5 });
    lanes.enter(Waiter { name: 2, turns: 3 });
    lanes.enter(Waiter { name: 3, turns: 3 });
    expect(rt, "none finished", name_of(lanes.take_finished()), None);
    expect(rt, "rounds", lanes.run_shortest(), 3);
    let names = [
        name_of(lanes.take_finished()),
        name_of(lanes.take_finished()),
        name_of(lanes.take_finished()),
    ];
    expect(rt, "names", names, [Some(2), Some(3), None]);
    expect(rt, "entries left", lanes.len(), 1);
}

#[test]
fn the_first_at_rest_0_leaves_and_the_others_keep_their_order(rt: HostRuntime) -> Result<(), Fail> {
    let mut lanes = Lanes::<Waiting>::new(rt.alloc())?;
    expect(&rt, "entries", lanes.len(), 0);
    check_order(&rt, &mut lanes);
    Ok(())
}
