ghost use Rattle.std.specs.Prelude.{◌≡◌, ◌<◌, ◌≤◌, ◌+◌, [], ◌∷◌, ◌++◌, length};
ghost use Rattle.mbj_ring.specs.Ring.{ring as state, place_of};

use crate::compare::expect;
use mbj_ring::{CELLS, Ring};
use std::alloc::Global;
use std::process::Abort;
use std::rc::Rc;
use std::test::*;

fn push<T>(ring: &mut Ring<T>, value: T) -> u32
    requires closed { ring.old.opened ≡ [] }
    requires room { length ring.old.values < CELLS }
    ensures place { result ≡ place_of ring.old (length ring.old.values) }
    ensures pushed { ring.new ≡ state (ring.old.values ++ value ∷ []) [] ring.old.first }
{
    ring.open_cell(value);
    ring.commit()
}

fn crosses<V: Send>(_value: &V) {}

/// A ring may go to another thread if its values may.
fn ring_crosses<T: Send>(ring: &Ring<T>) {
    crosses(ring);
}

fn check_fresh(rt: &impl Abort, ring: &mut Ring<u32>) {
    assert!(rt; ring.open_mut().is_none());
    assert!(rt; ring.front_mut().is_none());
    assert!(rt; ring.pop().is_none());
    expect(rt, "values", ring.len(), 0);
    expect(rt, "open", ring.open_len(), 0);
    ring_crosses(ring);
}

#[test]
fn a_fresh_ring_has_nothing(rt: HostRuntime) -> Result<(), Fail> {
    check_fresh(&rt, &mut Ring::new(rt.alloc())?);
    Ok(())
}

/// Pushes the number of each cell.
fn fill(ring: &mut Ring<u32>)
    requires { ring.old ≡ state [] [] 0 }
{
    for value in 0..CELLS {
        push(ring, value);
    }
}

fn check_full(rt: &impl Abort, ring: &mut Ring<u32>) {
    expect(rt, "values", ring.len(), CELLS);
    for value in 0..CELLS {
        expect(rt, "in order", ring.pop(), Some(value));
    }
    expect(rt, "behind the last", ring.pop(), None);
}

#[test]
fn a_full_ring_pops_in_order(rt: HostRuntime) -> Result<(), Fail> {
    let mut ring = Ring::new(rt.alloc())?;
    fill(&mut ring);
    check_full(&rt, &mut ring);
    Ok(())
}

/// Pushes one more owner of the value.
fn push_shared(ring: &mut Ring<Rc<u32>>, value: &Rc<u32>) -> Result<(), Fail>
    requires closed { ring.old.opened ≡ [] }
    requires room { length ring.old.values < CELLS }
    ensures closed { ring.new.opened ≡ [] }
    ensures one_more { length ring.new.values ≤ length ring.old.values + 1 }
{
    push(ring, value.clone()?);
    Ok(())
}

/// Commits two of the values, and opens a cell for each of the other two.
fn share(ring: &mut Ring<Rc<u32>>, values: &[Rc<u32>; 4]) -> Result<(), Fail>
    requires { ring.old ≡ state [] [] 0 }
{
    push_shared(ring, &values[0])?;
    push_shared(ring, &values[1])?;
    ring.open_cell(values[2].clone()?);
    ring.open_cell(values[3].clone()?);
    Ok(())
}

fn ring_of(alloc: Global, values: &[Rc<u32>; 4]) -> Result<Ring<Rc<u32>>, Fail> {
    let mut ring = Ring::new(alloc)?;
    share(&mut ring, values)?;
    Ok(ring)
}

fn check_drops(rt: &impl Abort, alloc: Global, values: &[Rc<u32>; 4]) -> Result<(), Fail> {
    let ring = ring_of(alloc, values)?;
    expect(rt, "in the ring", Rc::strong_count(&values[3]), 2);
    drop(ring);
    for value in values {
        expect(rt, "dropped", Rc::strong_count(value), 1);
    }
    Ok(())
}

#[test]
fn a_dropped_ring_drops_each_value_once(rt: HostRuntime) -> Result<(), Fail> {
    let one = Rc::new(rt.alloc(), 1)?;
    let two = Rc::new(rt.alloc(), 2)?;
    let three = Rc::new(rt.alloc(), 3)?;
    let four = Rc::new(rt.alloc(), 4)?;
    check_drops(&rt, rt.alloc(), &[one, two, three, four])
}

/// Pushes a value behind the one that waits, and pops that one.
fn replace(rt: &impl Abort, ring: &mut Ring<u32>, value: u32)
    requires closed { ring.old.opened ≡ [] }
    requires one { length ring.old.values ≡ 1 }
    requires first { ring.old.first < CELLS }
    requires value { value < 600 }
    ensures closed { ring.new.opened ≡ [] }
    ensures one { length ring.new.values ≡ 1 }
    ensures first { ring.new.first < CELLS }
{
    let place = push(ring, value);
    expect(rt, "place", place, value % CELLS);
    *ring.at_mut(place) += 1000;
    if let Some(first) = ring.front_mut() {
        *first = first.wrapping_add(1);
    }
    let want = if value == 1 { 1 } else { value + 1000 };
    expect(rt, "value", ring.pop(), Some(want));
}

#[test]
fn places_wrap_round_the_end(rt: HostRuntime) -> Result<(), Fail> {
    let mut ring = Ring::new(rt.alloc())?;
    push(&mut ring, 0u32);
    for value in 1..600u32 {
        replace(&rt, &mut ring, value);
    }
    expect(&rt, "values", ring.len(), 1);
    Ok(())
}

fn commit_as_written(rt: &impl Abort, ring: &mut Ring<u32>)
    requires { ring.old ≡ state [] [] 0 }
{
    ring.open_cell(7);
    if let Some(open) = ring.open_mut() {
        *open = 8;
    }
    expect(rt, "place", ring.commit(), 0);
    assert!(rt; ring.open_mut().is_none());
    expect(rt, "value", ring.pop(), Some(8));
}

#[test]
fn the_open_value_is_committed_as_written(rt: HostRuntime) -> Result<(), Fail> {
    commit_as_written(&rt, &mut Ring::new(rt.alloc())?);
    Ok(())
}

/// Opens three cells, and writes into two of them.
fn open_three(rt: &impl Abort, ring: &mut Ring<u32>)
    requires { ring.old ≡ state [] [] 0 }
    ensures opened { length ring.new.opened ≡ 3 }
    ensures values { ring.new.values ≡ [] }
{
    ring.open_cell(10);
    ring.open_cell(20);
    ring.open_cell(30);
    expect(rt, "open", ring.open_len(), 3);
    *ring.open_at(2) += 3;
    if let Some(first) = ring.open_mut() {
        *first += 1;
    }
}

fn commit_in_order(rt: &impl Abort, ring: &mut Ring<u32>)
    requires opened { length ring.old.opened ≡ 3 }
    requires values { ring.old.values ≡ [] }
{
    ring.commit();
    expect(rt, "the others stay open", ring.open_len(), 2);
    ring.commit();
    ring.commit();
    expect(rt, "no cell is open", ring.open_len(), 0);
    for value in [11, 20, 33] {
        expect(rt, "in order", ring.pop(), Some(value));
    }
    expect(rt, "behind the last", ring.pop(), None);
}

#[test]
fn open_cells_are_committed_in_order(rt: HostRuntime) -> Result<(), Fail> {
    let mut ring = Ring::new(rt.alloc())?;
    open_three(&rt, &mut ring);
    commit_in_order(&rt, &mut ring);
    Ok(())
}
