//! Threads that call one hall.
ghost use Rattle.std.specs.Prelude.{◌≡◌, ◌≤◌, ◌+◌};

use crate::counter::{Counter, counter_at, counts_up_to, entries_under};
use column_types::NoMemory;
use std::alloc::Global;
use std::sync::Wait;
use std::test::Fail;
use std::thread::{Threads, join};
use turn_hall::{Hall, Pass};

/// Adds one, `count` times, and says whether each call was made.
fn adds<R: Threads + Wait + Sync>(
    rt: &R,
    alloc: Global,
    hall: &Hall<Counter>,
    mut pass: Pass<Counter>,
    count: u64,
) -> (Pass<Counter>, bool)
    requires hall { pass.hall ≡ hall.now }
    requires left { count ≤ pass.left }
    ensures hall { result.0.hall ≡ pass.hall }
    ensures number { result.0.number ≡ pass.number }
    ensures root { result.0.root ≡ pass.root }
{
    let mut made = true;
    for _i in 0..count {
        match hall.call(rt, alloc, &mut pass, 1) {
            Ok(answer) => drop(answer),
            Err(NoMemory) => made = false,
        }
    }
    (pass, made)
}

/// Two threads add one under a pass each.
fn both_add<R: Threads + Wait + Sync>(
    rt: &R,
    alloc: Global,
    hall: &Hall<Counter>,
    passes: (Pass<Counter>, Pass<Counter>),
    count: u64,
) -> (Pass<Counter>, Pass<Counter>, bool)
    requires halls { (passes.0.hall ≡ hall.now) × (passes.1.hall ≡ hall.now) }
    requires left { (count ≤ passes.0.left) × (count ≤ passes.1.left) }
    ensures first { (result.0.hall ≡ passes.0.hall) × (result.0.number ≡ passes.0.number) × (result.0.root ≡ passes.0.root) }
    ensures second { (result.1.hall ≡ passes.1.hall) × (result.1.number ≡ passes.1.number) × (result.1.root ≡ passes.1.root) }
{
    let (one, two) = passes;
    let (left, right) = join(
        rt,
        || -> (Pass<Counter>, bool)
            requires { (one.hall ≡ hall.now) × (count ≤ one.left) }
        { adds(rt, alloc, hall, one, count) },
        || -> (Pass<Counter>, bool)
            requires { (two.hall ≡ hall.now) × (count ≤ two.left) }
        { adds(rt, alloc, hall, two, count) },
    );
    let ((one, one_made), (two, two_made)) = (left, right);
    (one, two, one_made && two_made)
}

/// Whether two threads with 2,000 calls each have all of them in one book.
fn two_add_up<R: Threads + Wait + Sync>(rt: &R, alloc: Global) -> Result<bool, NoMemory> {
    let (hall, mut root) = Hall::new(alloc, counter_at(0), 4000)?;
    let one = hall.split(&mut root, 1, 2000);
    let two = hall.split(&mut root, 2, 2000);
    let (one, two, made) = both_add(rt, alloc, &hall, (one, two), 2000);
    hall.join(&mut root, one);
    hall.join(&mut root, two);
    let booked = hall.close(root);
    let shared = entries_under(&booked, 1) == 2000 && entries_under(&booked, 2) == 2000;
    Ok(made && counts_up_to(&booked, 4000) && shared)
}

#[test]
fn two_threads_call_one_desk(rt: HostRuntime) -> Result<(), Fail> {
    assert!(rt; two_add_up(&rt, rt.alloc())?);
    Ok(())
}

/// Whether four threads with 500 calls each have all of them in one book. Their passes are joined in another order.
fn four_add_up<R: Threads + Wait + Sync>(rt: &R, alloc: Global) -> Result<bool, NoMemory> {
    let (hall, mut root) = Hall::new(alloc, counter_at(0), 2000)?;
    let one = hall.split(&mut root, 1, 500);
    let two = hall.split(&mut root, 2, 500);
    let three = hall.split(&mut root, 3, 500);
    let four = hall.split(&mut root, 4, 500);
    let shared = &hall;
    let (low, high) = join(
        rt,
        || -> (Pass<Counter>, Pass<Counter>, bool)
            requires { (one.hall ≡ shared.now) × (two.hall ≡ shared.now) × (500 ≤ one.left) × (500 ≤ two.left) }
        { both_add(rt, alloc, shared, (one, two), 500) },
        || -> (Pass<Counter>, Pass<Counter>, bool)
            requires { (three.hall ≡ shared.now) × (four.hall ≡ shared.now) × (500 ≤ three.left) × (500 ≤ four.left) }
        { both_add(rt, alloc, shared, (three, four), 500) },
    );
    let ((one, two, low_made), (three, four, high_made)) = (low, high);
    hall.join(&mut root, four);
    hall.join(&mut root, two);
    hall.join(&mut root, three);
    hall.join(&mut root, one);
    let booked = hall.close(root);
    let each = entries_under(&booked, 1) == 500 && entries_under(&booked, 4) == 500;
    Ok(low_made && high_made && counts_up_to(&booked, 2000) && each)
}

#[test]
fn four_threads_call_one_desk(rt: HostRuntime) -> Result<(), Fail> {
    assert!(rt; four_add_up(&rt, rt.alloc())?);
    Ok(())
}
