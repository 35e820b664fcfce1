//! Calls of one thread: by the desk alone, with its book, and in a hall through passes.
ghost use Rattle.std.specs.Prelude.{◌≡◌, ◌+◌, ◌<◌, ◌≤◌, ℕ, IsTrue};

use crate::counter::{Counter, counter_at, counts_up_to, entries_under};
use column_types::{NoMemory, Steps};
use std::alloc::Global;
use std::marker::Brand;
use std::sync::Wait;
use std::sync::ledger::{Blank, Ledger};
use std::test::Fail;
use std::thread::Threads;
use turn_hall::{Desk, Hall, OneThread, Pass};

/// The replies to two calls, through the bound alone.
fn asked_twice<D: Desk<Call = u64, Note = u64, Reply = u64, Gift = ()>, L: Ledger>(
    desk: &mut D,
    alloc: Global,
    calls: (u64, u64),
    steps: &mut Steps<L>,
) -> Result<(u64, u64), NoMemory>
    requires { (s : D.State) (call : ℕ) → D.ready s 1 call }
{
    let first = desk.serve(alloc, 1, calls.0, steps)?;
    let second = desk.serve(alloc, 1, calls.1, steps)?;
    Ok((first.reply, second.reply))
}

/// Whether a counter at 40 adds two calls one by one, up to the greatest number. Nobody reads its steps.
fn adds_up<L: Ledger, R: Threads + Sync>(
    rt: &R,
    alloc: Global,
    blank: Blank,
) -> Result<bool, NoMemory>
    requires name { blank.name ≡ L.name }
    requires parts { blank.parts ≡ L.parts }
    requires some { 0 < blank.parts }
{
    let mut steps = Steps::<L>::new(rt, blank);
    let mut counter = counter_at(40);
    let replies = asked_twice(&mut counter, alloc, (2, u64::MAX), &mut steps)?;
    Ok(replies.0 == 42 && replies.1 == u64::MAX)
}

#[test]
fn calls_are_added_one_by_one(rt: HostRuntime) -> Result<(), Fail> {
    assert!(rt; adds_up::<Brand, _>(&rt, rt.alloc(), Blank::new(1))?);
    Ok(())
}

/// Whether the calls of one thread stand in its book under their callers, and one that finds no memory does not.
fn keeps_a_book<R: Threads + Sync>(rt: &R, alloc: Global) -> Result<bool, NoMemory> {
    let desk = Counter {
        count: 0,
        refusals: 1,
    };
    let mut counter = OneThread::new(alloc, desk);
    let starved = counter.call(rt, alloc, 1, 5).is_err();
    let first = counter.call(rt, alloc, 1, 5)?;
    let second = counter.call(rt, alloc, 7, 10)?;
    let replied = first.0 == 5 && second.0 == 15 && counter.desk().count == 15;
    let book = counter.book();
    let kept = book.len() == 2 && book[0].who == 1 && book[1].who == 7 && book[1].reply == 15;
    Ok(starved && replied && kept)
}

#[test]
fn one_thread_keeps_a_book(rt: HostRuntime) -> Result<(), Fail> {
    assert!(rt; keeps_a_book(&rt, rt.alloc())?);
    Ok(())
}

/// Whether a call is the one of this number in the history, and has this reply.
fn is_answered<R: Threads + Wait + Sync>(
    rt: &R,
    alloc: Global,
    hall: &Hall<Counter>,
    pass: &mut Pass<Counter>,
    by: u64,
    wanted: (u64, u64),
) -> bool
    requires hall { pass.old.hall ≡ hall.now }
    requires left { 0 < pass.old.left }
    ensures hall { pass.new.hall ≡ pass.old.hall }
    ensures number { pass.new.number ≡ pass.old.number }
    ensures root { pass.new.root ≡ pass.old.root }
    ensures made { pass.new.made ≡ pass.old.made }
    ensures out { pass.new.out ≡ pass.old.out }
    ensures left { pass.old.left ≤ pass.new.left + 1 }
{
    match hall.call(rt, alloc, pass, by) {
        Ok(answer) => answer.number == wanted.0 && answer.reply == wanted.1,
        Err(NoMemory) => false,
    }
}

/// Whether calls under several passes get the numbers of one history, which is handed out as a book.
fn numbers_calls<R: Threads + Wait + Sync>(rt: &R, alloc: Global) -> Result<bool, NoMemory> {
    let (hall, mut root) = Hall::new(alloc, counter_at(0), 4)?;
    let first = is_answered(rt, alloc, &hall, &mut root, 5, (1, 5));
    let mut pass = hall.split(&mut root, 7, 1);
    let second = is_answered(rt, alloc, &hall, &mut pass, 10, (2, 15));
    let third = is_answered(rt, alloc, &hall, &mut root, 20, (3, 35));
    hall.join(&mut root, pass);
    let mut again = hall.split(&mut root, 7, 1);
    let fourth = is_answered(rt, alloc, &hall, &mut again, 40, (4, 75));
    hall.join(&mut root, again);
    let booked = hall.close(root);
    let kept = booked.book().len() == 4 && entries_under(&booked, 7) == 2;
    Ok(first && second && third && fourth && kept)
}

#[test]
fn calls_are_numbered_and_handed_out_in_a_book(rt: HostRuntime) -> Result<(), Fail> {
    assert!(rt; numbers_calls(&rt, rt.alloc())?);
    Ok(())
}

/// Whether a call finds no memory. It is then not used.
fn is_starved<R: Threads + Wait + Sync>(
    rt: &R,
    alloc: Global,
    hall: &Hall<Counter>,
    pass: &mut Pass<Counter>,
) -> bool
    requires hall { pass.old.hall ≡ hall.now }
    requires left { 0 < pass.old.left }
    ensures starved { IsTrue result → pass.new ≡ pass.old }
    ensures hall { pass.new.hall ≡ pass.old.hall }
    ensures root { pass.new.root ≡ pass.old.root }
    ensures made { pass.new.made ≡ pass.old.made }
    ensures out { pass.new.out ≡ pass.old.out }
{
    match hall.call(rt, alloc, pass, 1) {
        Ok(_answer) => false,
        Err(NoMemory) => true,
    }
}

/// Whether two calls find no memory, and the third is the first in the history.
fn starves_twice<R: Threads + Wait + Sync>(
    rt: &R,
    alloc: Global,
    hall: &Hall<Counter>,
    pass: &mut Pass<Counter>,
) -> bool
    requires hall { pass.old.hall ≡ hall.now }
    requires left { 0 < pass.old.left }
    ensures hall { pass.new.hall ≡ pass.old.hall }
    ensures root { pass.new.root ≡ pass.old.root }
    ensures made { pass.new.made ≡ pass.old.made }
    ensures out { pass.new.out ≡ pass.old.out }
{
    if !is_starved(rt, alloc, hall, pass) {
        return false;
    }
    if !is_starved(rt, alloc, hall, pass) {
        return false;
    }
    is_answered(rt, alloc, hall, pass, 1, (1, 1))
}

/// Whether a desk that finds no memory twice has one call in its book after three.
fn counts_after_want<R: Threads + Wait + Sync>(rt: &R, alloc: Global) -> Result<bool, NoMemory> {
    let desk = Counter {
        count: 0,
        refusals: 2,
    };
    let (hall, mut root) = Hall::new(alloc, desk, 1)?;
    let starved = starves_twice(rt, alloc, &hall, &mut root);
    let booked = hall.close(root);
    Ok(starved && counts_up_to(&booked, 1))
}

#[test]
fn a_call_without_memory_is_not_used(rt: HostRuntime) -> Result<(), Fail> {
    assert!(rt; counts_after_want(&rt, rt.alloc())?);
    Ok(())
}
