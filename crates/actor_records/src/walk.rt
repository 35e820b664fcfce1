//! The walk over the records of all actors.
ghost use Rattle.std.specs.Prelude.{◌≡◌, [], ◌++◌, OnOk, IfOk, map};
ghost use Rattle.std.specs.List.{flat_map};
ghost use Rattle.actor_records.specs.Records.{parts_of};
ghost use Rattle.actor_records.specs.Walk.{locals, behind, block, behind_block, walk_from, walk};

use crate::Record;
use column_types::{List, NoMemory};
use std::alloc::Global;
use std::collections::VecDeque;
use turn_hall::Entry;

/// Moves the records before the first core record out of a queue, behind `out`.
fn move_locals<N: Drop, R: Drop, C: Drop, A: Drop, T: Drop>(
    queue: &mut VecDeque<Record<N, R, C, A, T>>,
    out: &mut List<Record<N, R, C, A, T>>,
) -> Result<(), NoMemory>
    ensures moved { OnOk result (out.new ≡ out.old ++ locals queue.old.items) }
    ensures left { OnOk result (queue.new.items ≡ behind queue.old.items) }
{
    while let Some(record) = queue.pop_front() {
        if record.number.is_some() {
            queue.push_front(record)?;
            return Ok(());
        }
        out.push(record)?;
    }
    Ok(())
}

/// Moves the first record with those up to the next core record out of a queue, behind `out`.
fn move_block<N: Drop, R: Drop, C: Drop, A: Drop, T: Drop>(
    queue: &mut VecDeque<Record<N, R, C, A, T>>,
    out: &mut List<Record<N, R, C, A, T>>,
) -> Result<(), NoMemory>
    ensures moved { OnOk result (out.new ≡ out.old ++ block queue.old.items) }
    ensures left { OnOk result (queue.new.items ≡ behind_block queue.old.items) }
{
    match queue.pop_front() {
        Some(record) => {
            out.push(record)?;
            move_locals(queue, out)
        }
        None => Ok(()),
    }
}

/// Moves what each actor did before its first core record, and queues up the rest.
fn move_firsts<N: Drop, R: Drop, C: Drop, A: Drop, T: Drop>(
    alloc: Global,
    records: List<List<Record<N, R, C, A, T>>>,
    out: &mut List<Record<N, R, C, A, T>>,
) -> Result<Vec<VecDeque<Record<N, R, C, A, T>>>, NoMemory>
    ensures moved { OnOk result (out.new ≡ out.old ++ flat_map locals records) }
    ensures left { IfOk result (λ queues. map (λ q. q.items) queues.items ≡ map behind records) }
{
    let mut queues = Vec::with_capacity(alloc, records.len())?;
    for list in records.into_vec() {
        let mut queue = VecDeque::from_vec(list.into_vec());
        move_locals(&mut queue, out)?;
        queues.push(queue)?;
    }
    Ok(queues)
}

/// Moves the records from the first core records on, in the order of a book.
fn move_blocks<N: Drop, R: Drop, C: Drop, A: Drop, T: Drop>(
    book: &[Entry<N, R>],
    queues: &mut [VecDeque<Record<N, R, C, A, T>>],
    out: &mut List<Record<N, R, C, A, T>>,
) -> Result<(), NoMemory>
    ensures { OnOk result (out.new ≡ out.old ++ walk_from book.now (parts_of (map (λ q. q.items) queues.old))) }
{
    for entry in book {
        let who = entry.who as usize;
        if 0 < who && who <= queues.len() {
            move_block(&mut queues[who - 1], out)?;
        }
    }
    Ok(())
}

/// One list of the records of all actors: first what they did before their first core records, by actors, then for each
/// entry of the book its actor's next core record with those behind it. The list of the actor 1 stands first in `records`.
/// No record is copied.
pub fn walk_records<N: Drop, R: Drop, C: Drop, A: Drop, T: Drop>(
    alloc: Global,
    book: &[Entry<N, R>],
    records: List<List<Record<N, R, C, A, T>>>,
) -> Result<List<Record<N, R, C, A, T>>, NoMemory>
    ensures { IfOk result (λ J. J ≡ walk book.now records) }
{
    let mut out = List::new(alloc);
    let mut queues = move_firsts(alloc, records, &mut out)?;
    move_blocks(book, &mut queues, &mut out)?;
    Ok(out)
}
