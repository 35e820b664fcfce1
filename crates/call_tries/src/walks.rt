//! The records of several actors in one order.
use actor_records::{Did, Record, walk_records};
use column_types::{List, NoMemory, Text};
use journal_text::push_count;
use std::alloc::Global;
use turn_hall::Entry;

/// A record of which only its place and kind are told.
type Bare = Record<(), (), (), (), ()>;

/// The order of the records of all actors, by a history.
pub fn answer(alloc: Global, parts: &str) -> Result<Text, NoMemory> {
    let (callers, actors) = parts.split_once(" | ").unwrap_or((parts, ""));
    let history = history_of(alloc, callers)?;
    let records = records_of(alloc, actors)?;
    let journal = walk_records(alloc, history.as_slice(), records)?;
    heads_of(alloc, journal.as_slice())
}

/// The history of calls of these callers.
fn history_of(alloc: Global, callers: &str) -> Result<List<Entry<(), ()>>, NoMemory> {
    let mut history = List::new(alloc);
    for word in callers.split(' ') {
        if let Ok(who) = word.parse::<u32>() {
            history.push(Entry {
                who,
                note: (),
                reply: (),
            })?;
        }
    }
    Ok(history)
}

/// The records of each actor. The actors are numbered from 1 on.
fn records_of(alloc: Global, actors: &str) -> Result<List<List<Bare>>, NoMemory> {
    let mut records = List::new(alloc);
    let mut who = 0u32;
    for words in actors.split(" | ") {
        who = who.saturating_add(1);
        records.push(actor_records_of(alloc, words, who)?)?;
    }
    Ok(records)
}

fn actor_records_of(alloc: Global, words: &str, who: u32) -> Result<List<Bare>, NoMemory> {
    let mut records = List::new(alloc);
    for word in words.split(' ') {
        if let Some(record) = read_record(word, who) {
            records.push(record)?;
        }
    }
    Ok(records)
}

/// The record of a word as `3`, `2.1` or `2.1!`.
fn read_record(word: &str, who: u32) -> Option<Bare> {
    match word.split_once('.') {
        None => Some(core_record(word.parse().ok()?, who)),
        Some((after, index)) => read_own_record(after, index, who),
    }
}

fn core_record(number: u64, who: u32) -> Bare {
    Record {
        number: Some(number),
        after: 0,
        index: 0,
        who,
        did: Did::Core((), ()),
    }
}

/// The record that stands at this index after the core record of a number.
fn read_own_record(after: &str, index: &str, who: u32) -> Option<Bare> {
    let (index, did) = match index.strip_suffix('!') {
        Some(index) => (index, Did::Starved(())),
        None => (index, Did::Local((), ())),
    };
    Some(Record {
        number: None,
        after: after.parse().ok()?,
        index: index.parse().ok()?,
        who,
        did,
    })
}

/// The places of records, as the journal heads them.
fn heads_of(alloc: Global, records: &[Bare]) -> Result<Text, NoMemory> {
    let mut heads = Text::new(alloc);
    for record in records {
        if !heads.is_empty() {
            heads.push(" ")?;
        }
        push_head(&mut heads, record)?;
    }
    Ok(heads)
}

fn push_head(heads: &mut Text, record: &Bare) -> Result<(), NoMemory> {
    heads.push("[")?;
    match record.number {
        Some(number) => push_count(heads, number)?,
        None => push_own_place(heads, record)?,
    }
    heads.push(" ")?;
    push_count(heads, record.who as u64)?;
    heads.push("]")
}

fn push_own_place(heads: &mut Text, record: &Bare) -> Result<(), NoMemory> {
    push_count(heads, record.after)?;
    heads.push(".")?;
    push_count(heads, record.index as u64)?;
    match record.did {
        Did::Starved(()) => heads.push("!"),
        _ => Ok(()),
    }
}
