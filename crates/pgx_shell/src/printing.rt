//! The text of the journal.
ghost use Rattle.std.specs.Prelude.{◌≡◌, ◌++◌, IfOk, OnOk};
ghost use Rattle.pgx_shell.specs.Journal.{journal_text, record_text, did_text, local_text, head_text, place_text};

use column_types::{NoMemory, Text};
use journal_text::{
    graph_text, name_of, push_ask, push_count, push_count_reply, push_refusal, push_reply,
    push_starved,
};
use session_run::{Did, LocalReply, Record};
use std::alloc::Global;
use std::thread::Threads;

/// The text of records in the order of the journal, where actor i has the name at place i - 1.
pub fn journal<R: Threads + Sync>(
    _rt: &R,
    alloc: Global,
    records: &[Record],
    names: &[Text],
) -> Result<Text, NoMemory>
    ensures { IfOk result (λ text. text ≡ journal_text names.now records.now) }
{
    let mut text = Text::new(alloc);
    for entry in records {
        push_record(alloc, &mut text, entry, names)?;
    }
    Ok(text)
}

fn push_record(
    alloc: Global,
    text: &mut Text,
    entry: &Record,
    names: &[Text],
) -> Result<(), NoMemory>
    ensures { OnOk result (text.new ≡ text.old ++ record_text names.now entry.now) }
{
    push_head(text, entry, names)?;
    push_did(alloc, text, &entry.did, names)
}

/// Appends the call or the command, and its reply lines. The actors have these names.
fn push_did(alloc: Global, text: &mut Text, did: &Did, names: &[Text]) -> Result<(), NoMemory>
    ensures { OnOk result (text.new ≡ text.old ++ did_text names.now did.now) }
{
    match did {
        Did::Core(ask, reply) => {
            push_ask(text, ask)?;
            text.push("\n")?;
            push_reply(text, reply, names)?;
        }
        Did::Local(command, reply) => {
            text.push(command.line.as_str())?;
            text.push("\n")?;
            push_local(alloc, text, reply)?;
        }
        Did::Starved(head) => {
            text.push(head.as_str())?;
            text.push("\n")?;
            push_starved(text)?;
        }
    }
    Ok(())
}

/// Appends where a record stands and who made it.
fn push_head(text: &mut Text, entry: &Record, names: &[Text]) -> Result<(), NoMemory>
    ensures { OnOk result (text.new ≡ text.old ++ head_text names.now entry.now) }
{
    text.push("[")?;
    push_place(text, entry.number, entry.after, entry.index)?;
    text.push(" ")?;
    text.push(name_of(names, entry.who))?;
    text.push("] ")?;
    Ok(())
}

fn push_place(text: &mut Text, number: Option<u64>, after: u64, index: u32) -> Result<(), NoMemory>
    ensures { OnOk result (text.new ≡ text.old ++ place_text number after index) }
{
    match number {
        Some(number) => push_count(text, number),
        None => {
            push_count(text, after)?;
            text.push(".")?;
            push_count(text, u64::from(index))
        }
    }
}

/// Appends the reply lines of a local command.
fn push_local(alloc: Global, text: &mut Text, reply: &LocalReply) -> Result<(), NoMemory>
    ensures { OnOk result (text.new ≡ text.old ++ local_text reply.now) }
{
    match reply {
        LocalReply::Done => text.push("  ok\n"),
        LocalReply::Count(count) => push_count_reply(text, *count),
        LocalReply::Rows(snapshot) => text.push(graph_text(alloc, snapshot)?.as_str()),
        LocalReply::Refused(refusal) => push_refusal(text, refusal),
    }
}
