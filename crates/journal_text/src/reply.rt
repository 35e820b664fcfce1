//! Replies and refusals.
ghost use Rattle.std.specs.Prelude.{◌≡◌, [], ◌∷◌, ◌++◌, OnOk, OnErr, map, codes};
ghost use Rattle.std.specs.Fmt.{decimal};
ghost use Rattle.std.specs.Io.{StartsWith};
ghost use Rattle.journal_text.specs.Lines.{reply_line};
ghost use Rattle.journal_text.specs.Causes.{cause_word, why_name};
ghost use Rattle.journal_text.specs.Words.{word_text};
ghost use Rattle.journal_text.specs.Replies.{reply_text, refused, refusal_text, starved_text};

use crate::causes::{cause_word, why_name};
use crate::lines::push_line;
use crate::published::push_lines;
use crate::words::{Word, push_numbers, push_spaced};
use catalogue_state::{Refusal, Reply};
use change_feed::RowCause;
use column_types::{NoMemory, Text};
use graph_model::Why;

fn push_columns(text: &mut Text, columns: &[u64]) -> Result<(), NoMemory>
    ensures ok { OnOk result (text.new ≡ text.old ++ reply_line (codes "ok") (map decimal columns.now)) }
    ensures begins { OnErr result (StartsWith text.new text.old) }
{
    text.push("  ok")?;
    push_numbers(text, columns)?;
    text.push("\n")
}

/// Appends the lines of a reply, each ended by a line feed. Actor i has the name at place i - 1. After running out of memory the text begins with the old one, and a part of
/// the lines may stand behind it.
pub fn push_reply(text: &mut Text, reply: &Reply, names: &[Text]) -> Result<(), NoMemory>
    ensures ok { OnOk result (text.new ≡ text.old ++ reply_text names.now reply.now) }
    ensures begins { OnErr result (StartsWith text.new text.old) }
{
    match reply {
        Reply::Done => push_line(text, "ok", &[]),
        Reply::Front(front) => {
            push_line(text, "ok", &[Word::Name("front"), Word::Number(*front)])
        }
        Reply::Sid(sid) => push_line(text, "ok", &[Word::Name("sid"), Word::Number(*sid)]),
        Reply::Columns(columns) => push_columns(text, columns.as_slice()),
        Reply::Lines(infos) => push_lines(text, infos.as_slice(), names),
        Reply::Refused(refusal) => push_refusal(text, refusal),
    }
}

/// Appends the line of a refusal by its number, its name and its values.
fn push_refused(text: &mut Text, number: u64, name: &str, values: &[Word]) -> Result<(), NoMemory>
    ensures ok { OnOk result (text.new ≡ text.old ++ refused number name.now (map word_text values.now)) }
    ensures begins { OnErr result (StartsWith text.new text.old) }
{
    text.push("  refused")?;
    push_spaced(text, &[Word::Number(number), Word::Name(name)])?;
    push_spaced(text, values)?;
    text.push("\n")
}

/// Appends the line of a refusal whose one value is a name.
fn push_named(text: &mut Text, number: u64, name: &str, value: &Text) -> Result<(), NoMemory>
    ensures ok { OnOk result (text.new ≡ text.old ++ refused number name.now (value.now ∷ [])) }
    ensures begins { OnErr result (StartsWith text.new text.old) }
{
    push_refused(text, number, name, &[Word::Name(value.as_str())])
}

/// Appends the line of a refusal whose one value is a number.
fn push_numbered(text: &mut Text, number: u64, name: &str, value: u64) -> Result<(), NoMemory>
    ensures ok { OnOk result (text.new ≡ text.old ++ refused number name.now (decimal value ∷ [])) }
    ensures begins { OnErr result (StartsWith text.new text.old) }
{
    push_refused(text, number, name, &[Word::Number(value)])
}

fn push_bad_row(text: &mut Text, row: u64, cause: RowCause) -> Result<(), NoMemory>
    ensures ok { OnOk result (text.new ≡ text.old ++ refused 14 (codes "BadRow") (decimal row ∷ cause_word cause ∷ [])) }
    ensures begins { OnErr result (StartsWith text.new text.old) }
{
    let values = [Word::Number(row), Word::Name(cause_word(cause))];
    push_refused(text, 14, "BadRow", &values)
}

fn push_bad_change(text: &mut Text, place: u32, why: Why) -> Result<(), NoMemory>
    ensures ok { OnOk result (text.new ≡ text.old ++ refused 15 (codes "BadChange") (decimal place ∷ why_name why ∷ [])) }
    ensures begins { OnErr result (StartsWith text.new text.old) }
{
    let values = [Word::Number(u64::from(place)), Word::Name(why_name(why))];
    push_refused(text, 15, "BadChange", &values)
}

/// Appends the line of a refusal: its number, its name and its values. After running out of memory the text begins with the old one, and
/// a part of the line may stand behind it.
pub fn push_refusal(text: &mut Text, refusal: &Refusal) -> Result<(), NoMemory>
    ensures ok { OnOk result (text.new ≡ text.old ++ refusal_text refusal.now) }
    ensures begins { OnErr result (StartsWith text.new text.old) }
{
    match refusal {
        Refusal::TooBig => push_refused(text, 2, "TooBig", &[]),
        Refusal::BadRow(row, cause) => push_bad_row(text, *row, *cause),
        Refusal::BadChange(place, why) => push_bad_change(text, *place, *why),
        Refusal::MixedEnds(table) => push_named(text, 16, "MixedEnds", table),
        Refusal::KeysSpent => push_refused(text, 17, "KeysSpent", &[]),
        Refusal::SessionsFull => push_refused(text, 18, "SessionsFull", &[]),
        Refusal::NoSource(name) => push_named(text, 19, "NoSource", name),
        Refusal::NameTaken(name) => push_named(text, 21, "NameTaken", name),
        Refusal::GraphsFull => push_refused(text, 22, "GraphsFull", &[]),
        Refusal::NoName(name) => push_named(text, 23, "NoName", name),
        Refusal::NotPrivate(name) => push_named(text, 24, "NotPrivate", name),
        Refusal::LineTaken(line) => push_named(text, 25, "LineTaken", line),
        Refusal::LinesFull => push_refused(text, 26, "LinesFull", &[]),
        Refusal::NoLine(line) => push_named(text, 27, "NoLine", line),
        Refusal::NotOwner(line) => push_named(text, 28, "NotOwner", line),
        Refusal::NoSnapshot(sid) => push_numbered(text, 29, "NoSnapshot", *sid),
        Refusal::Sourced(line) => push_named(text, 30, "Sourced", line),
        Refusal::NotLatest(sid) => push_numbered(text, 31, "NotLatest", *sid),
        Refusal::NotVisible(visible) => push_numbered(text, 32, "NotVisible", *visible),
        Refusal::NotPinned(name) => push_named(text, 33, "NotPinned", name),
        Refusal::NotOpen => push_refused(text, 48, "NotOpen", &[]),
        Refusal::AlreadyOpen => push_refused(text, 49, "AlreadyOpen", &[]),
    }
}

/// Appends the reply line of a call that found no memory.
pub fn push_starved(text: &mut Text) -> Result<(), NoMemory>
    ensures ok { OnOk result (text.new ≡ text.old ++ starved_text) }
    ensures err { OnErr result (text.new ≡ text.old) }
{
    text.push("  no memory\n")
}
