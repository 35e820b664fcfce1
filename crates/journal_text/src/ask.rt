//! Calls.
ghost use Rattle.std.specs.Prelude.{◌≡◌, [], ◌∷◌, ◌++◌, OnOk, OnErr, map, codes};
ghost use Rattle.std.specs.Io.{StartsWith};
ghost use Rattle.journal_text.specs.Lines.{phrase};
ghost use Rattle.journal_text.specs.Words.{word_text};
ghost use Rattle.journal_text.specs.Asks.{append_text, ask_text, derive_text, mutation_name, publish_text, target_text};

use crate::words::{Word, push_spaced};
use catalogue_state::{Ask, How, Target};
use changeset::ChangeList;
use column_types::{NoMemory, Text};
use graph_mutate::Mutation;

/// Appends a word and further words.
fn push_phrase(text: &mut Text, first: &str, words: &[Word]) -> Result<(), NoMemory>
    ensures ok { OnOk result (text.new ≡ text.old ++ phrase first.now (map word_text words.now)) }
    ensures begins { OnErr result (StartsWith text.new text.old) }
{
    text.push(first)?;
    push_spaced(text, words)
}

/// The change of a whole graph, as a script names it.
fn mutation_name(mutation: &Mutation) -> &'static str
    ensures { result.now ≡ mutation_name mutation.now }
{
    match mutation {
        Mutation::Clone => "clone",
        Mutation::Transpose => "transpose",
        Mutation::Undirect => "undirect",
        Mutation::Simplify => "simplify",
        Mutation::SortByDegree => "sortdeg",
    }
}

fn push_derive<'a>(
    text: &mut Text,
    name: &'a Text,
    base: &'a Text,
    how: &'a How,
) -> Result<(), NoMemory>
    ensures ok { OnOk result (text.new ≡ text.old ++ derive_text name.now base.now how.now) }
    ensures begins { OnErr result (StartsWith text.new text.old) }
{
    let (name, base) = (Word::Name(name.as_str()), Word::Name(base.as_str()));
    let (from, by) = (Word::Name("from"), Word::Name("by"));
    match how {
        How::Mutate(mutation) => {
            let way = Word::Name(mutation_name(mutation));
            push_phrase(text, "derive", &[name, from, base, by, way])
        }
        How::Changes(changes) => {
            let way = Word::Name("changes");
            let count = Word::Number(u64::from(changes.len()));
            push_phrase(text, "derive", &[name, from, base, by, way, count])
        }
    }
}

fn push_append(text: &mut Text, name: &Text, changes: &ChangeList) -> Result<(), NoMemory>
    ensures ok { OnOk result (text.new ≡ text.old ++ append_text name.now changes.now) }
    ensures begins { OnErr result (StartsWith text.new text.old) }
{
    push_phrase(
        text,
        "append",
        &[
            Word::Name(name.as_str()),
            Word::Name("changes"),
            Word::Number(u64::from(changes.len())),
        ],
    )
}

fn push_publish<'a>(
    text: &mut Text,
    name: &'a Text,
    line: &'a Text,
    keep: u32,
    threshold: u64,
) -> Result<(), NoMemory>
    ensures ok { OnOk result (text.new ≡ text.old ++ publish_text name.now line.now keep threshold) }
    ensures begins { OnErr result (StartsWith text.new text.old) }
{
    push_phrase(
        text,
        "publish",
        &[
            Word::Name(name.as_str()),
            Word::Name("as"),
            Word::Name(line.as_str()),
            Word::Name("keep"),
            Word::Number(u64::from(keep)),
            Word::Name("threshold"),
            Word::Number(threshold),
        ],
    )
}

/// The snapshot that is asked for: its id, or `latest`.
fn target_word(target: &Target) -> Word<'static>
    ensures { word_text result ≡ target_text target.now }
{
    match target {
        Target::Sid(sid) => Word::Number(*sid),
        Target::Latest => Word::Name("latest"),
    }
}

fn push_get<'a>(text: &mut Text, name: &'a Text, line: &'a Text) -> Result<(), NoMemory>
    ensures ok { OnOk result (text.new ≡ text.old ++ phrase (codes "get") (name.now ∷ codes "from" ∷ line.now ∷ [])) }
    ensures begins { OnErr result (StartsWith text.new text.old) }
{
    push_phrase(
        text,
        "get",
        &[
            Word::Name(name.as_str()),
            Word::Name("from"),
            Word::Name(line.as_str()),
        ],
    )
}

fn push_checkout(text: &mut Text, name: &Text, target: &Target) -> Result<(), NoMemory>
    ensures ok { OnOk result (text.new ≡ text.old ++ phrase (codes "checkout") (name.now ∷ codes "at" ∷ target_text target.now ∷ [])) }
    ensures begins { OnErr result (StartsWith text.new text.old) }
{
    push_phrase(
        text,
        "checkout",
        &[
            Word::Name(name.as_str()),
            Word::Name("at"),
            target_word(target),
        ],
    )
}

/// Appends a call as it stands in a head line. After running out of memory the text begins with the old one, and a part of the call may
/// stand behind it.
pub fn push_ask(text: &mut Text, ask: &Ask) -> Result<(), NoMemory>
    ensures ok { OnOk result (text.new ≡ text.old ++ ask_text ask.now) }
    ensures begins { OnErr result (StartsWith text.new text.old) }
{
    match ask {
        Ask::OpenSession => text.push("open"),
        Ask::CloseSession => text.push("close"),
        Ask::Peek { source } => push_phrase(text, "peek", &[Word::Name(source.as_str())]),
        Ask::Place {
            name,
            source,
            front,
        } => push_phrase(
            text,
            "place",
            &[
                Word::Name(name.as_str()),
                Word::Name("from"),
                Word::Name(source.as_str()),
                Word::Name("at"),
                Word::Number(*front),
            ],
        ),
        Ask::Derive { name, base, how } => push_derive(text, name, base, how),
        Ask::Publish {
            name,
            line,
            keep,
            threshold,
        } => push_publish(text, name, line, *keep, *threshold),
        Ask::Unpublish { line } => push_phrase(text, "unpublish", &[Word::Name(line.as_str())]),
        Ask::Get { line, name } => push_get(text, name, line),
        Ask::Checkout { name, target } => push_checkout(text, name, target),
        Ask::Append { name, changes } => push_append(text, name, changes),
        Ask::Release { name } => push_phrase(text, "release", &[Word::Name(name.as_str())]),
        Ask::Columns => text.push("columns"),
        Ask::Lines => text.push("lines"),
    }
}
