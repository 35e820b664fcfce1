//! The lines that tell of published graphs.
ghost use Rattle.std.specs.Prelude.{◌≡◌, ◌++◌, OnOk, OnErr, map, codes};
ghost use Rattle.std.specs.Io.{StartsWith};
ghost use Rattle.journal_text.specs.Lines.{spaced};
ghost use Rattle.journal_text.specs.Published.{snap_text, source_text, published_words, published_line, lines_text};

use crate::lines::push_count_reply;
use crate::names::name_of;
use crate::number::push_count;
use crate::words::{Word, push_spaced};
use catalogue_state::LineInfo;
use column_types::{NoMemory, Text};

/// Appends the id and the front of a snapshot.
fn push_snap(text: &mut Text, snap: &(u64, u64)) -> Result<(), NoMemory>
    ensures ok { OnOk result (text.new ≡ text.old ++ codes " " ++ snap_text snap.now) }
    ensures begins { OnErr result (StartsWith text.new text.old) }
{
    text.push(" ")?;
    push_count(text, snap.0)?;
    text.push(":")?;
    push_count(text, snap.1)
}

/// Appends snapshots, a space before each.
fn push_snaps(text: &mut Text, snaps: &[(u64, u64)]) -> Result<(), NoMemory>
    ensures ok { OnOk result (text.new ≡ text.old ++ spaced (map snap_text snaps.now)) }
    ensures begins { OnErr result (StartsWith text.new text.old) }
{
    for snap in snaps {
        push_snap(text, snap)?;
    }
    Ok(())
}

/// The name of a published graph's source, or `none`.
fn source_name(source: &Option<Text>) -> &str
    ensures { result.now ≡ source_text source.now }
{
    match source {
        Some(source) => source.as_str(),
        None => "none",
    }
}

/// Appends what is told of a published graph before its snapshots.
fn push_published<'a>(
    text: &mut Text,
    info: &'a LineInfo,
    names: &'a [Text],
) -> Result<(), NoMemory>
    ensures ok { OnOk result (text.new ≡ text.old ++ spaced (published_words names.now info.now)) }
    ensures begins { OnErr result (StartsWith text.new text.old) }
{
    push_spaced(
        text,
        &[
            Word::Name("owner"),
            Word::Name(name_of(names, info.owner)),
            Word::Name("source"),
            Word::Name(source_name(&info.source)),
            Word::Name("keep"),
            Word::Number(u64::from(info.keep)),
            Word::Name("threshold"),
            Word::Number(info.threshold),
            Word::Name("snaps"),
        ],
    )
}

/// Appends the line of a published graph.
fn push_info(text: &mut Text, info: &LineInfo, names: &[Text]) -> Result<(), NoMemory>
    ensures ok { OnOk result (text.new ≡ text.old ++ published_line names.now info.now) }
    ensures begins { OnErr result (StartsWith text.new text.old) }
{
    text.push("  ")?;
    text.push(info.name.as_str())?;
    push_published(text, info, names)?;
    push_snaps(text, info.snaps.as_slice())?;
    text.push("\n")
}

/// Appends the number of published graphs, and the line of each.
pub fn push_lines(text: &mut Text, infos: &[LineInfo], names: &[Text]) -> Result<(), NoMemory>
    ensures ok { OnOk result (text.new ≡ text.old ++ lines_text names.now infos.now) }
    ensures begins { OnErr result (StartsWith text.new text.old) }
{
    push_count_reply(text, infos.len() as u64)?;
    for info in infos {
        push_info(text, info, names)?;
    }
    Ok(())
}
