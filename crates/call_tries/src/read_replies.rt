//! Replies and refusals from their names and values.
use catalogue::{LineInfo, Refusal, Reply};
use change_feed::RowCause;
use column_types::{List, NoMemory, Text};
use graph_model::Why;
use std::alloc::Global;

/// The reply that a text stands for, as `Sid 1`. None where it stands for none.
pub fn read_reply(alloc: Global, text: &str) -> Result<Option<Reply>, NoMemory> {
    let (name, rest) = text.split_once(' ').unwrap_or((text, ""));
    match name {
        "Done" => Ok(Some(Reply::Done)),
        "Front" => Ok(rest.parse::<u64>().ok().map(Reply::Front)),
        "Sid" => Ok(rest.parse::<u64>().ok().map(Reply::Sid)),
        "Columns" => Ok(Some(Reply::Columns(read_numbers(alloc, rest)?))),
        "Lines" => Ok(Some(Reply::Lines(read_infos(alloc, rest)?))),
        "Refused" => Ok(read_refusal(alloc, rest)?.map(Reply::Refused)),
        _ => Ok(None),
    }
}

/// The replies of texts with ` | ` between them, without those that are none.
pub fn read_all_replies(alloc: Global, texts: &str) -> Result<List<Reply>, NoMemory> {
    let mut replies = List::new(alloc);
    for text in texts.split(" | ") {
        if let Some(reply) = read_reply(alloc, text)? {
            replies.push(reply)?;
        }
    }
    Ok(replies)
}

/// The numbers among words.
fn read_numbers(alloc: Global, words: &str) -> Result<List<u64>, NoMemory> {
    let mut numbers = List::new(alloc);
    for word in words.split(' ') {
        if let Ok(number) = word.parse::<u64>() {
            numbers.push(number)?;
        }
    }
    Ok(numbers)
}

/// The published graphs of texts as `people 1 s 2 10 3:0 5:4` with `, ` between them.
fn read_infos(alloc: Global, texts: &str) -> Result<List<LineInfo>, NoMemory> {
    let mut infos = List::new(alloc);
    for text in texts.split(", ") {
        if let Some(info) = read_info(alloc, text)? {
            infos.push(info)?;
        }
    }
    Ok(infos)
}

/// A published graph: its name, the number of its owner, its source or `none`, how many snapshots it keeps, its threshold, and its
/// snapshots.
fn read_info(alloc: Global, text: &str) -> Result<Option<LineInfo>, NoMemory> {
    let mut words = text.split(' ');
    let (Some(name), Some(owner), Some(source)) = (words.next(), words.next(), words.next()) else {
        return Ok(None);
    };
    let (Some(keep), Some(threshold)) = (words.next(), words.next()) else {
        return Ok(None);
    };
    let (Ok(owner), Ok(keep), Ok(threshold)) = (owner.parse(), keep.parse(), threshold.parse())
    else {
        return Ok(None);
    };
    Ok(Some(LineInfo {
        name: Text::from_str(alloc, name)?,
        owner,
        source: read_source(alloc, source)?,
        keep,
        threshold,
        snaps: read_snaps(alloc, text)?,
    }))
}

fn read_source(alloc: Global, word: &str) -> Result<Option<Text>, NoMemory> {
    match word {
        "none" => Ok(None),
        _ => Ok(Some(Text::from_str(alloc, word)?)),
    }
}

/// The snapshots among words, as `3:0`: an id and a front.
fn read_snaps(alloc: Global, words: &str) -> Result<List<(u64, u64)>, NoMemory> {
    let mut snaps = List::new(alloc);
    for word in words.split(' ') {
        if let Some((sid, front)) = word.split_once(':') {
            if let (Ok(sid), Ok(front)) = (sid.parse::<u64>(), front.parse::<u64>()) {
                snaps.push((sid, front))?;
            }
        }
    }
    Ok(snaps)
}

/// The refusal that a text stands for, as `NoSource s`. None where it stands for none.
pub fn read_refusal(alloc: Global, text: &str) -> Result<Option<Refusal>, NoMemory> {
    let (name, value) = text.split_once(' ').unwrap_or((text, ""));
    match name {
        "TooBig" => Ok(Some(Refusal::TooBig)),
        "BadRow" => Ok(read_bad_row(value)),
        "BadChange" => Ok(read_bad_change(value)),
        "KeysSpent" => Ok(Some(Refusal::KeysSpent)),
        "SessionsFull" => Ok(Some(Refusal::SessionsFull)),
        "GraphsFull" => Ok(Some(Refusal::GraphsFull)),
        "LinesFull" => Ok(Some(Refusal::LinesFull)),
        "NotOpen" => Ok(Some(Refusal::NotOpen)),
        "AlreadyOpen" => Ok(Some(Refusal::AlreadyOpen)),
        "NoSnapshot" => Ok(value.parse::<u64>().ok().map(Refusal::NoSnapshot)),
        "NotLatest" => Ok(value.parse::<u64>().ok().map(Refusal::NotLatest)),
        "NotVisible" => Ok(value.parse::<u64>().ok().map(Refusal::NotVisible)),
        _ => read_named_refusal(name, Text::from_str(alloc, value)?),
    }
}

/// The refusal of this name, whose value is a name.
fn read_named_refusal(name: &str, value: Text) -> Result<Option<Refusal>, NoMemory> {
    match name {
        "MixedEnds" => Ok(Some(Refusal::MixedEnds(value))),
        "NoSource" => Ok(Some(Refusal::NoSource(value))),
        "NameTaken" => Ok(Some(Refusal::NameTaken(value))),
        "NoName" => Ok(Some(Refusal::NoName(value))),
        "NotPrivate" => Ok(Some(Refusal::NotPrivate(value))),
        "LineTaken" => Ok(Some(Refusal::LineTaken(value))),
        "NoLine" => Ok(Some(Refusal::NoLine(value))),
        "NotOwner" => Ok(Some(Refusal::NotOwner(value))),
        "Sourced" => Ok(Some(Refusal::Sourced(value))),
        "NotPinned" => Ok(Some(Refusal::NotPinned(value))),
        _ => Ok(None),
    }
}

/// The refusal of a row and its cause, as `3 count`.
fn read_bad_row(values: &str) -> Option<Refusal> {
    let (row, cause) = values.split_once(' ')?;
    Some(Refusal::BadRow(row.parse().ok()?, read_cause(cause)?))
}

fn read_cause(word: &str) -> Option<RowCause> {
    match word {
        "utf8" => Some(RowCause::Utf8),
        "word" => Some(RowCause::Word),
        "table" => Some(RowCause::Table),
        "count" => Some(RowCause::Count),
        "prop" => Some(RowCause::Prop),
        "field" => Some(RowCause::Field),
        _ => None,
    }
}

/// The refusal of a change at its place and its cause, as `2 KeyTaken`.
fn read_bad_change(values: &str) -> Option<Refusal> {
    let (place, why) = values.split_once(' ')?;
    Some(Refusal::BadChange(place.parse().ok()?, read_why(why)?))
}

fn read_why(word: &str) -> Option<Why> {
    match word {
        "Table" => Some(Why::Table),
        "Count" => Some(Why::Count),
        "Prop" => Some(Why::Prop),
        "Kind" => Some(Why::Kind),
        "KeyTaken" => Some(Why::KeyTaken),
        "KeyMissing" => Some(Why::KeyMissing),
        "EndMissing" => Some(Why::EndMissing),
        "HasEdges" => Some(Why::HasEdges),
        "Limit" => Some(Why::Limit),
        _ => None,
    }
}
