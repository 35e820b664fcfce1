//! Calls from their texts.
use catalogue::{Ask, How, Target};
use changeset::ChangeList;
use column_types::{List, NoMemory, Text};
use graph_model::Change;
use graph_mutate::Mutation;
use std::alloc::Global;

/// The call that a text stands for, as the journal writes it. None where it stands for none.
pub fn read_call(alloc: Global, text: &str) -> Result<Option<Ask>, NoMemory> {
    let (word, rest) = text.split_once(' ').unwrap_or((text, ""));
    match word {
        "open" => Ok(Some(Ask::OpenSession)),
        "close" => Ok(Some(Ask::CloseSession)),
        "columns" => Ok(Some(Ask::Columns)),
        "lines" => Ok(Some(Ask::Lines)),
        "peek" => {
            let source = Text::from_str(alloc, rest)?;
            Ok(Some(Ask::Peek { source }))
        }
        "unpublish" => {
            let line = Text::from_str(alloc, rest)?;
            Ok(Some(Ask::Unpublish { line }))
        }
        "release" => {
            let name = Text::from_str(alloc, rest)?;
            Ok(Some(Ask::Release { name }))
        }
        "place" => read_place(alloc, rest),
        "derive" => read_derive(alloc, rest),
        "publish" => read_publish(alloc, rest),
        "append" => read_append(alloc, rest),
        "get" => read_get(alloc, rest),
        "checkout" => read_checkout(alloc, rest),
        _ => Ok(None),
    }
}

/// The call of `G from S at N`.
fn read_place(alloc: Global, text: &str) -> Result<Option<Ask>, NoMemory> {
    let Some((name, rest)) = text.split_once(" from ") else {
        return Ok(None);
    };
    let Some((source, front)) = rest.split_once(" at ") else {
        return Ok(None);
    };
    let Ok(front) = front.parse::<u64>() else {
        return Ok(None);
    };
    Ok(Some(Ask::Place {
        name: Text::from_str(alloc, name)?,
        source: Text::from_str(alloc, source)?,
        front,
    }))
}

/// The call of `G from H by WAY`.
fn read_derive(alloc: Global, text: &str) -> Result<Option<Ask>, NoMemory> {
    let Some((name, rest)) = text.split_once(" from ") else {
        return Ok(None);
    };
    let Some((base, way)) = rest.split_once(" by ") else {
        return Ok(None);
    };
    let Some(how) = read_way(alloc, way)? else {
        return Ok(None);
    };
    Ok(Some(Ask::Derive {
        name: Text::from_str(alloc, name)?,
        base: Text::from_str(alloc, base)?,
        how,
    }))
}

/// The way of `clone`, `changes 2` and so on.
fn read_way(alloc: Global, way: &str) -> Result<Option<How>, NoMemory> {
    match way.strip_prefix("changes ") {
        Some(count) => Ok(read_changes(alloc, count)?.map(How::Changes)),
        None => Ok(read_mutation(way).map(How::Mutate)),
    }
}

fn read_mutation(way: &str) -> Option<Mutation> {
    match way {
        "clone" => Some(Mutation::Clone),
        "transpose" => Some(Mutation::Transpose),
        "undirect" => Some(Mutation::Undirect),
        "simplify" => Some(Mutation::Simplify),
        "sortdeg" => Some(Mutation::SortByDegree),
        _ => None,
    }
}

/// As many changes as a number says: they put the vertices 1, 2 and so on into the first table.
fn read_changes(alloc: Global, count: &str) -> Result<Option<ChangeList>, NoMemory> {
    let Ok(count) = count.parse::<u32>() else {
        return Ok(None);
    };
    let mut changes = ChangeList::new(alloc);
    for key in 1..=count {
        add_vertex(alloc, &mut changes, i64::from(key))?;
    }
    Ok(Some(changes))
}

fn add_vertex(alloc: Global, changes: &mut ChangeList, key: i64) -> Result<(), NoMemory> {
    if changes.len() == u32::MAX {
        return Err(NoMemory);
    }
    changes.add(Change::InsertVertex {
        table: 0,
        key,
        values: List::new(alloc),
    })
}

/// The call of `G changes N`.
fn read_append(alloc: Global, text: &str) -> Result<Option<Ask>, NoMemory> {
    let Some((name, count)) = text.split_once(" changes ") else {
        return Ok(None);
    };
    let Some(changes) = read_changes(alloc, count)? else {
        return Ok(None);
    };
    Ok(Some(Ask::Append {
        name: Text::from_str(alloc, name)?,
        changes,
    }))
}

/// The call of `G as L keep K threshold T`.
fn read_publish(alloc: Global, text: &str) -> Result<Option<Ask>, NoMemory> {
    let Some((name, rest)) = text.split_once(" as ") else {
        return Ok(None);
    };
    let Some((line, rest)) = rest.split_once(" keep ") else {
        return Ok(None);
    };
    let Some((keep, threshold)) = rest.split_once(" threshold ") else {
        return Ok(None);
    };
    let (Ok(keep), Ok(threshold)) = (keep.parse::<u32>(), threshold.parse::<u64>()) else {
        return Ok(None);
    };
    Ok(Some(Ask::Publish {
        name: Text::from_str(alloc, name)?,
        line: Text::from_str(alloc, line)?,
        keep,
        threshold,
    }))
}

/// The call of `G from L`.
fn read_get(alloc: Global, text: &str) -> Result<Option<Ask>, NoMemory> {
    let Some((name, line)) = text.split_once(" from ") else {
        return Ok(None);
    };
    Ok(Some(Ask::Get {
        line: Text::from_str(alloc, line)?,
        name: Text::from_str(alloc, name)?,
    }))
}

/// The call of `G at SID` or `G at latest`.
fn read_checkout(alloc: Global, text: &str) -> Result<Option<Ask>, NoMemory> {
    let Some((name, target)) = text.split_once(" at ") else {
        return Ok(None);
    };
    let target = match target {
        "latest" => Some(Target::Latest),
        _ => target.parse::<u64>().ok().map(Target::Sid),
    };
    let Some(target) = target else {
        return Ok(None);
    };
    let name = Text::from_str(alloc, name)?;
    Ok(Some(Ask::Checkout { name, target }))
}
