//! Cases of libraries.
use crate::{numbers_of, push_bytes};
use column_types::{List, NoMemory, Text};
use pgx_io::{DirLibrary, GetFault, Library, MemLibrary, SureLibrary};
use std::alloc::Global;
use std::rt::Files;

/// `library FAILS|PART..`.
pub fn library(alloc: Global, fails: &str, parts: &str) -> Result<Text, NoMemory> {
    let files = files_of(alloc, parts)?;
    if fails == "-" {
        return lookups(alloc, &mut SureLibrary::new(files), parts);
    }
    let fails = numbers_of(alloc, fails)?;
    lookups(alloc, &mut MemLibrary::new(files, fails), parts)
}

/// `file NAME`.
pub fn file<F: Files>(alloc: Global, folder: &F, name: &str) -> Result<Text, NoMemory> {
    let mut out = Text::new(alloc);
    push_lookup(alloc, &mut out, &mut DirLibrary::new(folder), name)?;
    Ok(out)
}

/// The parts that are files.
fn files_of(alloc: Global, parts: &str) -> Result<List<(Text, List<u8>)>, NoMemory> {
    let mut files = List::new(alloc);
    for part in parts.split('|') {
        if let Some((name, text)) = part.split_once('=') {
            files.push(file_of(alloc, name, text)?)?;
        }
    }
    Ok(files)
}

fn file_of(alloc: Global, name: &str, text: &str) -> Result<(Text, List<u8>), NoMemory> {
    let name = Text::from_str(alloc, name)?;
    let bytes = List::from_slice(alloc, text.as_bytes())?;
    Ok((name, bytes))
}

/// What looking up each part that is a name gives.
fn lookups<L: Library>(alloc: Global, library: &mut L, parts: &str) -> Result<Text, NoMemory> {
    let mut out = Text::new(alloc);
    for part in parts.split('|') {
        if part.split_once('=').is_none() {
            out.push(if out.is_empty() { "" } else { "|" })?;
            push_lookup(alloc, &mut out, library, part)?;
        }
    }
    Ok(out)
}

fn push_lookup<L: Library>(
    alloc: Global,
    out: &mut Text,
    library: &mut L,
    name: &str,
) -> Result<(), NoMemory> {
    match library.get(alloc, name) {
        Ok(Some(bytes)) => {
            out.push("found '")?;
            push_bytes(out, bytes.as_slice())?;
            out.push("'")
        }
        Ok(None) => out.push("none"),
        Err(GetFault::Failed) => out.push("failed"),
        Err(GetFault::NoMemory) => Err(NoMemory),
    }
}
