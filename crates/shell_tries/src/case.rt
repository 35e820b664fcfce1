//! A case: what the program is run over.
//!
//! | field | what it says |
//! |---|---|
//! | `run WORDS` | the words, with a space between them |
//! | `script TEXT` | the script; the empty one, where no field gives one |
//! | `file NAME TEXT` | a file; of two with one name the first counts |
//! | `fails source N` | the read of this number fails, from 1; so `library` for a look-up and `sink` for a write |
//! | `room N` | the sink has room for so many bytes, and not for 1,000 |
//! | `$NAME` | the field of that name |
use crate::text::bytes_of;
use column_types::{List, NoMemory, Text};
use std::alloc::{AllocError, Global};

/// What the program is run over.
#[derive(Drop)]
pub struct Case {
    pub words: Vec<String>,
    pub script: List<u8>,
    pub files: List<(Text, List<u8>)>,
    /// The numbers of the calls that fail.
    pub source_fails: List<u32>,
    pub library_fails: List<u32>,
    pub sink_fails: List<u32>,
    /// How many bytes the sink takes.
    pub room: u32,
}

/// Why a case is not run.
#[derive(Clone, Copy)]
pub enum Fault {
    NoSuchField,
    NoMemory,
}

impl From<NoMemory> for Fault {
    fn from(_error: NoMemory) -> Fault {
        Fault::NoMemory
    }
}

impl From<AllocError> for Fault {
    fn from(_error: AllocError) -> Fault {
        Fault::NoMemory
    }
}

/// The case of a line.
pub fn read_case(alloc: Global, known: &[(String, String)], line: &str) -> Result<Case, Fault> {
    let mut case = empty_case(alloc);
    for field in line.split(" | ") {
        take_field(alloc, &mut case, meaning(known, field)?)?;
    }
    Ok(case)
}

fn empty_case(alloc: Global) -> Case {
    Case {
        words: Vec::new(alloc),
        script: List::new(alloc),
        files: List::new(alloc),
        source_fails: List::new(alloc),
        library_fails: List::new(alloc),
        sink_fails: List::new(alloc),
        room: 1000,
    }
}

/// The field that a field stands for.
fn meaning<'a>(known: &'a [(String, String)], field: &'a str) -> Result<&'a str, Fault> {
    let Some(name) = field.strip_prefix('$') else {
        return Ok(field);
    };
    for named in known {
        if named.0.as_str() == name {
            return Ok(named.1.as_str());
        }
    }
    Err(Fault::NoSuchField)
}

fn take_field(alloc: Global, case: &mut Case, field: &str) -> Result<(), Fault> {
    let (word, rest) = field.split_once(' ').unwrap_or((field, ""));
    match word {
        "run" => take_words(alloc, &mut case.words, rest),
        "script" => take_bytes(alloc, &mut case.script, rest),
        "file" => take_file(alloc, &mut case.files, rest),
        "fails" => take_fail(case, rest),
        "room" => take_room(case, rest),
        _ => Err(Fault::NoSuchField),
    }
}

fn take_words(alloc: Global, words: &mut Vec<String>, text: &str) -> Result<(), Fault> {
    for word in text.split(' ') {
        if !word.is_empty() {
            let word = String::from_str(alloc, word)?;
            words.push(word).map_err(AllocError::from)?;
        }
    }
    Ok(())
}

fn take_bytes(alloc: Global, bytes: &mut List<u8>, text: &str) -> Result<(), Fault> {
    *bytes = List::from_vec(bytes_of(alloc, text)?);
    Ok(())
}

fn take_file(alloc: Global, files: &mut List<(Text, List<u8>)>, named: &str) -> Result<(), Fault> {
    let (name, text) = named.split_once(' ').unwrap_or((named, ""));
    let name = Text::from_str(alloc, name)?;
    let bytes = List::from_vec(bytes_of(alloc, text)?);
    files.push((name, bytes))?;
    Ok(())
}

/// Lets a call fail.
fn take_fail(case: &mut Case, call: &str) -> Result<(), Fault> {
    let (outside, number) = call.split_once(' ').unwrap_or((call, ""));
    let number = number_of(number)?;
    match outside {
        "source" => case.source_fails.push(number)?,
        "library" => case.library_fails.push(number)?,
        "sink" => case.sink_fails.push(number)?,
        _ => return Err(Fault::NoSuchField),
    }
    Ok(())
}

fn take_room(case: &mut Case, number: &str) -> Result<(), Fault> {
    case.room = number_of(number)?;
    Ok(())
}

fn number_of(text: &str) -> Result<u32, Fault> {
    match text.parse::<u32>() {
        Ok(number) => Ok(number),
        Err(_) => Err(Fault::NoSuchField),
    }
}
