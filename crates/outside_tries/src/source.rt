//! Cases of sources.
use crate::{number_of, numbers_of, push_bytes};
use column_types::{List, NoMemory, Text};
use pgx_io::{MemSource, ReadAllFault, Source, StdinSource, SureSource, read_all};
use std::alloc::Global;
use std::fs;
use std::rt::Files;

/// `source PIECE|FAILS|TEXT`.
pub fn source(alloc: Global, piece: &str, rest: &str) -> Result<Text, NoMemory> {
    let (fails, text) = rest.split_once('|').unwrap_or((rest, ""));
    let piece = number_of(piece);
    if piece == 0 {
        return Text::from_str(alloc, "no piece");
    }
    let bytes = List::from_slice(alloc, text.as_bytes())?;
    if fails == "-" {
        return readings(alloc, &mut SureSource::new(bytes, piece));
    }
    let fails = numbers_of(alloc, fails)?;
    readings(alloc, &mut MemSource::new(bytes, piece, fails))
}

/// `long PIECE|LENGTH`.
pub fn long(alloc: Global, piece: &str, length: &str) -> Result<Text, NoMemory> {
    let piece = number_of(piece);
    if piece == 0 {
        return Text::from_str(alloc, "no piece");
    }
    let bytes = List::from_vec(vec![in alloc; 7u8; number_of(length) as usize]?);
    length_read(alloc, &mut SureSource::new(bytes, piece))
}

/// How many bytes a reading to the end gives.
fn length_read<S: Source>(alloc: Global, source: &mut S) -> Result<Text, NoMemory> {
    let mut out = Text::new(alloc);
    match read_all(alloc, source) {
        Ok(bytes) => {
            let length = format!(in alloc; "{} bytes", bytes.len())?;
            out.push(length.as_str())?;
        }
        Err(fault) => push_fault(&mut out, fault)?,
    }
    Ok(out)
}

/// `open NAME`.
pub fn open<R: Files>(rt: &R, alloc: Global, name: &str) -> Result<Text, NoMemory> {
    match fs::open(rt, name) {
        Ok(file) => readings(alloc, &mut StdinSource::new(file)),
        Err(_) => Text::from_str(alloc, "no such file"),
    }
}

/// What two readings to the end give.
fn readings<S: Source>(alloc: Global, source: &mut S) -> Result<Text, NoMemory> {
    let mut out = Text::new(alloc);
    push_reading(alloc, &mut out, source)?;
    out.push("|")?;
    push_reading(alloc, &mut out, source)?;
    Ok(out)
}

fn push_reading<S: Source>(alloc: Global, out: &mut Text, source: &mut S) -> Result<(), NoMemory> {
    match read_all(alloc, source) {
        Ok(bytes) => push_bytes(out, bytes.as_slice()),
        Err(fault) => push_fault(out, fault),
    }
}

fn push_fault(out: &mut Text, fault: ReadAllFault) -> Result<(), NoMemory> {
    match fault {
        ReadAllFault::TooLong => out.push("too long"),
        ReadAllFault::Failed => out.push("failed"),
        ReadAllFault::NoMemory => Err(NoMemory),
    }
}
