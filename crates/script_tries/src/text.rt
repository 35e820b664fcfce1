//! Texts of several lines, and long ones, written in one line.
//!
//! | written | is |
//! |---|---|
//! | `~` | a line feed |
//! | `%` | a carriage return |
//! | `>` | a tab |
//! | `^` | the byte 255, which no UTF-8 has |
//! | `PART&PART` | the parts, one after the other |
//! | `N*PART` | the part N times, and in it `@` is the number of the time, from 1 |
use std::alloc::{AllocError, Global};

/// The bytes that a text stands for.
pub fn bytes_of(alloc: Global, text: &str) -> Result<Vec<u8>, AllocError> {
    let mut bytes = Vec::new(alloc);
    for part in text.split('&') {
        push_part(alloc, &mut bytes, part)?;
    }
    Ok(bytes)
}

fn push_part(alloc: Global, bytes: &mut Vec<u8>, part: &str) -> Result<(), AllocError> {
    let (times, once) = times_of(part);
    for time in 0..times {
        push_once(alloc, bytes, once, time)?;
    }
    Ok(())
}

/// How often a part stands, and what stands so often.
fn times_of(part: &str) -> (u32, &str) {
    let (number, once) = part.split_once('*').unwrap_or(("", part));
    match number.parse::<u32>() {
        Ok(times) => (times, once),
        Err(_) => (1, part),
    }
}

/// Appends a part once. So often it was appended before.
fn push_once(
    alloc: Global,
    bytes: &mut Vec<u8>,
    part: &str,
    before: u32,
) -> Result<(), AllocError> {
    for byte in part.bytes() {
        match byte {
            b'@' => push_number(alloc, bytes, u64::from(before) + 1)?,
            _ => bytes.push(meant(byte))?,
        }
    }
    Ok(())
}

fn push_number(alloc: Global, bytes: &mut Vec<u8>, number: u64) -> Result<(), AllocError> {
    let digits = format!(in alloc; "{number}")?;
    bytes.extend_from_slice(digits.as_bytes())
}

/// The byte that a written byte stands for.
fn meant(byte: u8) -> u8 {
    match byte {
        b'~' => b'\n',
        b'%' => b'\r',
        b'>' => b'\t',
        b'^' => 255,
        _ => byte,
    }
}
