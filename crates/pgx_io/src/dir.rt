//! The files of the working folder, and no others. They tell nothing of what they hold.
ghost use Rattle.std.specs.Prelude.{◌≡◌, ◌≤◌, None, Ok, Err, true, ltb, length, IfOk, IfSome};
ghost use Rattle.pgx_io.specs.Causes.{FaultCountRose};
ghost use Rattle.pgx_io.specs.Files.{Finds, KeepsFiles, GetsWithCause};
ghost use Rattle.pgx_io.specs.Names.{climbs, is_absolute, leads_out};

use crate::{GetFault, Library};
use column_types::List;
use std::alloc::Global;
use std::fs::{self, File};
use std::io::{self, ErrorKind, Read};
use std::marker::Model;
use std::rt::Files;

/// The most bytes of a file. To get a longer one is a failure.
pub const FILE_LIMIT: u64 = 268_435_456;

/// The files of the working folder, seen as how often a look-up has failed.
///
/// The folder is a fence: a name that is absolute, or that has a part `..`, finds no file, whatever the system has under it.
/// A symbolic link in the folder is followed. A file that is missing is none; whatever else keeps its bytes from being read is
/// a failure, and so is a name under which no regular file stands: a folder, a pipe or a device is never opened.
#[derive(Drop)]
pub struct DirLibrary<F: Files> {
    folder: F,
    failures: u64,
}

impl<F: Files> Model for DirLibrary<F> {
    ghost use Rattle.std.specs.Prelude.{ℕ};

    ghost Value = { ℕ };

    ghost view = { λ l. l.failures };
}

impl<F: Files> DirLibrary<F> {
    pub fn new(folder: F) -> DirLibrary<F>
        ensures { result ≡ 0 }
    {
        DirLibrary {
            folder,
            failures: 0,
        }
    }
}

impl<F: Files> Library for DirLibrary<F> {
    ghost seen = { λ l. record { files = None; faults = l } };

    fn get(&mut self, alloc: Global, name: &str) -> Result<Option<List<u8>>, GetFault>
        ensures found { Finds None name.now result }
        ensures same { KeepsFiles None None }
        ensures cause { GetsWithCause self.old self.new result }
        ensures fence { leads_out name.now ≡ true → result ≡ Ok None }
        ensures short { IfOk result (λ found. IfSome found (λ bytes. length bytes ≤ 268435456)) }
    {
        if leads_out(name) {
            return Ok(None);
        }
        let answer = read_file(alloc, &self.folder, name);
        if let Err(GetFault::Failed) = answer {
            self.failures = self.failures.saturating_add(1);
        }
        answer
    }
}

/// Whether a name begins with a slash.
fn is_absolute(name: &str) -> bool
    ensures { result ≡ is_absolute name.now }
{
    matches!(name.as_bytes(), [b'/', ..])
}

/// Whether a part of a name is `..`.
fn climbs(name: &str) -> bool
    ensures { result ≡ climbs name.now }
{
    name.split('/').any(|part| part == "..")
}

/// Whether a name leads out of the folder that it is looked for in.
fn leads_out(name: &str) -> bool
    ensures { result ≡ leads_out name.now }
{
    is_absolute(name) || climbs(name)
}

/// Opens a regular file.
fn open_regular<F: Files>(folder: &F, name: &str) -> io::Result<F::File> {
    if !fs::metadata(folder, name)?.is_file() {
        return Err(io::Error::from(ErrorKind::InvalidInput));
    }
    File::open(folder, name)
}

/// What is answered where a file was not opened: none only where the system says that there is no such file.
fn not_opened(kind: ErrorKind) -> Result<Option<List<u8>>, GetFault>
    ensures missing { result ≡ Ok None → kind ≡ ErrorKind.NotFound }
    ensures nothing { IfOk result (λ found. found ≡ None) }
    ensures memory { result ≡ Err GetFault.NoMemory → kind ≡ ErrorKind.OutOfMemory }
{
    match kind {
        ErrorKind::NotFound => Ok(None),
        _ => Err(fault_of(kind)),
    }
}

/// Why a file was not read.
fn fault_of(kind: ErrorKind) -> GetFault
    ensures memory { result ≡ GetFault.NoMemory → kind ≡ ErrorKind.OutOfMemory }
{
    match kind {
        ErrorKind::OutOfMemory => GetFault::NoMemory,
        _ => GetFault::Failed,
    }
}

/// Whether so many bytes are too many for a file.
fn is_too_long(count: usize) -> bool
    ensures { result ≡ ltb 268435456 count }
{
    count as u64 > FILE_LIMIT
}

/// All bytes of a file, where there are at most `FILE_LIMIT`. More are a failure.
fn read_whole<R: Read + Drop>(alloc: Global, file: R) -> Result<List<u8>, GetFault>
    ensures short { IfOk result (λ bytes. length bytes ≤ 268435456) }
{
    let mut bytes = Vec::new(alloc);
    match file.take(FILE_LIMIT + 1).read_to_end(&mut bytes) {
        Ok(count) if !is_too_long(count) => Ok(List::from_vec(bytes)),
        Ok(_) => Err(GetFault::Failed),
        Err(error) => Err(fault_of(error.kind())),
    }
}

fn read_file<F: Files>(alloc: Global, folder: &F, name: &str) -> Result<Option<List<u8>>, GetFault>
    ensures short { IfOk result (λ found. IfSome found (λ bytes. length bytes ≤ 268435456)) }
{
    match open_regular(folder, name) {
        Ok(file) => Ok(Some(read_whole(alloc, file)?)),
        Err(error) => not_opened(error.kind()),
    }
}
