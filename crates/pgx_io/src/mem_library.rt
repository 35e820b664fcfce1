//! Libraries in memory.
ghost use Rattle.std.specs.Prelude.{◌≡◌, ℕ, List, Some, IfOk, OnOk, IsErrOf, ◌↔◌, Contains};
ghost use Rattle.pgx_io.specs.Files.{file_of, Finds, KeepsFiles, GetsWithCause};
ghost use Rattle.pgx_io.specs.Memory.{one_more};

use crate::mem_source::is_listed;
use crate::{GetFault, Library};
use column_types::{List, NoMemory, Text};
use std::alloc::Global;
use std::marker::Model;

/// Files in memory, got without failure: seen as the list of names and bytes. Of several with one name the first counts.
#[derive(Drop)]
pub struct SureLibrary {
    listed: List<(Text, List<u8>)>,
}

impl Model for SureLibrary {
    ghost use Rattle.std.specs.Prelude.{List, ℕ};

    ghost Value = { List (List ℕ × List ℕ) };

    ghost view = { λ l. l.listed };
}

impl SureLibrary {
    pub fn new(files: List<(Text, List<u8>)>) -> SureLibrary
        ensures { result ≡ files }
    {
        SureLibrary { listed: files }
    }
}

impl Library for SureLibrary {
    ghost seen = { λ l. record { files = Some (file_of l); faults = 0 } };

    fn get(&mut self, alloc: Global, name: &str) -> Result<Option<List<u8>>, GetFault>
        ensures found { Finds (Some (file_of self.old)) name.now result }
        ensures same { self.new ≡ self.old }
        ensures cause { GetsWithCause 0 0 result }
    {
        Ok(copy_first(alloc, self.listed.as_slice(), name)?)
    }
}

/// A copy of the first file of this name.
fn copy_first(
    alloc: Global,
    files: &[(Text, List<u8>)],
    name: &str,
) -> Result<Option<List<u8>>, NoMemory>
    ensures { IfOk result (λ found. found ≡ file_of files.now name.now) }
{
    for file in files {
        if file.0.as_str() == name {
            let bytes = List::from_slice(alloc, file.1.as_slice())?;
            return Ok(Some(bytes));
        }
    }
    Ok(None)
}

/// Files in memory whose listed calls fail: seen as the files, the numbers of the failing calls, and how many calls were
/// made and have failed.
#[derive(Drop)]
pub struct MemLibrary {
    inner: SureLibrary,
    fails: List<u32>,
    calls: u64,
    faults: u64,
}

impl Model for MemLibrary {
    ghost use Rattle.pgx_io.specs.Memory.{FailingFiles};

    ghost Value = { FailingFiles };

    ghost view = { λ l. record { files = l.inner; fails = l.fails; calls = l.calls; faults = l.faults } };
}

impl MemLibrary {
    /// A library of `files`. The calls whose numbers `fails` lists fail, counted from 1.
    pub fn new(files: List<(Text, List<u8>)>, fails: List<u32>) -> MemLibrary
        ensures { result ≡ record { files = files; fails = fails; calls = 0; faults = 0 } }
    {
        MemLibrary {
            inner: SureLibrary::new(files),
            fails,
            calls: 0,
            faults: 0,
        }
    }
}

impl Library for MemLibrary {
    ghost use Rattle.pgx_io.specs.declared.library.GetFault.TheVariants.{Failed};

    ghost seen = { λ l. record { files = Some (file_of l.files); faults = l.faults } };

    fn get(&mut self, alloc: Global, name: &str) -> Result<Option<List<u8>>, GetFault>
        ensures found { Finds (Some (file_of self.old.files)) name.now result }
        ensures same { KeepsFiles (Some (file_of self.old.files)) (Some (file_of self.new.files)) }
        ensures cause { GetsWithCause self.old.faults self.new.faults result }
        ensures listed { IsErrOf result Failed ↔ Contains self.old.fails (one_more self.old.calls) }
        ensures counted { self.new.calls ≡ one_more self.old.calls }
        ensures failed { IsErrOf result Failed → self.new.faults ≡ one_more self.old.faults }
        ensures fine { OnOk result (self.new.faults ≡ self.old.faults) }
        ensures no_memory { IsErrOf result GetFault.NoMemory → self.new.faults ≡ self.old.faults }
        ensures kept { (self.new.files ≡ self.old.files) × (self.new.fails ≡ self.old.fails) }
    {
        self.calls = self.calls.saturating_add(1);
        if is_listed(self.fails.as_slice(), self.calls) {
            self.faults = self.faults.saturating_add(1);
            return Err(GetFault::Failed);
        }
        self.inner.get(alloc, name)
    }
}
