//! Opening the sources of a script.
ghost use Rattle.std.specs.Prelude.{◌≡◌, ◌<◌, ◌≤◌, Ok, IsOk, IfOk, OnOk, IfErr, IfSome, All};
ghost use Rattle.pgx_io.specs.Files.{KeepsFiles};
ghost use Rattle.source_open.specs.Opening.{opened, source_opened, names_of, opened_names, HasNoChanges, IsInlineOf, AreInlineOf, OpenCause};

use crate::SourceFault;
use crate::files::read_source_graph;
use catalogue::SourceData;
use column_types::{List, Shared, Steps, Text};
use graph_snap::Snapshot;
use pgx_io::Library;
use script_read::SourceText;
use std::alloc::Global;
use std::marker::Brand;
use std::sync::ledger::{Blank, Ledger};
use std::thread::Threads;

/// Opens the sources in their order, up to the first that is at fault.
pub fn open_sources<R: Threads + Sync, L: Library>(
    rt: &R,
    alloc: Global,
    sources: &[SourceText],
    lib: &mut L,
) -> Result<List<Shared<SourceData>>, SourceFault>
    requires no_changes { All (λ source. HasNoChanges source.form) sources.now }
    ensures ok { IfOk result (λ openings. IfSome (L.seen lib.old).files (λ files. opened files sources.now ≡ Ok openings)) }
    ensures names { IfOk result (λ openings. opened_names openings ≡ names_of sources.now) }
    ensures inline { IfOk result (λ openings. AreInlineOf sources.now openings) }
    ensures cause { IfErr result (OpenCause (L.seen lib.old) (L.seen lib.new) (λ files. opened files sources.now)) }
    ensures same { KeepsFiles (L.seen lib.old).files (L.seen lib.new).files }
    ensures later { (L.seen lib.old).faults ≤ (L.seen lib.new).faults }
{
    open_counted::<Brand, _, _>(rt, alloc, Blank::new(1), sources, lib)
}

/// The same by a counter of steps that nobody reads.
fn open_counted<C: Ledger, R: Threads + Sync, L: Library>(
    rt: &R,
    alloc: Global,
    blank: Blank,
    sources: &[SourceText],
    lib: &mut L,
) -> Result<List<Shared<SourceData>>, SourceFault>
    requires name { blank.name ≡ C.name }
    requires parts { blank.parts ≡ C.parts }
    requires some { 0 < blank.parts }
    ensures ok { IfOk result (λ openings. IfSome (L.seen lib.old).files (λ files. opened files sources.now ≡ Ok openings)) }
    ensures names { IfOk result (λ openings. opened_names openings ≡ names_of sources.now) }
    ensures inline { IfOk result (λ openings. AreInlineOf sources.now openings) }
    ensures cause { IfErr result (OpenCause (L.seen lib.old) (L.seen lib.new) (λ files. opened files sources.now)) }
    ensures same { KeepsFiles (L.seen lib.old).files (L.seen lib.new).files }
    ensures later { (L.seen lib.old).faults ≤ (L.seen lib.new).faults }
{
    let mut steps = Steps::<C>::new(rt, blank);
    let mut openings = List::new(alloc);
    for source in sources {
        let opening = open_source(alloc, source, lib, &mut steps)?;
        openings.push(opening)?;
    }
    Ok(openings)
}

fn open_source<C: Ledger, L: Library>(
    alloc: Global,
    source: &SourceText,
    lib: &mut L,
    steps: &mut Steps<C>,
) -> Result<Shared<SourceData>, SourceFault>
    ensures ok { IfOk result (λ opening. IfSome (L.seen lib.old).files (λ files. source_opened files source.now ≡ Ok opening)) }
    ensures name { IfOk result (λ opening. opening.name ≡ source.now.name) }
    ensures inline { IfOk result (λ opening. IsInlineOf source.now.form opening) }
    ensures cause { IfErr result (OpenCause (L.seen lib.old) (L.seen lib.new) (λ files. source_opened files source.now)) }
    ensures same { KeepsFiles (L.seen lib.old).files (L.seen lib.new).files }
    ensures later { (L.seen lib.old).faults ≤ (L.seen lib.new).faults }
{
    let graph = read_source_graph(alloc, source, lib)?;
    let opening = SourceData {
        name: Text::from_str(alloc, source.name.as_str())?,
        opening: Snapshot::of_graph(alloc, graph, steps)?,
        changes: List::new(alloc),
    };
    Ok(Shared::new(alloc, opening)?)
}

/// Reads the sources in their order, up to the first that is at fault, and keeps none of them.
pub fn check_sources<L: Library>(
    alloc: Global,
    sources: &[SourceText],
    lib: &mut L,
) -> Result<(), SourceFault>
    requires no_changes { All (λ source. HasNoChanges source.form) sources.now }
    ensures ok { OnOk result (IfSome (L.seen lib.old).files (λ files. IsOk (opened files sources.now))) }
    ensures cause { IfErr result (OpenCause (L.seen lib.old) (L.seen lib.new) (λ files. opened files sources.now)) }
    ensures same { KeepsFiles (L.seen lib.old).files (L.seen lib.new).files }
    ensures later { (L.seen lib.old).faults ≤ (L.seen lib.new).faults }
{
    for source in sources {
        check_source(alloc, source, lib)?;
    }
    Ok(())
}

/// Reads a source, and does not keep it.
fn check_source<L: Library>(
    alloc: Global,
    source: &SourceText,
    lib: &mut L,
) -> Result<(), SourceFault>
    ensures ok { OnOk result (IfSome (L.seen lib.old).files (λ files. IsOk (source_opened files source.now))) }
    ensures cause { IfErr result (OpenCause (L.seen lib.old) (L.seen lib.new) (λ files. source_opened files source.now)) }
    ensures same { KeepsFiles (L.seen lib.old).files (L.seen lib.new).files }
    ensures later { (L.seen lib.old).faults ≤ (L.seen lib.new).faults }
{
    read_source_graph(alloc, source, lib)?;
    Ok(())
}
