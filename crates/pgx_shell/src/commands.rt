//! The commands `once` and `check`.
ghost use Rattle.std.specs.Prelude.{◌≡◌, ◌⊎◌, ◌≤◌, IfOk, IfErr, OnOk, IfSome, Ok, None};
ghost use Rattle.std.specs.Io.KnownBytes.{Appends, IsAtEnd};
ghost use Rattle.pgx_io.specs.Files.{KeepsFiles};
ghost use Rattle.pgx_io.specs.ReadWrite.{AppendsFront};
ghost use Rattle.pgx_io.specs.Seen.{SourceFailed, LibraryFailed, SinkFailed};
ghost use Rattle.pgx_shell.specs.Outside.{outside_of};
ghost use Rattle.pgx_shell.specs.Expected.{expected_script};
ghost use Rattle.script_read.specs.Meaning.{IsScript};
ghost use Rattle.pgx_shell.specs.Causes.{ScriptCause, CauseOf, StopCause, StopWrites};
ghost use Rattle.pgx_shell.specs.Texts.{OnceOutcome, CheckOutcome, Wrote};

use crate::Stop;
use crate::counts::counts_text;
use crate::printing::journal;
use column_types::Text;
use pgx_io::{Library, ReadAllFault, Sink, Source, read_all, write_all};
use script_read::{Script, ScriptFault, read_script};
use script_run::run_script;
use source_open::{check_sources, open_sources};
use std::alloc::Global;
use std::thread::Threads;

/// The script, where the command reads one, was read to its end, and the whole text was written.
#[derive(Clone, Copy, Debug)]
pub struct Done {}

/// Runs the script of a source over its sources, one command after another, and writes its journal.
pub fn once<R: Threads + Sync, S: Source, L: Library, K: Sink>(
    rt: &R,
    alloc: Global,
    workers: u32,
    src: &mut S,
    lib: &mut L,
    out: &mut K,
) -> Result<Done, Stop>
    // Done: the source was read to its end, and the sink took the journal of a run of its script.
    ensures read { OnOk result (IsAtEnd (S.seen src.new).rest) }
    ensures written { OnOk result (Wrote OnceOutcome
        (outside_of (S.seen src.old) (L.seen lib.old) (K.seen out.old)) (outside_of (S.seen src.new) (L.seen lib.new) (K.seen out.new))) }

    // A stop has its cause, and says what was written.
    ensures cause { IfErr result (StopCause
        (outside_of (S.seen src.old) (L.seen lib.old) (K.seen out.old)) (outside_of (S.seen src.new) (L.seen lib.new) (K.seen out.new))) }
    ensures left { IfErr result (StopWrites OnceOutcome
        (outside_of (S.seen src.old) (L.seen lib.old) (K.seen out.old)) (outside_of (S.seen src.new) (L.seen lib.new) (K.seen out.new))) }

    // Faults are never taken back, and the files stay.
    ensures source_later { (S.seen src.old).faults ≤ (S.seen src.new).faults }
    ensures library_later { (L.seen lib.old).faults ≤ (L.seen lib.new).faults }
    ensures library_same { KeepsFiles (L.seen lib.old).files (L.seen lib.new).files }
    ensures sink_later { (K.seen out.old).faults ≤ (K.seen out.new).faults }
{
    let text = once_text(rt, alloc, workers, src, lib)?;
    write_text(out, text.as_str())
}

/// Reads the script of a source and its sources, and writes the line `ok S A C` of the numbers of sources, actors and commands.
pub fn check<S: Source, L: Library, K: Sink>(
    alloc: Global,
    src: &mut S,
    lib: &mut L,
    out: &mut K,
) -> Result<Done, Stop>
    // Done: the source was read to its end, and the sink took the line of its script, whose sources can be opened.
    ensures read { OnOk result (IsAtEnd (S.seen src.new).rest) }
    ensures written { OnOk result (Wrote CheckOutcome
        (outside_of (S.seen src.old) (L.seen lib.old) (K.seen out.old)) (outside_of (S.seen src.new) (L.seen lib.new) (K.seen out.new))) }

    // A stop has its cause, and says what was written.
    ensures cause { IfErr result (StopCause
        (outside_of (S.seen src.old) (L.seen lib.old) (K.seen out.old)) (outside_of (S.seen src.new) (L.seen lib.new) (K.seen out.new))) }
    ensures left { IfErr result (StopWrites CheckOutcome
        (outside_of (S.seen src.old) (L.seen lib.old) (K.seen out.old)) (outside_of (S.seen src.new) (L.seen lib.new) (K.seen out.new))) }

    // Faults are never taken back, and the files stay.
    ensures source_later { (S.seen src.old).faults ≤ (S.seen src.new).faults }
    ensures library_later { (L.seen lib.old).faults ≤ (L.seen lib.new).faults }
    ensures library_same { KeepsFiles (L.seen lib.old).files (L.seen lib.new).files }
    ensures sink_later { (K.seen out.old).faults ≤ (K.seen out.new).faults }
{
    let text = check_text(alloc, src, lib)?;
    write_text(out, text.as_str())
}

/// The journal of the script of a source.
fn once_text<R: Threads + Sync, S: Source, L: Library>(
    rt: &R,
    alloc: Global,
    workers: u32,
    src: &mut S,
    lib: &mut L,
) -> Result<Text, Stop>
    ensures read { OnOk result (IsAtEnd (S.seen src.new).rest) }
    ensures text { IfOk result (λ text. OnceOutcome (S.seen src.old).rest (L.seen lib.old).files (record { text = text; book = None })) }
    ensures cause { IfErr result (CauseOf (S.seen src.old).rest (L.seen lib.old).files
        (SourceFailed (S.seen src.old) (S.seen src.new) ⊎ LibraryFailed (L.seen lib.old) (L.seen lib.new)) ⊥) }
    ensures later { (S.seen src.old).faults ≤ (S.seen src.new).faults }
    ensures library_later { (L.seen lib.old).faults ≤ (L.seen lib.new).faults }
    ensures library_same { KeepsFiles (L.seen lib.old).files (L.seen lib.new).files }
{
    let script = read_source(alloc, src)?;
    let sources = open_sources(rt, alloc, script.sources.as_slice(), lib)?;
    let records = run_script(rt, alloc, &script, sources, workers)?;
    Ok(journal(rt, alloc, records.as_slice(), script.actors.as_slice())?)
}

/// The line of numbers of the script of a source.
fn check_text<S: Source, L: Library>(alloc: Global, src: &mut S, lib: &mut L) -> Result<Text, Stop>
    ensures read { OnOk result (IsAtEnd (S.seen src.new).rest) }
    ensures text { IfOk result (λ text. CheckOutcome (S.seen src.old).rest (L.seen lib.old).files (record { text = text; book = None })) }
    ensures cause { IfErr result (CauseOf (S.seen src.old).rest (L.seen lib.old).files
        (SourceFailed (S.seen src.old) (S.seen src.new) ⊎ LibraryFailed (L.seen lib.old) (L.seen lib.new)) ⊥) }
    ensures later { (S.seen src.old).faults ≤ (S.seen src.new).faults }
    ensures library_later { (L.seen lib.old).faults ≤ (L.seen lib.new).faults }
    ensures library_same { KeepsFiles (L.seen lib.old).files (L.seen lib.new).files }
{
    let script = read_source(alloc, src)?;
    check_sources(alloc, script.sources.as_slice(), lib)?;
    Ok(counts_text(alloc, &script)?)
}

/// Writes a whole text.
fn write_text<K: Sink>(out: &mut K, text: &str) -> Result<Done, Stop>
    ensures ok { OnOk result (Appends (K.seen out.old).taken (K.seen out.new).taken text.now) }
    ensures err { IfErr result (λ stop. (stop ≡ Stop.WriteFault) × SinkFailed (K.seen out.old) (K.seen out.new)
        × AppendsFront (K.seen out.old).taken (K.seen out.new).taken text.now) }
    ensures later { (K.seen out.old).faults ≤ (K.seen out.new).faults }
{
    match write_all(out, text.as_bytes()) {
        Ok(()) => Ok(Done {}),
        Err(_) => Err(Stop::WriteFault),
    }
}

/// Reads a source to its end, and its script.
fn read_source<S: Source>(alloc: Global, src: &mut S) -> Result<Script, Stop>
    ensures ok { IfOk result (λ script. IfSome (S.seen src.old).rest (λ bytes. expected_script bytes ≡ Ok script)) }
    ensures script { IfOk result IsScript }
    ensures end { OnOk result (IsAtEnd (S.seen src.new).rest) }
    ensures cause { IfErr result (ScriptCause (S.seen src.old) (S.seen src.new)) }
    ensures later { (S.seen src.old).faults ≤ (S.seen src.new).faults }
{
    let bytes = match read_all(alloc, src) {
        Ok(bytes) => bytes,
        Err(ReadAllFault::TooLong) => return Err(Stop::TooLong),
        Err(ReadAllFault::Failed) => return Err(Stop::ReadFault),
        Err(ReadAllFault::NoMemory) => return Err(Stop::NoMemory),
    };
    match read_script(alloc, bytes.as_slice()) {
        Ok(script) => Ok(script),
        Err(ScriptFault::BadLine { line, why }) => Err(Stop::BadLine { line, why }),
        Err(ScriptFault::NoMemory) => Err(Stop::NoMemory),
    }
}
