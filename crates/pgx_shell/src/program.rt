//! The whole program, over any outside.
ghost use Rattle.std.specs.Prelude.{◌≡◌, ◌⊎◌, ◌≤◌, IfErr, OnOk, map, string_bytes};
ghost use Rattle.std.specs.Io.KnownBytes.{IsAtEnd};
ghost use Rattle.pgx_shell.specs.Causes.{StopCause, StopWrites};
ghost use Rattle.pgx_shell.specs.Texts.{ActionOutcome, Wrote};
ghost use Rattle.pgx_shell.specs.Ending.{Ending, usage, stopped, EndsWell, WritesOrFails, StopTold, LineTold, ending_text, ending_status};
ghost use Rattle.pgx_shell.specs.Outside.{outside_of, ReadFailed, WriteFailed};
ghost use Rattle.pgx_shell.specs.Statuses.{DidAll, SaidUsage, SaidScript, SaidSource, WroteFront, IfAccepted, IfRefused};
ghost use Rattle.pgx_shell.specs.declared.stop.Stop.{Stop};

use crate::lines::{NO_MEMORY_LINE, error_text, status_of, usage_text};
use crate::words::read_words;
use crate::{Action, Done, Stop, check, once};
use pgx_io::{Gate, Library, Sink, Source, write_all};
use std::alloc::Global;
use std::thread::Threads;

/// How the program ended: 0 done; 2 the words are no form; 3 the script is too long or outside the grammar; 4 a file is missing, or
/// a configuration or a record is at fault; 5 out of memory; 6 the outside could not be read; 7 the outside could not be written.
#[derive(Clone, Copy, Debug, PartialEq, Eq)]
pub struct Status {
    pub code: u8,
}

/// Does all that the program does: what the words ask for, over the source, the library and the sink.
pub fn top<R: Threads + Sync, S: Source, L: Library, K: Sink, G: Gate>(
    rt: &R,
    alloc: Global,
    words: &[String],
    src: &mut S,
    lib: &mut L,
    out: &mut K,
    _gate: &G,
) -> Status
    // Every ending has its cause, its text and its status. The second line of a clause is the outside before the call, and after it.
    ensures ends { EndsWell (map string_bytes words.now)
        (outside_of (S.seen src.old) (L.seen lib.old) (K.seen out.old)) (outside_of (S.seen src.new) (L.seen lib.new) (K.seen out.new)) result.code }

    // Done: the script was read to its end, and what the words ask for was done.
    ensures read { result.code ≡ 0 → IsAtEnd (S.seen src.new).rest }
    ensures done { result.code ≡ 0 → DidAll (map string_bytes words.now)
        (outside_of (S.seen src.old) (L.seen lib.old) (K.seen out.old)) (outside_of (S.seen src.new) (L.seen lib.new) (K.seen out.new)) }

    // Status by status.
    ensures usage { result.code ≡ 2 → SaidUsage (map string_bytes words.now)
        (outside_of (S.seen src.old) (L.seen lib.old) (K.seen out.old)) (outside_of (S.seen src.new) (L.seen lib.new) (K.seen out.new)) }
    ensures script { result.code ≡ 3 → SaidScript
        (outside_of (S.seen src.old) (L.seen lib.old) (K.seen out.old)) (outside_of (S.seen src.new) (L.seen lib.new) (K.seen out.new)) }
    ensures source { result.code ≡ 4 → SaidSource
        (outside_of (S.seen src.old) (L.seen lib.old) (K.seen out.old)) (outside_of (S.seen src.new) (L.seen lib.new) (K.seen out.new)) }
    ensures read_fault { result.code ≡ 6 → ReadFailed
        (outside_of (S.seen src.old) (L.seen lib.old) (K.seen out.old)) (outside_of (S.seen src.new) (L.seen lib.new) (K.seen out.new)) }
    ensures write_fault { result.code ≡ 7 → WriteFailed
        (outside_of (S.seen src.old) (L.seen lib.old) (K.seen out.old)) (outside_of (S.seen src.new) (L.seen lib.new) (K.seen out.new)) }
    ensures front { result.code ≡ 7 → WroteFront (map string_bytes words.now)
        (outside_of (S.seen src.old) (L.seen lib.old) (K.seen out.old)) (outside_of (S.seen src.new) (L.seen lib.new) (K.seen out.new)) }

    // Where nothing failed outside and memory was there, a form ends with 0 over an accepted script and files, and over refused ones
    // with the status of that stop.
    ensures complete { IfAccepted (map string_bytes words.now)
        (outside_of (S.seen src.old) (L.seen lib.old) (K.seen out.old)) (outside_of (S.seen src.new) (L.seen lib.new) (K.seen out.new)) result.code }
    ensures refused { IfRefused (map string_bytes words.now)
        (outside_of (S.seen src.old) (L.seen lib.old) (K.seen out.old)) (outside_of (S.seen src.new) (L.seen lib.new) (K.seen out.new)) result.code }
{
    conclude(rt, alloc, words, src, lib, out)
}

/// Does what the words ask for, or says that they are no form.
fn conclude<R: Threads + Sync, S: Source, L: Library, K: Sink>(
    rt: &R,
    alloc: Global,
    words: &[String],
    src: &mut S,
    lib: &mut L,
    out: &mut K,
) -> Status
    ensures ends { EndsWell (map string_bytes words.now)
        (outside_of (S.seen src.old) (L.seen lib.old) (K.seen out.old)) (outside_of (S.seen src.new) (L.seen lib.new) (K.seen out.new)) result.code }
    ensures read { result.code ≡ 0 → IsAtEnd (S.seen src.new).rest }
{
    let action = match read_words(words) {
        Ok(action) => action,
        Err(place) => return tell_usage(alloc, place as u64, out),
    };
    match act(rt, alloc, action, src, lib, out) {
        Ok(_) => Status { code: 0 },
        Err(stop) => tell_stop(alloc, stop, out),
    }
}

/// Does what the words ask for.
fn act<R: Threads + Sync, S: Source, L: Library, K: Sink>(
    rt: &R,
    alloc: Global,
    action: Action,
    src: &mut S,
    lib: &mut L,
    out: &mut K,
) -> Result<Done, Stop>
    ensures read { OnOk result (IsAtEnd (S.seen src.new).rest) }
    ensures written { OnOk result (Wrote (ActionOutcome action)
        (outside_of (S.seen src.old) (L.seen lib.old) (K.seen out.old)) (outside_of (S.seen src.new) (L.seen lib.new) (K.seen out.new))) }
    ensures cause { IfErr result (StopCause
        (outside_of (S.seen src.old) (L.seen lib.old) (K.seen out.old)) (outside_of (S.seen src.new) (L.seen lib.new) (K.seen out.new))) }
    ensures left { IfErr result (StopWrites (ActionOutcome action)
        (outside_of (S.seen src.old) (L.seen lib.old) (K.seen out.old)) (outside_of (S.seen src.new) (L.seen lib.new) (K.seen out.new))) }
    ensures sink_later { (K.seen out.old).faults ≤ (K.seen out.new).faults }
{
    match action {
        Action::Once => once(rt, alloc, 1, src, lib, out),
        Action::Check => check(alloc, src, lib, out),
    }
}

/// Ends a call that stopped. After a fault in writing nothing more is written.
fn tell_stop<K: Sink>(alloc: Global, stop: Stop, out: &mut K) -> Status
    ensures told { StopTold (K.seen out.old) (K.seen out.new) stop result.code }
    ensures later { (K.seen out.old).faults ≤ (K.seen out.new).faults }
{
    match stop {
        Stop::WriteFault => Status { code: 7 },
        other => tell_line(alloc, &other, out),
    }
}

/// Writes the line of a stop, or that there is no memory for it.
fn tell_line<K: Sink>(alloc: Global, stop: &Stop, out: &mut K) -> Status
    ensures told { LineTold (K.seen out.old) (K.seen out.new) stop.now result.code }
    ensures later { (K.seen out.old).faults ≤ (K.seen out.new).faults }
{
    match error_text(alloc, stop) {
        Ok(text) => tell(out, text.as_str(), status_of(stop)),
        Err(_) => tell(out, NO_MEMORY_LINE, 5),
    }
}

/// Writes the usage line, or that there is no memory for it.
fn tell_usage<K: Sink>(alloc: Global, place: u64, out: &mut K) -> Status
    ensures { (ending : Ending) × ((ending ≡ usage place) ⊎ (ending ≡ stopped Stop.NoMemory))
        × WritesOrFails (K.seen out.old) (K.seen out.new) (ending_text ending) (ending_status ending) result.code }
{
    match usage_text(alloc, place) {
        Ok(text) => tell(out, text.as_str(), 2),
        Err(_) => tell(out, NO_MEMORY_LINE, 5),
    }
}

/// Writes a text, and answers the status, or 7 where the sink failed.
fn tell<K: Sink>(out: &mut K, text: &str, code: u8) -> Status
    ensures told { WritesOrFails (K.seen out.old) (K.seen out.new) text.now code result.code }
    ensures later { (K.seen out.old).faults ≤ (K.seen out.new).faults }
{
    match write_all(out, text.as_bytes()) {
        Ok(()) => Status { code },
        Err(_) => Status { code: 7 },
    }
}
