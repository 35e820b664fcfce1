//! Reading a script.
ghost use Rattle.std.specs.Prelude.{◌≡◌, ◌≤◌, length, IfOk, IfErr};
ghost use Rattle.script_read.specs.Faults.{Writes};
ghost use Rattle.script_read.specs.Lines.{lines_of, line_step};
ghost use Rattle.script_read.specs.Meaning.{IsScript, NamesFirst, script_lines, kept_lines};
ghost use Rattle.script_read.specs.Script.{opening, ended, fault_at, script_of, ReadsScript};

use crate::fault::{LineFault, LineWhy};
use crate::lines::{cleaned, first_line, is_passed};
use crate::reading::{OpenSource, Reading, Section, end_phase, no_block, read_in_section};
use crate::{Script, ScriptFault};
use column_types::{List, Text};
use std::alloc::Global;

/// The script that bytes stand for.
///
/// The script has names, numbers and lengths as the grammar says, and the lines that it spells are, in order, those that
/// were read and not passed over. `BadLine` comes exactly where a line has a fault, or the script ends inside a source; it
/// names the first such line, and the first of its faults in the order of `LineWhy`. `NoMemory` comes where memory ran out.
pub fn read_script(alloc: Global, bytes: &[u8]) -> Result<Script, ScriptFault>
    requires { length bytes.now ≤ 16777216 }
    ensures reads { ReadsScript result (script_of bytes.now) }
    ensures script { IfOk result IsScript }
    ensures spelled { IfOk result (λ s. script_lines s ≡ kept_lines (lines_of bytes.now)) }
    ensures first { IfErr result (NamesFirst (lines_of bytes.now)) }
{
    read_lines(alloc, bytes)
}

/// Reads line by line.
fn read_lines(alloc: Global, bytes: &[u8]) -> Result<Script, ScriptFault>
    requires { length bytes.now ≤ 16777216 }
    ensures { ReadsScript result (script_of bytes.now) }
{
    let mut reading = opening(alloc);
    let mut rest = bytes;
    let mut number = 1u64;
    while !rest.is_empty() {
        let (line, after) = first_line(rest);
        match read_line(alloc, &mut reading, cleaned(line)) {
            Ok(()) => {}
            Err(fault) => return Err(at_line(number, fault)),
        }
        rest = after;
        number += 1;
    }
    finish(alloc, reading, number)
}

/// A line's fault, at the line's number.
fn at_line(number: u64, fault: LineFault) -> ScriptFault
    ensures { result ≡ fault_at number fault }
{
    match fault {
        LineFault::Bad(why) => ScriptFault::BadLine { line: number, why },
        LineFault::NoMemory => ScriptFault::NoMemory,
    }
}

/// What is read before the first line.
fn opening(alloc: Global) -> Reading
    ensures { result ≡ opening }
{
    Reading {
        section: Section::Start,
        sources: List::new(alloc),
        source: OpenSource {
            name: Text::new(alloc),
            vertices: List::new(alloc),
            edges: List::new(alloc),
        },
        actors: List::new(alloc),
        phases: List::new(alloc),
        blocks: List::new(alloc),
        block: no_block(alloc),
        command_count: 0,
    }
}

/// Reads a cleaned line.
#[tactic(auto, using(crate::proofs::Feeds::text_rules), unfolding(crate::specs::Lines::line_step))]
fn read_line(alloc: Global, reading: &mut Reading, line: &[u8]) -> Result<(), LineFault>
    ensures { Writes result reading.new (line_step reading.old line.now) }
{
    if is_passed(line) {
        return Ok(());
    }
    match str::from_utf8(line) {
        Ok(text) => read_in_section(alloc, reading, text),
        Err(_) => Err(LineFault::Bad(LineWhy::Utf8)),
    }
}

/// The script that has been read at its end, where `number` would be the next line.
#[tactic(auto, unfolding(crate::specs::Script::ended))]
fn finish(alloc: Global, reading: Reading, number: u64) -> Result<Script, ScriptFault>
    ensures { ReadsScript result (ended number reading) }
{
    let mut reading = reading;
    match reading.section {
        Section::Start => {}
        Section::Vertices | Section::Edges => {
            let why = LineWhy::End;
            return Err(ScriptFault::BadLine { line: number, why });
        }
        Section::Phase | Section::Actor => end_phase(alloc, &mut reading)?,
    }
    Ok(Script {
        sources: reading.sources,
        actors: reading.actors,
        phases: reading.phases,
    })
}
