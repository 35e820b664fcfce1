//! What has been read of a script, and what each kind of line does to it.
ghost use Rattle.std.specs.Prelude.{◌≡◌, ◌<◌, length, IfSome, OnOk};
ghost use Rattle.std.specs.List.{position};
ghost use Rattle.script_read.specs.Faults.{GivesSurely, Writes, WritesSurely};
ghost use Rattle.script_read.specs.Sections.{has_source, new_source, inline_line, files_line, source_line, vertex_line, edge_line, end_line, no_block, blocks_at, phase_ended, first_phase_line, phase_line, number_of, has_block, new_block, with_actor, actor_line, command_line, line_in};
ghost use Rattle.script_read.specs.Words.{same};

use crate::command::read_command;
use crate::fault::{LineFault, LineWhy};
use crate::later::comes_later;
use crate::words::{
    count_words, nth_word, read_alone, read_file_name, read_key, read_name, read_one_name,
};
use crate::{Block, SourceForm, SourceText};
use column_types::{List, NoMemory, Text};
use std::alloc::Global;

/// How many sources a script may have.
const MOST_SOURCES: usize = 64;

/// How many actors a script may have.
const MOST_ACTORS: usize = 128;

/// How many commands a script may have.
const MOST_COMMANDS: u32 = 65_536;

/// The section of the script in which the next line stands.
#[derive(Clone, Copy)]
pub enum Section {
    /// At the start, or after a source.
    Start,
    /// In an inline source, before its first `e` line.
    Vertices,
    /// In an inline source, after an `e` line.
    Edges,
    /// After `phase`.
    Phase,
    /// After `actor` or a command.
    Actor,
}

/// What has been read of the inline source that is not yet ended.
#[derive(Drop)]
pub struct OpenSource {
    pub name: Text,
    pub vertices: List<i64>,
    pub edges: List<(i64, i64, i64)>,
}

/// What has been read of a script.
#[derive(Drop)]
pub struct Reading {
    pub section: Section,
    pub sources: List<SourceText>,
    pub source: OpenSource,
    pub actors: List<Text>,
    /// The finished phases.
    pub phases: List<List<Block>>,
    /// The finished blocks of the open phase.
    pub blocks: List<Block>,
    /// The open block, behind an `actor` line.
    pub block: Block,
    /// The number of commands in all blocks.
    pub command_count: u32,
}

/// Reads a line by the section in which it stands. After an error nothing is said of what has been read.
#[tactic(auto, using(crate::proofs::Surely::writes_surely), unfolding(crate::specs::Sections::line_in, crate::specs::Sections::built_line))]
pub fn read_in_section(alloc: Global, reading: &mut Reading, line: &str) -> Result<(), LineFault>
    ensures { Writes result reading.new (line_in reading.old.section reading.old line.now) }
{
    let word = nth_word(line, 0);
    if comes_later(reading.section, word) {
        return Err(LineFault::Bad(LineWhy::Later));
    }
    match reading.section {
        Section::Start if word == "source" => read_source(alloc, reading, line),
        Section::Start if word == "phase" => read_first_phase(reading, line),
        Section::Vertices if word == "v" => read_vertex(reading, line),
        Section::Vertices | Section::Edges if word == "e" => read_edge(reading, line),
        Section::Vertices | Section::Edges if word == "end" => read_end(alloc, reading, line),
        Section::Phase | Section::Actor if word == "phase" => read_phase(alloc, reading, line),
        Section::Phase | Section::Actor if word == "actor" => read_actor(alloc, reading, line),
        Section::Actor => read_command_line(alloc, reading, line),
        _ => Err(LineFault::Bad(LineWhy::Word)),
    }
}

fn has_source(sources: &[SourceText], text: &str) -> bool
    ensures { result ≡ has_source sources.now text.now }
{
    sources.iter().any(|source| source.name.as_str() == text)
}

/// Nothing, where one more source may stand under a name.
#[tactic(auto, unfolding(crate::specs::Sections::new_source))]
fn check_new_source(sources: &[SourceText], name: &str) -> Result<(), LineFault>
    ensures { GivesSurely result (new_source sources.now name.now) }
{
    if has_source(sources, name) {
        return Err(LineFault::Bad(LineWhy::Twice));
    }
    if sources.len() >= MOST_SOURCES {
        return Err(LineFault::Bad(LineWhy::Many));
    }
    Ok(())
}

#[tactic(auto, unfolding(crate::specs::Sections::source_line))]
fn read_source(alloc: Global, reading: &mut Reading, line: &str) -> Result<(), LineFault>
    ensures { Writes result reading.new (source_line reading.old line.now) }
{
    if nth_word(line, 2) == "config" {
        read_files(alloc, reading, line)
    } else {
        read_inline(alloc, reading, line)
    }
}

#[tactic(auto, unfolding(crate::specs::Sections::files_line))]
fn read_files(alloc: Global, reading: &mut Reading, line: &str) -> Result<(), LineFault>
    ensures { Writes result reading.new (files_line reading.old line.now) }
{
    if !(count_words(line) == 4 && nth_word(line, 2) == "config") {
        return Err(LineFault::Bad(LineWhy::Form));
    }
    let name = read_name(alloc, nth_word(line, 1))?;
    let config = read_file_name(alloc, nth_word(line, 3))?;
    check_new_source(reading.sources.as_slice(), name.as_str())?;
    let changes = None;
    let form = SourceForm::Files { config, changes };
    reading.sources.push(SourceText { name, form })?;
    Ok(())
}

#[tactic(auto, unfolding(crate::specs::Sections::inline_line))]
fn read_inline(alloc: Global, reading: &mut Reading, line: &str) -> Result<(), LineFault>
    ensures { Writes result reading.new (inline_line reading.old line.now) }
{
    if !(count_words(line) == 3 && nth_word(line, 2) == "inline") {
        return Err(LineFault::Bad(LineWhy::Form));
    }
    let name = read_name(alloc, nth_word(line, 1))?;
    check_new_source(reading.sources.as_slice(), name.as_str())?;
    reading.source = OpenSource {
        name,
        vertices: List::new(alloc),
        edges: List::new(alloc),
    };
    reading.section = Section::Vertices;
    Ok(())
}

#[tactic(auto, unfolding(crate::specs::Sections::vertex_line))]
fn read_vertex(reading: &mut Reading, line: &str) -> Result<(), LineFault>
    ensures { Writes result reading.new (vertex_line reading.old line.now) }
{
    if count_words(line) != 2 {
        return Err(LineFault::Bad(LineWhy::Form));
    }
    let key = read_key(nth_word(line, 1))?;
    reading.source.vertices.push(key)?;
    Ok(())
}

#[tactic(auto, unfolding(crate::specs::Sections::edge_line))]
fn read_edge(reading: &mut Reading, line: &str) -> Result<(), LineFault>
    ensures { Writes result reading.new (edge_line reading.old line.now) }
{
    if count_words(line) != 4 {
        return Err(LineFault::Bad(LineWhy::Form));
    }
    let key = read_key(nth_word(line, 1))?;
    let from = read_key(nth_word(line, 2))?;
    let to = read_key(nth_word(line, 3))?;
    reading.source.edges.push((key, from, to))?;
    reading.section = Section::Edges;
    Ok(())
}

#[tactic(auto, unfolding(crate::specs::Sections::end_line))]
fn read_end(alloc: Global, reading: &mut Reading, line: &str) -> Result<(), LineFault>
    ensures { Writes result reading.new (end_line reading.old line.now) }
{
    read_alone(line)?;
    let none = OpenSource {
        name: Text::new(alloc),
        vertices: List::new(alloc),
        edges: List::new(alloc),
    };
    let OpenSource {
        name,
        vertices,
        edges,
    } = std::mem::replace(&mut reading.source, none);
    let form = SourceForm::Inline { vertices, edges };
    reading.sources.push(SourceText { name, form })?;
    reading.section = Section::Start;
    Ok(())
}

#[tactic(auto, unfolding(crate::specs::Sections::first_phase_line))]
fn read_first_phase(reading: &mut Reading, line: &str) -> Result<(), LineFault>
    ensures { WritesSurely result reading.new (first_phase_line reading.old line.now) }
{
    read_alone(line)?;
    reading.section = Section::Phase;
    Ok(())
}

#[tactic(auto, unfolding(crate::specs::Sections::phase_line))]
fn read_phase(alloc: Global, reading: &mut Reading, line: &str) -> Result<(), LineFault>
    ensures { Writes result reading.new (phase_line reading.old line.now) }
{
    read_alone(line)?;
    end_phase(alloc, reading)?;
    reading.section = Section::Phase;
    Ok(())
}

/// No block.
pub fn no_block(alloc: Global) -> Block
    ensures { result ≡ no_block }
{
    Block {
        actor: 0,
        commands: List::new(alloc),
    }
}

/// Ends the open block, where one is open, and puts another in its place.
fn end_block(reading: &mut Reading, next: Block) -> Result<(), NoMemory>
    ensures { OnOk result (reading.new ≡ record reading.old { blocks = blocks_at reading.old.section reading.old; block = next }) }
{
    let block = std::mem::replace(&mut reading.block, next);
    match reading.section {
        Section::Start | Section::Vertices | Section::Edges | Section::Phase => Ok(()),
        Section::Actor => reading.blocks.push(block),
    }
}

/// Ends the open phase.
pub fn end_phase(alloc: Global, reading: &mut Reading) -> Result<(), NoMemory>
    ensures { OnOk result (reading.new ≡ phase_ended reading.old) }
{
    end_block(reading, no_block(alloc))?;
    let blocks = std::mem::replace(&mut reading.blocks, List::new(alloc));
    reading.phases.push(blocks)?;
    Ok(())
}

fn actor_place(actors: &[Text], name: &str) -> Option<usize>
    ensures first { result ≡ position (λ actor. same actor name.now) actors.now }
    ensures within { IfSome result (λ place. place < length actors.now) }
{
    actors.iter().position(|actor| actor.as_str() == name)
}

/// The number of an actor: its place among those that are known, from 1, and the next number where it is not known.
fn number_of(actors: &[Text], name: &str) -> usize
    ensures { result ≡ number_of actors.now name.now }
{
    match actor_place(actors, name) {
        Some(place) => place + 1,
        None => actors.len() + 1,
    }
}

fn has_block(blocks: &[Block], number: usize) -> bool
    ensures { result ≡ has_block blocks.now number }
{
    blocks.iter().any(|block| block.actor as usize == number)
}

/// The number, where an actor of this number may stand behind these blocks of its phase.
#[tactic(auto, unfolding(crate::specs::Sections::new_block))]
fn check_new_block(blocks: &[Block], number: usize) -> Result<u32, LineFault>
    ensures { GivesSurely result (new_block blocks.now number) }
{
    if has_block(blocks, number) {
        return Err(LineFault::Bad(LineWhy::Twice));
    }
    if number > MOST_ACTORS {
        return Err(LineFault::Bad(LineWhy::Many));
    }
    Ok(number as u32)
}

/// Adds an actor of this number, where it is not known.
fn add_actor(actors: &mut List<Text>, name: Text, number: u32) -> Result<(), NoMemory>
    ensures { OnOk result (actors.new ≡ with_actor actors.old name number) }
{
    if number as usize > actors.len() {
        actors.push(name)?;
    }
    Ok(())
}

#[tactic(auto, unfolding(crate::specs::Sections::actor_line))]
fn read_actor(alloc: Global, reading: &mut Reading, line: &str) -> Result<(), LineFault>
    ensures { Writes result reading.new (actor_line reading.old line.now) }
{
    let actor = read_one_name(alloc, line)?;
    let number = number_of(reading.actors.as_slice(), actor.as_str());
    end_block(reading, no_block(alloc))?;
    let number = check_new_block(reading.blocks.as_slice(), number)?;
    add_actor(&mut reading.actors, actor, number)?;
    reading.block = Block {
        actor: number,
        commands: List::new(alloc),
    };
    reading.section = Section::Actor;
    Ok(())
}

#[tactic(auto, unfolding(crate::specs::Sections::command_line))]
fn read_command_line(alloc: Global, reading: &mut Reading, line: &str) -> Result<(), LineFault>
    ensures { Writes result reading.new (command_line reading.old line.now) }
{
    let command = read_command(alloc, line)?;
    if reading.command_count >= MOST_COMMANDS {
        return Err(LineFault::Bad(LineWhy::Many));
    }
    reading.block.commands.push(command)?;
    reading.command_count += 1;
    Ok(())
}
