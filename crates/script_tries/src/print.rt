//! What is written of a script.
use column_types::Text;
use script_read::{Block, Command, Form, Script, SourceForm, SourceText};
use std::alloc::{AllocError, Global};

/// The numbers of a script's sources, actors, phases and commands.
pub fn counts(alloc: Global, script: &Script) -> Result<String, AllocError> {
    let sources = script.sources.len();
    let actors = script.actors.len();
    let phases = script.phases.len();
    let commands = command_count(script);
    format!(in alloc; "ok {sources} {actors} {phases} {commands}")
}

fn command_count(script: &Script) -> usize {
    let mut count = 0usize;
    for blocks in script.phases.as_slice() {
        for block in blocks.as_slice() {
            count = count.saturating_add(block.commands.len());
        }
    }
    count
}

/// All of a script.
pub fn whole(alloc: Global, script: &Script) -> Result<String, AllocError> {
    let mut all = String::from_str(alloc, "ok")?;
    push_sources(&mut all, script.sources.as_slice())?;
    push_actors(&mut all, script.actors.as_slice())?;
    for blocks in script.phases.as_slice() {
        all.push_str(" | phase")?;
        push_blocks(&mut all, blocks.as_slice())?;
    }
    Ok(all)
}

fn push_sources(all: &mut String, sources: &[SourceText]) -> Result<(), AllocError> {
    for source in sources {
        push_words(all, " | source ", &source.name)?;
        push_source_form(all, &source.form)?;
    }
    Ok(())
}

fn push_source_form(all: &mut String, form: &SourceForm) -> Result<(), AllocError> {
    match form {
        SourceForm::Inline { vertices, edges } => {
            all.push_str(" inline")?;
            push_vertices(all, vertices.as_slice())?;
            push_edges(all, edges.as_slice())
        }
        SourceForm::Files { config, changes } => {
            push_words(all, " config ", config)?;
            push_changes(all, changes)
        }
    }
}

fn push_vertices(all: &mut String, vertices: &[i64]) -> Result<(), AllocError> {
    for key in vertices {
        write!(all, " | v {key}")?;
    }
    Ok(())
}

fn push_edges(all: &mut String, edges: &[(i64, i64, i64)]) -> Result<(), AllocError> {
    for edge in edges {
        let (key, source, destination) = *edge;
        write!(all, " | e {key} {source} {destination}")?;
    }
    Ok(())
}

fn push_changes(all: &mut String, changes: &Option<Text>) -> Result<(), AllocError> {
    match changes {
        Some(file) => push_words(all, " changes ", file),
        None => Ok(()),
    }
}

fn push_actors(all: &mut String, actors: &[Text]) -> Result<(), AllocError> {
    for actor in actors {
        push_words(all, " | actor ", actor)?;
    }
    Ok(())
}

fn push_blocks(all: &mut String, blocks: &[Block]) -> Result<(), AllocError> {
    for block in blocks {
        let actor = block.actor;
        write!(all, " | block {actor}")?;
        push_commands(all, block.commands.as_slice())?;
    }
    Ok(())
}

fn push_commands(all: &mut String, commands: &[Command]) -> Result<(), AllocError> {
    for command in commands {
        push_words(all, " | ", &command.line)?;
        push_form(all, &command.form)?;
    }
    Ok(())
}

fn push_form(all: &mut String, form: &Form) -> Result<(), AllocError> {
    match form {
        Form::Open => all.push_str(": Open"),
        Form::Close => all.push_str(": Close"),
        Form::Columns => all.push_str(": Columns"),
        Form::Lines => all.push_str(": Lines"),
        Form::Load(graph, source) => push_names(all, ": Load ", graph, source),
        Form::Clone(graph, base) => push_names(all, ": Clone ", graph, base),
        Form::Transpose(graph, base) => push_names(all, ": Transpose ", graph, base),
        Form::Undirect(graph, base) => push_names(all, ": Undirect ", graph, base),
        Form::Simplify(graph, base) => push_names(all, ": Simplify ", graph, base),
        Form::SortByDegree(graph, base) => push_names(all, ": SortByDegree ", graph, base),
        Form::Build(graph, base) => push_names(all, ": Build ", graph, base),
        Form::Snapshot(graph) => push_words(all, ": Snapshot ", graph),
        Form::Publish(graph, line, keep, threshold) => {
            push_names(all, ": Publish ", graph, line)?;
            write!(all, " {keep} {threshold}")
        }
        Form::Unpublish(line) => push_words(all, ": Unpublish ", line),
        Form::Get(graph, line) => push_names(all, ": Get ", graph, line),
        Form::CheckoutSid(graph, sid) => {
            push_words(all, ": CheckoutSid ", graph)?;
            write!(all, " {sid}")
        }
        Form::CheckoutLatest(graph) => push_words(all, ": CheckoutLatest ", graph),
        Form::Release(graph) => push_words(all, ": Release ", graph),
        Form::Show(source) => push_words(all, ": Show ", source),
        Form::Rows(graph) => push_words(all, ": Rows ", graph),
        Form::Change(graph, row) => push_names(all, ": Change ", graph, row),
        Form::Discard => all.push_str(": Discard"),
    }
}

fn push_names(
    all: &mut String,
    before: &str,
    first: &Text,
    second: &Text,
) -> Result<(), AllocError> {
    push_words(all, before, first)?;
    push_words(all, " ", second)
}

/// Appends words and then a text.
fn push_words(all: &mut String, before: &str, text: &Text) -> Result<(), AllocError> {
    all.push_str(before)?;
    all.push_str(text.as_str())
}
