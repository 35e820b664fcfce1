//! The calls of a command.
use crate::read_replies::read_all_replies;
use catalogue::Ask;
use column_types::{NoMemory, Text};
use journal_text::push_ask;
use script_read::{Command, Script, read_script};
use session_run::{Own, next_ask};
use std::alloc::Global;

/// The next call of a command, from the replies so far.
pub fn answer(alloc: Global, parts: &str) -> Result<Text, NoMemory> {
    let (command, replies) = parts.split_once(" | ").unwrap_or((parts, ""));
    let script = format!(in alloc; "phase\nactor a\n{command}\n")?;
    if script.len() > 16_777_216 {
        return Text::from_str(alloc, "too long");
    }
    match read_script(alloc, script.as_bytes()) {
        Ok(script) => next_of_script(alloc, &script, replies),
        Err(_) => Text::from_str(alloc, "no command"),
    }
}

fn next_of_script(alloc: Global, script: &Script, replies: &str) -> Result<Text, NoMemory> {
    match first_command(script) {
        Some(command) => next_of_command(alloc, command, replies),
        None => Text::from_str(alloc, "no command"),
    }
}

fn first_command(script: &Script) -> Option<&Command> {
    let blocks = script.phases.get(0)?;
    let block = blocks.get(0)?;
    block.commands.get(0)
}

fn next_of_command(alloc: Global, command: &Command, replies: &str) -> Result<Text, NoMemory> {
    let replies = read_all_replies(alloc, replies)?;
    match next_ask(command, &Own::new(alloc), replies.as_slice())? {
        Some(ask) => call_text_of(alloc, &ask),
        None => Text::from_str(alloc, "nothing"),
    }
}

fn call_text_of(alloc: Global, ask: &Ask) -> Result<Text, NoMemory> {
    let mut text = Text::new(alloc);
    push_ask(&mut text, ask)?;
    Ok(text)
}
