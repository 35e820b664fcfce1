//! The numbers of a script.
ghost use Rattle.std.specs.Prelude.{◌≡◌, ◌≤◌, IfOk};
ghost use Rattle.script_read.specs.Phases.{phase_commands as commands_of_phase};
ghost use Rattle.pgx_shell.specs.Texts.{counts_text as text_of_counts, command_count as commands_of_phases};

use column_types::{List, NoMemory, Text};
use journal_text::push_count;
use script_read::{Block, Script};
use std::alloc::Global;

/// The line of the numbers of sources, actors and commands of a script.
pub(crate) fn counts_text(alloc: Global, script: &Script) -> Result<Text, NoMemory>
    requires { commands_of_phases script.now.phases ≤ 65536 }
    ensures { IfOk result (λ text. text ≡ text_of_counts script.now) }
{
    let mut text = Text::from_str(alloc, "ok ")?;
    push_count(&mut text, script.sources.len() as u64)?;
    text.push(" ")?;
    push_count(&mut text, script.actors.len() as u64)?;
    text.push(" ")?;
    push_count(&mut text, command_count(script.phases.as_slice()))?;
    text.push("\n")?;
    Ok(text)
}

/// How many commands stand in the blocks of phases.
fn command_count(phases: &[List<Block>]) -> u64
    requires { commands_of_phases phases.now ≤ 65536 }
    ensures { result ≡ commands_of_phases phases.now }
{
    let mut count = 0;
    for blocks in phases {
        count += phase_commands(blocks.as_slice());
    }
    count
}

/// How many commands stand in the blocks of a phase.
fn phase_commands(blocks: &[Block]) -> u64
    requires { commands_of_phase blocks.now ≤ 65536 }
    ensures { result ≡ commands_of_phase blocks.now }
{
    let mut count = 0;
    for block in blocks {
        count += block.commands.len() as u64;
    }
    count
}
