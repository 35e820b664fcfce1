//! What the grammar allows and this reader does not build yet.
ghost use Rattle.std.specs.Prelude.{◌≡◌};
ghost use Rattle.script_read.specs.Later.{comes_later};

use crate::reading::Section;
use crate::words::has_word;

/// The commands that are not built yet.
const LATER_COMMANDS: &str = "refresh tick feed hops components cores weights drop query";

/// Whether a line that begins with this word is allowed in a section and not built yet.
#[tactic(auto, unfolding(crate::specs::Later::comes_later, crate::specs::Later::later_commands))]
pub fn comes_later(section: Section, word: &str) -> bool
    ensures { result ≡ comes_later section word.now }
{
    match section {
        Section::Start | Section::Vertices | Section::Edges | Section::Phase => false,
        Section::Actor => has_word(LATER_COMMANDS, word),
    }
}
