//! The names of actors.
ghost use Rattle.std.specs.Prelude.{◌≡◌};
ghost use Rattle.journal_text.specs.Names.{name_of};

use column_types::Text;

/// The name of an actor, counted from 1; empty for a number past the last.
pub fn name_of(names: &[Text], who: u32) -> &str
    ensures { result.now ≡ name_of names.now who }
{
    match names.get((who as usize).saturating_sub(1)) {
        Some(name) => name.as_str(),
        None => "",
    }
}
