//! The words of the command line.
ghost use Rattle.std.specs.Prelude.{◌≡◌, Some, None, IfOk, IfErr, map, string_bytes};
ghost use Rattle.pgx_shell.specs.Words.{form_of, action_of as asked_by, usage_place};

/// What the words ask for.
#[derive(Clone, Copy, Debug, PartialEq, Eq)]
pub enum Action {
    Once,
    Check,
}

/// The form that the words are, or the place of the first word with which they begin none.
pub(crate) fn read_words(words: &[String]) -> Result<Action, usize>
    ensures ok { IfOk result (λ action. form_of (map string_bytes words.now) ≡ Some action) }
    ensures none { IfErr result (λ place. form_of (map string_bytes words.now) ≡ None) }
    ensures place { IfErr result (λ place. place ≡ usage_place (map string_bytes words.now)) }
{
    let Some((word, more)) = words.split_first() else {
        return Err(0);
    };
    let Some(action) = action_of(word.as_str()) else {
        return Err(0);
    };
    if !more.is_empty() {
        return Err(1);
    }
    Ok(action)
}

/// What the first word asks for.
fn action_of(word: &str) -> Option<Action>
    ensures { result ≡ asked_by word.now }
{
    if word == "once" {
        return Some(Action::Once);
    }
    if word == "check" {
        return Some(Action::Check);
    }
    None
}
