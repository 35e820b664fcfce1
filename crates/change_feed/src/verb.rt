//! The words that rows begin with.
ghost use Rattle.std.specs.Prelude.{◌≡◌};
ghost use Rattle.change_feed.specs.Row.{verb_of as verb_written};

/// What a row does.
#[derive(Clone, Copy, Debug, PartialEq, Eq)]
pub(crate) enum Verb {
    InsertVertex,
    DeleteVertex,
    InsertEdge,
    DeleteEdge,
    SetVertex,
    SetEdge,
}

/// What the row of a word does, none where it is none of the six.
pub(crate) fn verb_of(word: &str) -> Option<Verb>
    ensures { result ≡ verb_written word.now }
{
    if word == "iv" {
        Some(Verb::InsertVertex)
    } else if word == "dv" {
        Some(Verb::DeleteVertex)
    } else if word == "ie" {
        Some(Verb::InsertEdge)
    } else if word == "de" {
        Some(Verb::DeleteEdge)
    } else if word == "sv" {
        Some(Verb::SetVertex)
    } else if word == "se" {
        Some(Verb::SetEdge)
    } else {
        None
    }
}
