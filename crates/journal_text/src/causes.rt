//! The words for the causes of refusals.
ghost use Rattle.std.specs.Prelude.{◌≡◌};
ghost use Rattle.journal_text.specs.Causes.{cause_word, why_name};

use change_feed::RowCause;
use graph_model::Why;

/// The word for the cause for which a row writes no change.
pub fn cause_word(cause: RowCause) -> &'static str
    ensures { result.now ≡ cause_word cause }
{
    match cause {
        RowCause::Utf8 => "utf8",
        RowCause::Word => "word",
        RowCause::Table => "table",
        RowCause::Count => "count",
        RowCause::Prop => "prop",
        RowCause::Field => "field",
    }
}

/// The name of the cause for which a change does not fit.
pub fn why_name(why: Why) -> &'static str
    ensures { result.now ≡ why_name why }
{
    match why {
        Why::Table => "Table",
        Why::Count => "Count",
        Why::Prop => "Prop",
        Why::Kind => "Kind",
        Why::KeyTaken => "KeyTaken",
        Why::KeyMissing => "KeyMissing",
        Why::EndMissing => "EndMissing",
        Why::HasEdges => "HasEdges",
        Why::Limit => "Limit",
    }
}
