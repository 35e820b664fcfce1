//! Reply lines.
ghost use Rattle.std.specs.Prelude.{◌≡◌, ◌++◌, OnOk, OnErr, map};
ghost use Rattle.std.specs.Io.{StartsWith};
ghost use Rattle.journal_text.specs.Lines.{count_reply, reply_line};
ghost use Rattle.journal_text.specs.Words.{word_text};

use crate::words::{Word, push_spaced};
use column_types::{NoMemory, Text};

/// Appends a reply line: a word and further words. After running out of memory the text begins with the old one.
pub fn push_line(text: &mut Text, first: &str, words: &[Word]) -> Result<(), NoMemory>
    ensures ok { OnOk result (text.new ≡ text.old ++ reply_line first.now (map word_text words.now)) }
    ensures begins { OnErr result (StartsWith text.new text.old) }
{
    text.push("  ")?;
    text.push(first)?;
    push_spaced(text, words)?;
    text.push("\n")
}

/// Appends the reply line that tells a number alone, `ok N`. After running out of memory the text begins with the old one, and a part of
/// the line may stand behind it.
pub fn push_count_reply(text: &mut Text, count: u64) -> Result<(), NoMemory>
    ensures ok { OnOk result (text.new ≡ text.old ++ count_reply count) }
    ensures begins { OnErr result (StartsWith text.new text.old) }
{
    push_line(text, "ok", &[Word::Number(count)])
}
