//! Words of a line, one space before each.
ghost use Rattle.std.specs.Prelude.{◌≡◌, ◌++◌, OnOk, OnErr, map};
ghost use Rattle.std.specs.Fmt.{decimal};
ghost use Rattle.std.specs.Io.{StartsWith};
ghost use Rattle.journal_text.specs.Lines.{spaced};
ghost use Rattle.journal_text.specs.Words.{word_text};

use crate::number::push_count;
use column_types::{NoMemory, Text};

/// One word of a line: a fixed word or a name, or a number.
#[derive(Clone, Copy)]
pub enum Word<'a> {
    Name(&'a str),
    Number(u64),
}

fn push_word(text: &mut Text, word: &Word) -> Result<(), NoMemory>
    ensures ok { OnOk result (text.new ≡ text.old ++ word_text word.now) }
    ensures err { OnErr result (text.new ≡ text.old) }
{
    match word {
        Word::Name(name) => text.push(name),
        Word::Number(number) => push_count(text, *number),
    }
}

/// Appends words, a space before each. After running out of memory the text begins with the old one.
pub fn push_spaced(text: &mut Text, words: &[Word]) -> Result<(), NoMemory>
    ensures ok { OnOk result (text.new ≡ text.old ++ spaced (map word_text words.now)) }
    ensures begins { OnErr result (StartsWith text.new text.old) }
{
    for word in words {
        text.push(" ")?;
        push_word(text, word)?;
    }
    Ok(())
}

/// Appends numbers, a space before each. After running out of memory the text begins with the old one.
pub fn push_numbers(text: &mut Text, numbers: &[u64]) -> Result<(), NoMemory>
    ensures ok { OnOk result (text.new ≡ text.old ++ spaced (map decimal numbers.now)) }
    ensures begins { OnErr result (StartsWith text.new text.old) }
{
    for number in numbers {
        push_spaced(text, &[Word::Number(*number)])?;
    }
    Ok(())
}
