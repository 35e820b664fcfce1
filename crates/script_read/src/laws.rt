//! Laws of the definitions of a script's words, in words of their own.
ghost use Rattle.std.specs.Prelude.{◌≡◌, ◌≢◌, ◌∷◌, [], true, Ok};
ghost use Rattle.std.specs.Fmt.{signed_decimal};
ghost use Rattle.script_read.specs.Commands.{checked};
ghost use Rattle.script_read.specs.Dues.{a_name, rest};
ghost use Rattle.script_read.specs.Words.{words_of, word_in, rest_in, rest_line, is_name, key};

/// What is printed of a LONG is a key, and reads as it.
pub fn keys_read_back(n: i64)
    ensures { key (signed_decimal n) ≡ Ok n }
{}

/// A line of a word, a name and any text that is not empty, with one space between each two, has what is due where a name and the
/// rest of the line are due, and these two are what is read of it. The word has the bytes of a name.
pub fn rests_read_back(word: &str, name: &str, behind: &str)
    requires word { is_name word.now ≡ true }
    requires name { is_name name.now ≡ true }
    requires behind { behind.now ≢ [] }
    ensures due { checked (a_name ∷ rest ∷ []) (words_of (rest_line word.now name.now behind.now)) ≡ Ok tt }
    ensures name { word_in (words_of (rest_line word.now name.now behind.now)) 1 ≡ name.now }
    ensures rest { rest_in (words_of (rest_line word.now name.now behind.now)) 2 ≡ behind.now }
{}
