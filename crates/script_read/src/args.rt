//! What is due at the words behind the first of a line, and whether a line has it.
ghost use Rattle.std.specs.Prelude.{◌≡◌, ◌∷◌, [], map, true, if◌then◌else◌, is_some, Some, None};
ghost use Rattle.script_read.specs.Commands.{checked};
ghost use Rattle.script_read.specs.Dues.{due_of, is_rest, piece_in, fits, wrong_word, has_form, wrong_behind};
ghost use Rattle.script_read.specs.Faults.{GivesSurely};
ghost use Rattle.script_read.specs.Words.{words_of, number};

use crate::fault::{LineFault, LineWhy};
use crate::words::{count_words, is_name, nth_word, read_number, rest_from};

/// What is due at a word behind the first of a line.
#[derive(Clone, Copy)]
pub enum Arg {
    /// A name.
    Name,
    /// This word.
    Word(&'static str),
    /// A number from the first of these to the second.
    Number(u64, u64),
    /// This word, or a number from the first of these to the second.
    WordOrNumber(&'static str, u64, u64),
    /// The rest of the line, which is not empty. Nothing is due behind it.
    Rest,
}

fn is_rest(arg: Arg) -> bool
    ensures { result ≡ is_rest (due_of arg) }
{
    match arg {
        Arg::Name | Arg::Word(_) | Arg::Number(_, _) | Arg::WordOrNumber(_, _, _) => false,
        Arg::Rest => true,
    }
}

/// What stands where this is due: the word at the place, or the rest of the line from there on.
#[tactic(auto, unfolding(crate::specs::Words::word_at))]
fn piece_at(arg: Arg, line: &str, place: usize) -> &str
    ensures { result.now ≡ piece_in (due_of arg) (words_of line.now) place }
{
    if is_rest(arg) {
        rest_from(line, place)
    } else {
        nth_word(line, place)
    }
}

/// Whether a word may stand where this is due: it is the fixed word, where one is due, and the rest of a line is not empty.
fn may_stand(arg: Arg, word: &str) -> bool
    ensures { result ≡ fits (due_of arg ∷ []) (word.now ∷ []) }
{
    match arg {
        Arg::Name | Arg::Number(_, _) | Arg::WordOrNumber(_, _, _) => true,
        Arg::Word(fixed) => word == fixed,
        Arg::Rest => !word.is_empty(),
    }
}

fn is_number(word: &str, least: u64, most: u64) -> bool
    ensures { result ≡ is_some (number least most word.now) }
{
    read_number(word, least, most).is_some()
}

/// The why, where a test failed.
fn unless(passed: bool, why: LineWhy) -> Option<LineWhy>
    ensures { result ≡ (if passed then None else Some why) }
{
    if passed { None } else { Some(why) }
}

/// Why a word is wrong that may stand where this is due, if it is.
fn word_why(arg: Arg, word: &str) -> Option<LineWhy>
    ensures { result ≡ wrong_word (due_of arg ∷ []) (word.now ∷ []) }
{
    match arg {
        Arg::Word(_) | Arg::Rest => None,
        Arg::Name => unless(is_name(word.as_bytes()), LineWhy::Name),
        Arg::Number(least, most) => unless(is_number(word, least, most), LineWhy::Number),
        Arg::WordOrNumber(fixed, least, most) => unless(
            word == fixed || is_number(word, least, most),
            LineWhy::Number,
        ),
    }
}

/// Whether as many words stand behind the first as are due, with the fixed ones.
fn has_form(args: &[Arg], line: &str) -> bool
    ensures { result ≡ has_form (map due_of args.now) (words_of line.now) }
{
    let count = count_words(line);
    for (i, arg) in args.iter().enumerate() {
        if i + 1 >= count || !may_stand(*arg, piece_at(*arg, line, i + 1)) {
            return false;
        }
        if is_rest(*arg) {
            return true;
        }
    }
    count == args.len() + 1
}

/// Why the leftmost wrong word is wrong, in a line that has the form.
fn wrong_word(args: &[Arg], line: &str) -> Option<LineWhy>
    requires { has_form (map due_of args.now) (words_of line.now) ≡ true }
    ensures { result ≡ wrong_behind (map due_of args.now) (words_of line.now) }
{
    for (i, arg) in args.iter().enumerate() {
        let why = word_why(*arg, piece_at(*arg, line, i + 1));
        if why.is_some() || is_rest(*arg) {
            return why;
        }
    }
    None
}

/// Nothing, where the words behind a line's first are what is due.
#[tactic(auto, using(crate::proofs::DueWords::checks), unfolding(crate::specs::Commands::checked))]
pub fn check_words(args: &[Arg], line: &str) -> Result<(), LineFault>
    ensures { GivesSurely result (checked (map due_of args.now) (words_of line.now)) }
{
    if !has_form(args, line) {
        return Err(LineFault::Bad(LineWhy::Form));
    }
    match wrong_word(args, line) {
        Some(why) => Err(LineFault::Bad(why)),
        None => Ok(()),
    }
}
