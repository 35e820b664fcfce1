//! The words of a line, and what a word is read as.
ghost use Rattle.std.specs.Prelude.{◌≡◌, ◌≤◌, IfSome};
ghost use Rattle.std.specs.List.{list_all};
ghost use Rattle.script_read.specs.Faults.{Gives, GivesSurely};
ghost use Rattle.script_read.specs.Words.{words_of, word_count, word_at, rest_in, has_word, is_letter, is_digit, is_name_byte, is_name, name, is_file_byte, is_file_name, file_name, is_decimal, decimal_number, number, is_key, key_number, key, alone, one_name};

use crate::fault::{LineFault, LineWhy};
use column_types::Text;
use std::alloc::Global;

/// The number of words.
#[tactic(auto, unfolding(crate::specs::Words::word_count))]
pub fn count_words(line: &str) -> usize
    ensures { result ≡ word_count line.now }
{
    line.split(' ').count()
}

/// The word at a place, counted from 0, and the empty word past the end.
#[tactic(auto, unfolding(crate::specs::Words::word_at))]
pub fn nth_word(line: &str, place: usize) -> &str
    ensures { result.now ≡ word_at line.now place }
{
    line.split(' ').nth(place).unwrap_or("")
}

/// The rest of a line from the word at a place on, counted from 0, and the empty text past the end.
pub fn rest_from(line: &str, place: usize) -> &str
    ensures { result.now ≡ rest_in (words_of line.now) place }
{
    let mut rest = line;
    for _i in 0..place {
        match rest.split_once(' ') {
            Some((_, behind)) => rest = behind,
            None => return "",
        }
    }
    rest
}

/// Whether a text is one of the words of a line.
#[tactic(auto, unfolding(crate::specs::Words::has_word))]
pub fn has_word(line: &str, text: &str) -> bool
    ensures { result ≡ has_word line.now text.now }
{
    line.split(' ').any(|word| word == text)
}

fn is_letter(c: u8) -> bool
    ensures { result ≡ is_letter c }
{
    (b'A' <= c && c <= b'Z') || (b'a' <= c && c <= b'z') || c == b'_'
}

fn is_digit(c: u8) -> bool
    ensures { result ≡ is_digit c }
{
    b'0' <= c && c <= b'9'
}

fn is_name_byte(c: u8) -> bool
    ensures { result ≡ is_name_byte c }
{
    is_letter(c) || is_digit(c)
}

fn are_name_bytes(bytes: &[u8]) -> bool
    ensures { result ≡ list_all is_name_byte bytes.now }
{
    bytes.iter().all(|c| is_name_byte(*c))
}

/// Whether bytes are a name.
pub fn is_name(bytes: &[u8]) -> bool
    ensures { result ≡ is_name bytes.now }
{
    match bytes {
        [] => false,
        [first, ..] => is_letter(*first) && are_name_bytes(bytes) && bytes.len() <= 64,
    }
}

/// A word that is due as a name.
#[tactic(auto, unfolding(crate::specs::Words::name))]
pub fn read_name(alloc: Global, word: &str) -> Result<Text, LineFault>
    ensures { Gives result (name word.now) }
{
    if !is_name(word.as_bytes()) {
        return Err(LineFault::Bad(LineWhy::Name));
    }
    Ok(Text::from_str(alloc, word)?)
}

fn is_file_byte(c: u8) -> bool
    ensures { result ≡ is_file_byte c }
{
    is_name_byte(c) || c == b'.' || c == b'-' || c == b'/'
}

fn are_file_bytes(bytes: &[u8]) -> bool
    ensures { result ≡ list_all is_file_byte bytes.now }
{
    bytes.iter().all(|c| is_file_byte(*c))
}

fn is_file_name(bytes: &[u8]) -> bool
    ensures { result ≡ is_file_name bytes.now }
{
    1 <= bytes.len() && bytes.len() <= 255 && are_file_bytes(bytes)
}

/// A word that is due as a file name.
#[tactic(auto, unfolding(crate::specs::Words::file_name))]
pub fn read_file_name(alloc: Global, word: &str) -> Result<Text, LineFault>
    ensures { Gives result (file_name word.now) }
{
    if !is_file_name(word.as_bytes()) {
        return Err(LineFault::Bad(LineWhy::Name));
    }
    Ok(Text::from_str(alloc, word)?)
}

fn are_digits(bytes: &[u8]) -> bool
    ensures { result ≡ list_all is_digit bytes.now }
{
    bytes.iter().all(|c| is_digit(*c))
}

fn is_decimal(bytes: &[u8]) -> bool
    ensures { result ≡ is_decimal bytes.now }
{
    match bytes {
        [] => false,
        [first, ..] => are_digits(bytes) && (bytes.len() == 1 || *first != b'0'),
    }
}

/// The number that a word writes in decimal digits.
#[tactic(auto, using(crate::proofs::Numbers::parsed_number), unfolding(crate::specs::Words::decimal_number))]
fn decimal_number(word: &str) -> Option<u64>
    ensures { result ≡ decimal_number word.now }
{
    if !is_decimal(word.as_bytes()) {
        return None;
    }
    word.parse::<u64>().ok()
}

/// The number from `least` to `most` that a word writes.
#[tactic(auto, unfolding(crate::specs::Words::number))]
pub fn read_number(word: &str, least: u64, most: u64) -> Option<u64>
    ensures number { result ≡ number least most word.now }
    ensures within { IfSome result (λ n. n ≤ most) }
{
    let number = decimal_number(word)?;
    if least <= number && number <= most {
        Some(number)
    } else {
        None
    }
}

fn is_key(bytes: &[u8]) -> bool
    ensures { result ≡ is_key bytes.now }
{
    match bytes {
        [] => false,
        [b'-', digits @ ..] => is_decimal(digits) && digits != b"0".as_slice(),
        [_, ..] => is_decimal(bytes),
    }
}

#[tactic(auto, using(column_types::proofs::Whole::parsed_64), unfolding(crate::specs::Words::key_number))]
fn key_number(word: &str) -> Option<i64>
    ensures { result ≡ key_number word.now }
{
    if !is_key(word.as_bytes()) {
        return None;
    }
    word.parse::<i64>().ok()
}

/// A word that is due as a key.
#[tactic(auto, unfolding(crate::specs::Words::key))]
pub fn read_key(word: &str) -> Result<i64, LineFault>
    ensures { GivesSurely result (key word.now) }
{
    match key_number(word) {
        Some(key) => Ok(key),
        None => Err(LineFault::Bad(LineWhy::Number)),
    }
}

/// A line that is its first word alone.
#[tactic(auto, unfolding(crate::specs::Words::alone))]
pub fn read_alone(line: &str) -> Result<(), LineFault>
    ensures { GivesSurely result (alone line.now) }
{
    if count_words(line) != 1 {
        return Err(LineFault::Bad(LineWhy::Form));
    }
    Ok(())
}

/// The name of a line `WORD NAME`.
#[tactic(auto, unfolding(crate::specs::Words::one_name))]
pub fn read_one_name(alloc: Global, line: &str) -> Result<Text, LineFault>
    ensures { Gives result (one_name line.now) }
{
    if count_words(line) != 2 {
        return Err(LineFault::Bad(LineWhy::Form));
    }
    read_name(alloc, nth_word(line, 1))
}
