//! The token that begins a text.
ghost use Rattle.std.specs.Prelude.{◌≡◌, ◌≤◌, ◌<◌, ◌+◌, ◌^◌, length, slice_index, IfSome, true, false};
ghost use Rattle.pgql_lex.specs.Bytes.{is_letter as is_letter_byte, is_digit};
ghost use Rattle.pgql_lex.specs.Tokens as spec;

use crate::bytes::{byte, digits_len, is_letter, is_long_sign, is_sign, word_len};
use crate::words::is_keyword;
use pgql_ast::TokenKind;

/// The most bytes of a word.
const LONGEST_WORD: usize = 64;

#[tactic(auto, unfolding(crate::specs::Tokens::word))]
fn word(z: &[u8]) -> Option<(TokenKind, usize)>
    requires some { 0 < length z.now }
    requires first { is_letter_byte (slice_index z.now 0) ≡ true }
    ensures value { result ≡ spec.word z.now }
    ensures within { IfSome result (λ t. (1 ≤ t.1) × (t.1 ≤ length z.now)) }
{
    let n = word_len(z);
    if n > LONGEST_WORD {
        return None;
    }
    let kind = if is_keyword(&z[..n]) {
        TokenKind::Keyword
    } else {
        TokenKind::Word
    };
    Some((kind, n))
}

/// Whether the digits are a number of at most `i64::MAX`. A greater one stays above it.
#[tactic(auto, unfolding(crate::specs::Tokens::fits))]
fn fits(digits: &[u8]) -> bool
    ensures { result ≡ spec.fits digits.now }
{
    let mut value: u64 = 0;
    for d in digits {
        let digit = u64::from(d.saturating_sub(b'0'));
        value = value
            .saturating_mul(10)
            .saturating_add(digit)
            .min(i64::MAX as u64 + 1);
    }
    value <= i64::MAX as u64
}

#[tactic(auto, unfolding(crate::specs::Tokens::number))]
fn number(z: &[u8]) -> Option<(TokenKind, usize)>
    requires some { 0 < length z.now }
    requires first { is_digit (slice_index z.now 0) ≡ true }
    ensures value { result ≡ spec.number z.now }
    ensures within { IfSome result (λ t. (1 ≤ t.1) × (t.1 ≤ length z.now)) }
{
    let n = digits_len(z);
    if is_letter(byte(z, n)) || !fits(&z[..n]) {
        return None;
    }
    Some((TokenKind::Number, n))
}

/// The place behind the quote that closes a text, for the bytes behind the one that opens it.
fn closing(mut z: &[u8]) -> Option<usize>
    requires { length z.now < 2 ^ 63 }
    ensures value { result ≡ spec.closing false 1 z.entry.now }
    ensures within { IfSome result (λ end. (1 ≤ end) × (end ≤ length z.entry.now + 1)) }
{
    let mut is_second = false;
    let mut at = 1;
    while let [b, rest @ ..] = z {
        let is_quote = *b == b'\'';
        if !is_second && is_quote && byte(rest, 0) != b'\'' {
            return Some(at + 1);
        }
        is_second = !is_second && is_quote;
        at += 1;
        z = rest;
    }
    None
}

#[tactic(auto, unfolding(crate::specs::Tokens::chars))]
fn chars(z: &[u8]) -> Option<(TokenKind, usize)>
    requires some { 0 < length z.now }
    requires small { length z.now < 2 ^ 63 }
    ensures value { result ≡ spec.chars z.now }
    ensures within { IfSome result (λ t. (1 ≤ t.1) × (t.1 ≤ length z.now)) }
{
    let end = closing(&z[1..])?;
    Some((TokenKind::Chars, end))
}

#[tactic(auto, unfolding(crate::specs::Tokens::quoted))]
fn quoted(z: &[u8]) -> Option<(TokenKind, usize)>
    requires { 0 < length z.now }
    ensures value { result ≡ spec.quoted z.now }
    ensures within { IfSome result (λ t. (1 ≤ t.1) × (t.1 ≤ length z.now)) }
{
    let n = word_len(&z[1..]);
    if is_letter(byte(z, 1)) && n <= LONGEST_WORD && byte(z, n + 1) == b'"' {
        Some((TokenKind::Quoted, n + 2))
    } else {
        None
    }
}

#[tactic(auto, unfolding(crate::specs::Tokens::sign))]
fn sign(z: &[u8]) -> Option<(TokenKind, usize)>
    ensures value { result ≡ spec.sign z.now }
    ensures within { IfSome result (λ t. (1 ≤ t.1) × (t.1 ≤ length z.now)) }
{
    let first = byte(z, 0);
    if is_long_sign(first, byte(z, 1)) {
        Some((TokenKind::Sign, 2))
    } else if is_sign(first) {
        Some((TokenKind::Sign, 1))
    } else {
        None
    }
}

/// The token that begins the bytes, by its kind and length, or none where no token begins.
#[tactic(auto, unfolding(crate::specs::Tokens::token))]
pub fn token_at(z: &[u8]) -> Option<(TokenKind, usize)>
    requires some { 0 < length z.now }
    requires small { length z.now < 2 ^ 63 }
    ensures value { result ≡ spec.token z.now }
    ensures within { IfSome result (λ t. (1 ≤ t.1) × (t.1 ≤ length z.now)) }
{
    let first = z[0];
    if is_letter(first) {
        word(z)
    } else if first.is_ascii_digit() {
        number(z)
    } else if first == b'\'' {
        chars(z)
    } else if first == b'"' {
        quoted(z)
    } else {
        sign(z)
    }
}
