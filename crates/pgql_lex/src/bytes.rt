//! Sorts of bytes.
ghost use Rattle.std.specs.Prelude.{◌≡◌, ◌≢◌, ◌≤◌, ◌<◌, length, slice_index, true};
ghost use Rattle.std.specs.List.{prefix_len};
ghost use Rattle.pgql_lex.specs.Bytes as spec;

/// White space.
pub fn is_blank(b: u8) -> bool
    ensures { result ≡ spec.is_blank b }
{
    b == b' ' || b == b'\t' || b == b'\r' || b == b'\n'
}

/// A letter or `_`.
pub fn is_letter(b: u8) -> bool
    ensures { result ≡ spec.is_letter b }
{
    b.is_ascii_alphabetic() || b == b'_'
}

fn is_word_byte(b: u8) -> bool
    ensures { result ≡ spec.is_word_byte b }
{
    b.is_ascii_alphanumeric() || b == b'_'
}

/// A sign of one byte.
pub fn is_sign(b: u8) -> bool
    ensures { result ≡ spec.is_sign b }
{
    b == b'('
        || b == b')'
        || b == b'['
        || b == b']'
        || b == b','
        || b == b'.'
        || b == b':'
        || b == b'|'
        || b == b'='
        || b == b'<'
        || b == b'>'
        || b == b'+'
        || b == b'-'
        || b == b'*'
        || b == b'/'
        || b == b'%'
        || b == b'?'
}

/// A sign of two bytes.
pub fn is_long_sign(b: u8, c: u8) -> bool
    ensures { result ≡ spec.is_long_sign b c }
{
    (b == b'<' && (c == b'>' || c == b'=')) || (b == b'>' && c == b'=')
}

/// The byte there, and 0 past the end.
pub fn byte(z: &[u8], at: usize) -> u8
    ensures value { result ≡ slice_index z.now at }
    ensures within { result ≢ 0 → at < length z.now }
{
    if at < z.len() { z[at] } else { 0 }
}

/// How many letters, digits and `_` begin the bytes.
#[tactic(auto, using(crate::proofs::Steps::first_passes))]
pub fn word_len(z: &[u8]) -> usize
    ensures value { result ≡ prefix_len spec.is_word_byte z.now }
    ensures within { result ≤ length z.now }
    ensures moves { 0 < length z.now → spec.is_word_byte (slice_index z.now 0) ≡ true → 1 ≤ result }
{
    let mut n = 0;
    while n < z.len() && is_word_byte(z[n]) {
        n += 1;
    }
    n
}

/// How many digits begin the bytes.
#[tactic(auto, using(crate::proofs::Steps::first_passes))]
pub fn digits_len(z: &[u8]) -> usize
    ensures value { result ≡ prefix_len spec.is_digit z.now }
    ensures within { result ≤ length z.now }
    ensures moves { 0 < length z.now → spec.is_digit (slice_index z.now 0) ≡ true → 1 ≤ result }
{
    let mut n = 0;
    while n < z.len() && z[n].is_ascii_digit() {
        n += 1;
    }
    n
}
