//! Keywords.
ghost use Rattle.std.specs.Prelude.{◌≡◌, map};
ghost use Rattle.std.specs.Str.{str_eq_ignore_ascii_case};
ghost use Rattle.pgql_lex.specs.Bytes as spec;

/// The keywords, in capital letters.
pub const KEYWORDS: [&[u8]; 28] = [
    b"SELECT",
    b"DISTINCT",
    b"FROM",
    b"MATCH",
    b"ON",
    b"WHERE",
    b"GROUP",
    b"BY",
    b"HAVING",
    b"ORDER",
    b"ASC",
    b"DESC",
    b"LIMIT",
    b"OFFSET",
    b"AS",
    b"AND",
    b"OR",
    b"NOT",
    b"IS",
    b"NULL",
    b"TRUE",
    b"FALSE",
    b"IN",
    b"DATE",
    b"COUNT",
    b"MIN",
    b"MAX",
    b"SUM",
];

/// Whether a word is a keyword, in any case.
#[tactic(auto, unfolding(crate::specs::Bytes::is_keyword))]
pub fn is_keyword(word: &[u8]) -> bool
    ensures { result ≡ spec.is_keyword word.now }
{
    is_one_of(&KEYWORDS, word)
}

fn is_same_word(a: &[u8], b: &[u8]) -> bool
    ensures { result ≡ str_eq_ignore_ascii_case a.now b.now }
{
    a.eq_ignore_ascii_case(b)
}

fn is_one_of(mut table: &[&[u8]], word: &[u8]) -> bool
    ensures { result ≡ spec.is_one_of (map (λ k. k.now) table.entry.now) word.now }
{
    while let [keyword, rest @ ..] = table {
        if is_same_word(keyword, word) {
            return true;
        }
        table = rest;
    }
    false
}
