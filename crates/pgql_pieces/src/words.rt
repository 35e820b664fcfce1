//! What words, numbers and signs stand for.
ghost use Rattle.std.specs.Prelude.{◌≡◌, map, min};
ghost use Rattle.pgql_lex.specs.Spelling.{decimal};
ghost use Rattle.std.specs.Str.{str_eq_ignore_ascii_case};
ghost use Rattle.pgql_grammar.specs.Pieces as spec;

use pgql_grammar::Sym;

/// The keywords and their sorts.
const KEYWORDS: [(&[u8], Sym); 28] = [
    (b"SELECT", Sym::Select),
    (b"DISTINCT", Sym::Distinct),
    (b"FROM", Sym::From),
    (b"MATCH", Sym::Match),
    (b"ON", Sym::On),
    (b"WHERE", Sym::Where),
    (b"GROUP", Sym::Group),
    (b"BY", Sym::By),
    (b"HAVING", Sym::Having),
    (b"ORDER", Sym::Order),
    (b"ASC", Sym::Asc),
    (b"DESC", Sym::Desc),
    (b"LIMIT", Sym::Limit),
    (b"OFFSET", Sym::Offset),
    (b"AS", Sym::As),
    (b"AND", Sym::And),
    (b"OR", Sym::Or),
    (b"NOT", Sym::Not),
    (b"IS", Sym::Is),
    (b"NULL", Sym::Null),
    (b"TRUE", Sym::True),
    (b"FALSE", Sym::False),
    (b"IN", Sym::In),
    (b"DATE", Sym::Date),
    (b"COUNT", Sym::Count),
    (b"MIN", Sym::Min),
    (b"MAX", Sym::Max),
    (b"SUM", Sym::Sum),
];

/// The signs and their sorts.
const SIGNS: [(&[u8], Sym); 20] = [
    (b"(", Sym::Open),
    (b")", Sym::Close),
    (b"[", Sym::OpenSquare),
    (b"]", Sym::CloseSquare),
    (b",", Sym::Comma),
    (b".", Sym::Dot),
    (b":", Sym::Colon),
    (b"|", Sym::Bar),
    (b"=", Sym::Equal),
    (b"<>", Sym::Unequal),
    (b"<", Sym::Less),
    (b"<=", Sym::AtMost),
    (b">", Sym::Greater),
    (b">=", Sym::AtLeast),
    (b"+", Sym::Plus),
    (b"-", Sym::Minus),
    (b"*", Sym::Star),
    (b"/", Sym::Slash),
    (b"%", Sym::Percent),
    (b"?", Sym::Question),
];

fn is_same_word(a: &[u8], b: &[u8]) -> bool
    ensures { result ≡ str_eq_ignore_ascii_case a.now b.now }
{
    a.eq_ignore_ascii_case(b)
}

/// The sort that a table gives a word, in any case.
fn sort_in(mut table: &[(&[u8], Sym)], word: &[u8]) -> Sym
    ensures { result ≡ spec.sort_in (map (λ row. (row.0.now, row.1)) table.entry.now) word.now }
{
    while let [(name, sort), rest @ ..] = table {
        if is_same_word(name, word) {
            return *sort;
        }
        table = rest;
    }
    Sym::Question
}

#[tactic(auto, unfolding(pgql_grammar::specs::Pieces::keyword_sort))]
pub fn keyword_sort(word: &[u8]) -> Sym
    ensures { result ≡ spec.keyword_sort word.now }
{
    sort_in(&KEYWORDS, word)
}

#[tactic(auto, unfolding(pgql_grammar::specs::Pieces::sign_sort))]
pub fn sign_sort(sign: &[u8]) -> Sym
    ensures { result ≡ spec.sign_sort sign.now }
{
    sort_in(&SIGNS, sign)
}

/// The number that digits write, cut above `i64::MAX`.
pub fn number_of(digits: &[u8]) -> u64
    ensures { result ≡ min (decimal digits.now) 9223372036854775808 }
{
    let mut value: u64 = 0;
    for d in digits {
        let digit = u64::from(d.saturating_sub(b'0'));
        value = value
            .saturating_mul(10)
            .saturating_add(digit)
            .min(i64::MAX as u64 + 1);
    }
    value
}
