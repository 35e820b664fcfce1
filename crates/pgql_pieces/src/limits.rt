//! How deep a text may nest.
ghost use Rattle.std.specs.Prelude.{◌≡◌, ◌<◌, ◌≤◌, ◌^◌, ◌+◌};
ghost use Rattle.pgql_grammar.specs.Limits as spec;
ghost use Rattle.pgql_grammar.specs.Sorts as sorts;

use pgql_grammar::{Piece, Sym};

/// The most open brackets.
const MOST_BRACKETS: usize = 64;

/// The most `NOT`, and the most signs `-`, in a row.
const LONGEST_RUN: usize = 8;

#[tactic(auto, unfolding(pgql_grammar::specs::Sorts::is))]
fn is(kind: Sym, sym: Sym) -> bool
    ensures { result ≡ sorts.is kind sym }
{
    kind == sym
}

/// The brackets that are open behind a piece.
#[tactic(auto, unfolding(pgql_grammar::specs::Limits::open_behind))]
fn open_behind(brackets: usize, sym: Sym) -> usize
    requires { brackets + 1 < 2 ^ 64 }
    ensures value { result ≡ spec.open_behind brackets sym }
    ensures bound { result ≤ brackets + 1 }
{
    if is(Sym::Open, sym) {
        return brackets + 1;
    }
    if is(Sym::Close, sym) {
        return brackets.saturating_sub(1);
    }
    brackets
}

/// How many pieces of the sort stand in a row up to a piece.
#[tactic(auto, unfolding(pgql_grammar::specs::Limits::run_to))]
fn run_to(kind: Sym, run: usize, sym: Sym) -> usize
    requires { run + 1 < 2 ^ 64 }
    ensures value { result ≡ spec.run_to kind run sym }
    ensures bound { result ≤ run + 1 }
{
    if is(kind, sym) { run + 1 } else { 0 }
}

fn is_too_deep(sym: Sym, brackets: usize, nots: usize, dashes: usize) -> bool
    ensures { result ≡ spec.is_too_deep sym brackets nots dashes }
{
    (is(Sym::Open, sym) && brackets > MOST_BRACKETS) || nots > LONGEST_RUN || dashes > LONGEST_RUN
}

/// The place of the first piece that is too deep.
pub fn too_deep(pieces: &[Piece]) -> Option<u32>
    ensures { result ≡ spec.too_deep pieces.now }
{
    let mut brackets = 0;
    let mut nots = 0;
    let mut dashes = 0;
    for piece in pieces {
        brackets = open_behind(brackets, piece.sym);
        nots = run_to(Sym::Not, nots, piece.sym);
        dashes = run_to(Sym::Minus, dashes, piece.sym);
        if is_too_deep(piece.sym, brackets, nots, dashes) {
            return Some(piece.place);
        }
    }
    None
}
