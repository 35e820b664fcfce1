//! The pieces that are left to read.
ghost use Rattle.std.specs.Prelude.{◌≡◌, Bool, length};
ghost use Rattle.pgql_grammar.specs.Reading.{head, expect, maybe};
ghost use Rattle.pgql_grammar.specs.Sorts as spec;
ghost use Rattle.pgql_grammar.specs.declared.piece.Sym.{Sym};
ghost use Rattle.pgql_parse.specs.Place.{first_place};
ghost use Rattle.pgql_parse.specs.Steps.{Reads, ReadsAt};

use crate::sorts::{
    is, is_addition, is_aggregate, is_comparison, is_edge, is_label, is_multiplication, is_text,
    is_truth,
};
use column_types::NoMemory;
use pgql_grammar::{Piece, Sym};
use std::alloc::AllocError;
use std::marker::Model;

/// Why a rule read nothing. At a fault the pieces from it on are left.
#[derive(Clone, Copy, Debug, PartialEq, Eq)]
pub enum Stop {
    NoMemory,
    Fault,
}

impl From<AllocError> for Stop {
    ghost use Rattle.std.specs.Prelude.{◌≡◌};
    ghost use Rattle.pgql_parse.specs.declared.rest.Stop.TheVariants.{NoMemory};

    ghost from_gives = { λ _ e. e ≡ NoMemory };

    fn from(_error: AllocError) -> Stop {
        Stop::NoMemory
    }
}

impl From<NoMemory> for Stop {
    ghost use Rattle.std.specs.Prelude.{◌≡◌};
    ghost use Rattle.pgql_parse.specs.declared.rest.Stop.TheVariants.{NoMemory};

    ghost from_gives = { λ _ e. e ≡ NoMemory };

    fn from(_error: NoMemory) -> Stop {
        Stop::NoMemory
    }
}

/// The pieces that are left, seen as their list.
#[derive(Drop)]
pub struct Rest<'a> {
    pieces: &'a [Piece],
}

impl<'a> Model for Rest<'a> {
    ghost use Rattle.std.specs.Prelude.{List};
    ghost use Rattle.pgql_grammar.specs.declared.piece.Piece.{Piece};

    ghost Value = { List Piece };

    ghost view = { λ r. r.pieces.now };
}

impl<'a> Rest<'a> {
    pub fn new(pieces: &'a [Piece]) -> Rest<'a>
        ensures { result ≡ pieces.now }
    {
        Rest { pieces }
    }

    pub fn len(&self) -> usize
        ensures { result ≡ length self.now }
    {
        self.pieces.len()
    }

    /// The sort of the next piece.
    pub fn peek(&self) -> Sym
        ensures { result ≡ head self.now }
    {
        match self.pieces {
            [first, ..] => first.sym,
            [] => Sym::End,
        }
    }

    /// The first byte of the next piece, or the end.
    pub fn place(&self, end: u32) -> u32
        ensures { result ≡ first_place end self.now }
    {
        match self.pieces {
            [first, ..] => first.place,
            [] => end,
        }
    }

    /// The next piece, if it is of the sort that was asked for.
    fn accept(&mut self, fits: bool) -> Result<&'a Piece, Stop>
        ensures { (test : Sym → Bool) → fits ≡ test (head self.old) → ReadsAt (expect test self.old) result self.new }
    {
        match self.pieces {
            [first, rest @ ..] if fits => {
                self.pieces = rest;
                Ok(first)
            }
            _ => Err(Stop::Fault),
        }
    }

    pub fn expect(&mut self, kind: Sym) -> Result<&'a Piece, Stop>
        ensures { ReadsAt (expect (spec.is kind) self.old) result self.new }
    {
        let fits = is(kind, self.peek());
        self.accept(fits)
    }

    pub fn expect_addition(&mut self) -> Result<&'a Piece, Stop>
        ensures { ReadsAt (expect spec.is_addition self.old) result self.new }
    {
        let fits = is_addition(self.peek());
        self.accept(fits)
    }

    pub fn expect_multiplication(&mut self) -> Result<&'a Piece, Stop>
        ensures { ReadsAt (expect spec.is_multiplication self.old) result self.new }
    {
        let fits = is_multiplication(self.peek());
        self.accept(fits)
    }

    pub fn expect_comparison(&mut self) -> Result<&'a Piece, Stop>
        ensures { ReadsAt (expect spec.is_comparison self.old) result self.new }
    {
        let fits = is_comparison(self.peek());
        self.accept(fits)
    }

    pub fn expect_label(&mut self) -> Result<&'a Piece, Stop>
        ensures { ReadsAt (expect spec.is_label self.old) result self.new }
    {
        let fits = is_label(self.peek());
        self.accept(fits)
    }

    pub fn expect_text(&mut self) -> Result<&'a Piece, Stop>
        ensures { ReadsAt (expect spec.is_text self.old) result self.new }
    {
        let fits = is_text(self.peek());
        self.accept(fits)
    }

    pub fn expect_truth(&mut self) -> Result<&'a Piece, Stop>
        ensures { ReadsAt (expect spec.is_truth self.old) result self.new }
    {
        let fits = is_truth(self.peek());
        self.accept(fits)
    }

    pub fn expect_aggregate(&mut self) -> Result<&'a Piece, Stop>
        ensures { ReadsAt (expect spec.is_aggregate self.old) result self.new }
    {
        let fits = is_aggregate(self.peek());
        self.accept(fits)
    }

    pub fn expect_edge(&mut self) -> Result<&'a Piece, Stop>
        ensures { ReadsAt (expect spec.is_edge self.old) result self.new }
    {
        let fits = is_edge(self.peek());
        self.accept(fits)
    }

    /// Whether the keyword stood next. It is then taken.
    #[tactic(auto, unfolding(pgql_grammar::specs::Reading::maybe))]
    pub fn maybe(&mut self, kind: Sym) -> Result<bool, Stop>
        ensures { Reads (maybe kind self.old) result self.new }
    {
        if !is(kind, self.peek()) {
            return Ok(false);
        }
        self.expect(kind)?;
        Ok(true)
    }
}
