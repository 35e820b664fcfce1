//! A mark for each vertex.
ghost use Rattle.std.specs.Prelude.{◌≡◌, ◌≢◌, ◌↔◌, ℕ, ◌<◌, Option as Maybe, IsTrue, IfOk, Some, None, length, replicate, slice_index, slice_index_or, slice_set};
ghost use Rattle.std.specs.Option.{is_none};
ghost use Rattle.algo_digraph.specs.Marks.{mark_in, marks_in};

use column_types::{List, NoMemory};
use std::alloc::Global;
use std::marker::Model;

/// What is kept for a vertex without a mark. Each smaller number is a mark.
pub const UNMARKED: u32 = 4_294_967_295;

/// For each vertex a mark, which is a number below 4,294,967,295, or none, in four bytes. Seen as the list of these.
#[derive(Drop)]
pub struct Marks {
    cells: List<u32>,
}

impl Model for Marks {
    ghost use Rattle.std.specs.Prelude.{List, Option, ℕ};
    ghost use Rattle.algo_digraph.specs.Marks.{marks_in};

    ghost Value = { List (Option ℕ) };

    ghost view = { λ m. marks_in m.cells };
}

impl Marks {
    /// No marks for `n` vertices.
    pub fn none(alloc: Global, n: u32) -> Result<Marks, NoMemory>
        ensures { IfOk result (λ marks. marks ≡ replicate n None) }
    {
        let cells = vec![in alloc; UNMARKED; n as usize]?;
        Ok(Marks {
            cells: List::from_vec(cells),
        })
    }

    /// The marks that are kept in these cells.
    pub fn from_cells(cells: List<u32>) -> Marks
        ensures { result ≡ marks_in cells }
    {
        Marks { cells }
    }

    /// What is kept for a vertex: its mark, or `UNMARKED`.
    pub fn cell(&self, v: u32) -> u32
        requires { v < length self.now }
        ensures { mark_in result ≡ slice_index_or self.now v None }
    {
        self.cells.as_slice()[v as usize]
    }

    /// Whether a vertex has no mark.
    pub fn is_free(&self, v: u32) -> bool
        requires { v < length self.now }
        ensures value { (d : Maybe ℕ) → result ≡ is_none (slice_index_or self.now v d) }
        ensures free { IsTrue result ↔ (slice_index_or self.now v None ≡ None) }
    {
        self.cell(v) == UNMARKED
    }

    /// Whether a vertex has this mark.
    pub fn has(&self, v: u32, mark: u32) -> bool
        requires vertex { v < length self.now }
        requires mark { mark < 4294967295 }
        ensures { IsTrue result ↔ (slice_index_or self.now v None ≡ Some mark) }
    {
        self.cell(v) == mark
    }

    /// Gives a vertex a mark in place of what it had.
    pub fn set(&mut self, v: u32, mark: u32)
        requires vertex { v < length self.old }
        requires mark { mark < 4294967295 }
        ensures { self.new ≡ slice_set self.old v (Some mark) }
    {
        self.cells.set(v as usize, mark);
    }

    /// The marks as a list of options.
    pub fn to_options(&self, alloc: Global) -> Result<List<Option<u64>>, NoMemory>
        ensures { IfOk result (λ list. list ≡ self.now) }
    {
        let mut list = List::new(alloc);
        for cell in self.cells.as_slice() {
            list.push(mark_of_cell(*cell))?;
        }
        Ok(list)
    }

    /// The marks as a list of numbers, where each vertex has one.
    pub fn to_numbers(&self, alloc: Global) -> Result<List<u64>, NoMemory>
        requires { (v : ℕ) → v < length self.now → slice_index_or self.now v None ≢ None }
        ensures len { IfOk result (λ list. length list ≡ length self.now) }
        ensures each { IfOk result (λ list. (v : ℕ) → v < length self.now → slice_index_or self.now v None ≡ Some (slice_index list v)) }
    {
        let mut list = List::new(alloc);
        for cell in self.cells.as_slice() {
            list.push(u64::from(*cell))?;
        }
        Ok(list)
    }
}

fn mark_of_cell(cell: u32) -> Option<u64>
    ensures { result ≡ mark_in cell }
{
    if cell == UNMARKED {
        return None;
    }
    Some(u64::from(cell))
}
