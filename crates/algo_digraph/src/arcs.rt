//! The arcs of a vertex.
ghost use Rattle.std.specs.Prelude.{◌≡◌, ◌+◌, ◌<◌, ◌≤◌, All, length, flat_map};
ghost use Rattle.std.specs.Iterator.{YieldsFirst, item_count};
ghost use Rattle.algo_digraph.specs.Sides.{arc_at, side_arcs, IsEnd, HasRows};

use crate::side::Side;
use std::marker::Model;

/// An edge as a search meets it at one of its ends: its number, and the index of the vertex at the other end.
#[derive(Clone, Copy, Debug, PartialEq, Eq)]
pub struct Arc {
    pub edge: u32,
    pub vertex: u32,
}

/// The arcs of a vertex, in the order of the edges' numbers. Seen as the list of those that are left. A step reads the place of an
/// edge in a row and the place of the vertex at its other end.
#[derive(Drop)]
pub struct Arcs<'s, 'a> {
    row: &'a [u32],
    there: &'a [i32],
    first_edge: u32,
    there_first: u32,
    v: u32,
    sides: &'s [Side<'a>],
    table: usize,
}

impl<'s, 'a> Model for Arcs<'s, 'a> {
    ghost use Rattle.std.specs.Prelude.{List};
    ghost use Rattle.algo_digraph.specs.declared.arcs.Arc.{Arc};
    ghost use Rattle.algo_digraph.specs.Sides.{arcs_left, AreLeft};

    ghost Value = { List Arc };

    ghost view = { λ a. arcs_left a.first_edge a.there_first a.there.now a.row.now a.v a.sides.now a.table };

    ghost invariant = { λ a. AreLeft a.first_edge a.there_first a.there.now a.row.now a.sides.now };
}

impl<'s, 'a> Iterator for Arcs<'s, 'a> {
    type Item = Arc;

    ghost next_gives = { YieldsFirst (λ rest. rest) };

    ghost remaining = { item_count (λ rest. rest) };

    fn next(&mut self) -> Option<Arc> {
        'tables: while self.row.is_empty() {
            if self.table >= self.sides.len() {
                return None;
            }
            let side = &self.sides[self.table];
            self.table += 1;
            self.row = side.row(self.v);
            self.there = side.there;
            self.first_edge = side.first_edge;
            self.there_first = side.there_first;
        }
        let (place, others) = self.row.split_first()?;
        self.row = others;
        Some(arc_of(self.first_edge, self.there_first, self.there, *place))
    }
}

/// The arcs of a vertex on these sides.
pub(crate) fn arcs_over<'s, 'a>(sides: &'s [Side<'a>], v: u32) -> Arcs<'s, 'a>
    requires { All HasRows sides.now }
    ensures { result ≡ flat_map (side_arcs v) sides.now }
{
    Arcs {
        row: &[],
        there: &[],
        first_edge: 0,
        there_first: 0,
        v,
        sides,
        table: 0,
    }
}

/// How many arcs a vertex has on these sides.
pub(crate) fn degree_over(sides: &[Side<'_>], v: u32) -> u32
    requires { length (flat_map (side_arcs v) sides.now) ≤ 4194304 }
    ensures { result ≡ length (flat_map (side_arcs v) sides.now) }
{
    let mut count = 0;
    for side in sides {
        count += side.row(v).len() as u32;
    }
    count
}

fn arc_of(first_edge: u32, there_first: u32, there: &[i32], place: u32) -> Arc
    requires few { first_edge + length there.now ≤ 4194304 }
    requires ends { All (IsEnd 1048576 there_first) there.now }
    requires place { place < length there.now }
    ensures { result ≡ arc_at first_edge there_first there.now place }
{
    Arc {
        edge: first_edge + place,
        vertex: there_first + there[place as usize] as u32,
    }
}
