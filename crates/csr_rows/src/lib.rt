//! For each vertex of a table the edges that leave it, or that enter it.
//!
//! The edges of a table have places, counted from 0. A list of *ends* has for each edge place the place of a vertex: where
//! the edge begins, or where it leads. [`Rows`] turns such a list round: row `i` lists the edge places whose end is `i`, in
//! rising order. Rows hold edge places alone, so a row stays as it is when vertices at the other ends move.
//!
//! [`Rows`] is seen as the list of its rows, up to the last one that is not empty. So rows of the same ends are equal,
//! however many vertices there are: one more vertex without edges changes nothing. How the rows lie in memory is in no
//! contract.
#![tactic(auto)]

mod laws;
mod rows;

pub use laws::rows_list_the_places_of_their_ends;
pub use rows::Rows;
