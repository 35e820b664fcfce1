//! The text of the journal: how calls, replies, refusals and graphs are written, with the names of the script's actors.
//!
//! [`push_ask`] appends a call as it stands in a head line, and [`push_reply`], [`push_refusal`] and [`push_starved`] append
//! reply lines. What they append is `ask_text`, `reply_text`, `refusal_text` and `starved_text` of specs/: words with one
//! space between each two. A new call, reply or refusal is one equation there, and one arm here. A reply that tells of
//! published graphs shows the name of each one's owner, so the names of the actors are handed in; [`name_of`] is the name of one.
//! [`push_count_reply`] appends the line `ok N` of a reply that is a number alone, and [`cause_word`] is the word for the cause for which a
//! row of changes is refused.
//!
//! [`graph_text`] gives the reply lines of a snapshot's graph: a line with the numbers of vertices and edges, a line for each
//! vertex and each edge with its values, and for each vertex the keys of the edges that leave it and of those that enter it. What
//! it gives is `text_of`, for every graph. It reads the snapshot itself, a row at a time: the edges at a vertex are those that the
//! rows of the vertex list, which [`rows_list_the_edges_of_a_key`] says. A vertex is told by its table and its key: where keys differ
//! within each table alone, the edges at the equal key of another table are not its own. [`push_number`] and [`push_count`] print
//! numbers, without memory beside the text's.
#![tactic(auto)]

mod ask;
mod causes;
mod graph;
mod laws;
mod lines;
mod names;
mod number;
mod published;
mod reply;
mod rows;
mod totals;
mod vertex_edges;
mod words;

pub use ask::push_ask;
pub use causes::cause_word;
pub use graph::graph_text;
pub use laws::{keys_of_whole_graphs_tell_the_vertex, rows_list_the_edges_of_a_key};
pub use lines::push_count_reply;
pub use names::name_of;
pub use number::{push_count, push_number};
pub use reply::{push_refusal, push_reply, push_starved};
