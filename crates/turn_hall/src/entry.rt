//! Calls in a book, and what a desk gives for one.

/// One call in a book: whose it was, what was asked, and what was replied.
#[derive(Drop)]
pub struct Entry<N, R> {
    pub who: u32,
    pub note: N,
    pub reply: R,
}

/// What a desk gives for a call. `kept` is the reply once more, for the book.
#[derive(Drop)]
pub struct Served<N, R, G> {
    pub note: N,
    pub kept: R,
    pub reply: R,
    pub gift: G,
}
