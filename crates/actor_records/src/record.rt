//! What actors did.

/// What an actor did, with the reply: `N` is a call to the shared state, seen as plain data, and `R` its reply; `C` is a
/// command that no shared state serves, and `A` its reply; `T` is the head of a call that found no memory.
#[derive(Drop)]
pub enum Did<N, R, C, A, T> {
    Core(N, R),
    Local(C, A),
    Starved(T),
}

/// One entry of the journal.
///
/// A core record, one of [`Did::Core`], has a number, its place in the history; its `after` and `index` are 0. Any other stands after the core record of the number `after` of its actor, or at the start where that is 0, and
/// `index` counts from 1 since then.
#[derive(Drop)]
pub struct Record<N, R, C, A, T> {
    pub number: Option<u64>,
    pub after: u64,
    pub index: u32,
    /// The actor's number, from 1.
    pub who: u32,
    pub did: Did<N, R, C, A, T>,
}
