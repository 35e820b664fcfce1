//! What the lock's rule keeps of each handle. It is plain data of proofs: no value of these types is made.
use crate::entry::Entry;
use std::collections::LinkedList;

/// Whether the handle has a ticket, and which.
pub(crate) struct Waiter {
    pub waits: bool,
    pub ticket: u64,
}

/// Whether the handle is in the critical section, and the history that it found there.
pub(crate) struct Holder<N, R> {
    pub holds: bool,
    pub book: LinkedList<Entry<N, R>>,
}

/// Whose handle it is. The root's lists the numbers of the others, and counts the handles that were made.
pub(crate) struct Identity {
    pub live: bool,
    pub root: bool,
    pub number: u32,
    pub made: u64,
    pub out: LinkedList<u32>,
}

/// The last join of the root: what each of the two knew and had seen, the number that came in, and the numbers out before.
pub(crate) struct LastJoin<S, N, R> {
    pub number: u32,
    pub out: LinkedList<u32>,
    pub opening: Option<S>,
    pub its_opening: Option<S>,
    pub mine: LinkedList<Entry<N, R>>,
    pub its: LinkedList<Entry<N, R>>,
}

/// What a handle knows. One that was joined knows no opening state.
pub(crate) struct View<S, N, R> {
    pub opening: Option<S>,
    pub waiter: Waiter,
    pub holder: Holder<N, R>,
    pub identity: Identity,
    pub seen: LinkedList<Entry<N, R>>,
    pub left: u64,
    pub last_join: LastJoin<S, N, R>,
}
