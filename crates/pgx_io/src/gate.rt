//! A gate that actors pass before their local commands.
use std::thread::Threads;

/// A hook before each local command, by which a test can arrange how actors meet. No clause speaks of what it does.
pub trait Gate: Sync {
    /// Is called before the local command number `n`, counted from 1, of the actor `who`.
    fn pass<R: Threads + Sync>(&self, rt: &R, who: u32, n: u32);
}

/// The gate that does nothing.
#[derive(Clone, Copy, Debug)]
pub struct OpenGate;

impl Gate for OpenGate {
    fn pass<R: Threads + Sync>(&self, _rt: &R, _who: u32, _n: u32) {}
}
