//! Tests of what no text shows: which types may be sent to other threads and shared between them, what a registry counts, and values
//! that are written out of order.
#![tactic(auto)]

#[cfg(test)]
mod registries;
#[cfg(test)]
mod scattered;
#[cfg(test)]
mod tests;
