//! Tests of what no text shows: that desks, halls and rules can be given, that threads call one hall, and which types cross threads.
//!
//! There is nothing but tests here, so the crates that they try have none and are proved once.
#![tactic(auto)]

#[cfg(test)]
mod counter;
#[cfg(test)]
mod crossing;
#[cfg(test)]
mod rules;
#[cfg(test)]
mod threads;
#[cfg(test)]
mod turns;
