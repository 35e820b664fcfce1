//! Where keys stand, at no cost for keys that come one after another.
//!
//! A [`KeyPlaces`] is an index: it tells for each key the place where it stands, or that it stands nowhere. It is seen as that
//! function, `place_of`. Most tables number their rows 1, 2, 3 and so on. So it holds a *run*, a first key and a length: the key
//! `first + i` stands at place `i`. Keys of the run take no memory, and nothing is hashed for them. A map holds the *exceptions*:
//! keys that stand elsewhere, and keys of the run that were taken out. It is searched only where there are some.
//!
//! A key that was taken out of the run is one exception, and the run goes on behind it. So no call walks over keys.
#![tactic(auto)]

mod index;
mod run;

pub use index::KeyPlaces;
