//! A session with the catalogue that it calls.
ghost use Rattle.std.specs.Prelude.{◌≡◌};
ghost use Rattle.catalogue_hall.specs.History.{held_by};

use catalogue::{Ask, Snap, SourceData};
use catalogue_hall::{Alone, Held, Told};
use column_types::{List, NoMemory, Shared};
use std::alloc::Global;
use std::thread::Threads;

/// A catalogue with its history, and what session 1 holds.
#[derive(Drop)]
pub struct Client {
    alone: Alone,
    held: Held,
    ghost up_to_date: { held ≡ held_by alone 1 },
}

impl Client {
    /// Session 1 before any call, on a catalogue of this source, or of none.
    pub fn new(alloc: Global, source: Option<Shared<SourceData>>) -> Result<Client, NoMemory> {
        let mut sources = List::new(alloc);
        if let Some(source) = source {
            sources.push(source)?;
        }
        let alone = Alone::new(alloc, sources)?;
        Ok(Client {
            alone,
            held: Held::new(alloc),
        })
    }

    /// Makes a call, while there are fewer than 33,554,432.
    pub fn ask<R: Threads + Sync>(
        &mut self,
        rt: &R,
        alloc: Global,
        ask: Ask,
    ) -> Result<Told, NoMemory> {
        if self.alone.book().len() >= 33_554_432 {
            return Err(NoMemory);
        }
        self.alone.ask(rt, alloc, 1, &mut self.held, ask)
    }

    /// The snapshot that the session holds under a name.
    pub fn snap(&self, name: &str) -> Option<&Snap> {
        self.held.snap(name)
    }

    /// The length of the history.
    pub fn count(&self) -> usize {
        self.alone.book().len()
    }

    /// The number of sources.
    pub fn source_count(&self) -> usize {
        self.alone.sources().len()
    }
}
