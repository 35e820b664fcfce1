//! Lists of changes.
ghost use Rattle.std.specs.Prelude.{◌≡◌, ◌↔◌, ◌<◌, ◌++◌, ◌∷◌, [], length, IsTrue, OnOk, OnErr};

use crate::overlay::Overlay;
use column_types::{List, NoMemory};
use graph_model::{Change, Why};
use graph_snap::Snapshot;
use std::alloc::{AllocError, Global};
use std::marker::Model;
use thiserror::Error;

/// Changes in order, seen as the list of them.
#[derive(Debug, Drop)]
pub struct ChangeList {
    changes: List<Change>,
}

impl Model for ChangeList {
    ghost use Rattle.std.specs.Prelude.{◌<◌, ◌^◌, List, length};
    ghost use Rattle.graph_model.specs.declared.change.Change.{Change as AChange};

    ghost Value = { List AChange };

    ghost view = { λ c. c.changes };

    ghost invariant = { λ c. length c.changes < 2 ^ 32 };
}

/// Why a list of changes does not fit.
#[derive(Clone, Copy, Debug, PartialEq, Eq, Error)]
pub enum FitFault {
    /// The place of the first change that does not fit, from 1, and why.
    #[error("change {place} does not fit")]
    BadChange { place: u32, why: Why },
    #[error("out of memory")]
    NoMemory,
}

impl From<NoMemory> for FitFault {
    ghost use Rattle.changeset.specs.declared.list.FitFault.TheVariants.{NoMemory};

    ghost from_gives = { λ _ fault. fault ≡ NoMemory };

    fn from(_error: NoMemory) -> FitFault {
        FitFault::NoMemory
    }
}

impl Clone for ChangeList {
    ghost is_clone = { λ s t. t ≡ s };

    fn clone(&self) -> Result<ChangeList, AllocError> {
        Ok(ChangeList {
            changes: self.changes.clone()?,
        })
    }
}

impl ChangeList {
    ghost use Rattle.changeset.specs.Misfit.{TellsMisfit};

    /// No changes.
    pub fn new(alloc: Global) -> ChangeList
        ensures { result ≡ [] }
    {
        ChangeList {
            changes: List::new(alloc),
        }
    }

    /// Appends a change. After an error it is dropped.
    pub fn add(&mut self, change: Change) -> Result<(), NoMemory>
        requires { length self.old < 4294967295 }
        ensures ok { OnOk result (self.new ≡ self.old ++ change ∷ []) }
        ensures err { OnErr result (self.new ≡ self.old) }
    {
        self.changes.push(change)
    }

    /// How many changes there are.
    pub fn len(&self) -> u32
        ensures { result ≡ length self.now }
    {
        self.changes.len() as u32
    }

    pub fn is_empty(&self) -> bool
        ensures { IsTrue result ↔ (self.now ≡ []) }
    {
        self.changes.is_empty()
    }

    /// The changes in order.
    pub fn list(&self) -> &[Change]
        ensures { result.now ≡ self.now }
    {
        self.changes.as_slice()
    }

    /// Whether each change fits the graph after those before it, or the first that does not. The snapshot stays as it is, and
    /// the work and the memory are those of the changes: none of the graph is copied.
    pub fn fits(&self, alloc: Global, on: &Snapshot) -> Result<(), FitFault>
        ensures { TellsMisfit on.now self.now result }
    {
        on.sound();
        let _few = self.len();
        let mut overlay = Overlay::new(alloc, on);
        let mut place = 0;
        for change in self.list() {
            place += 1;
            if let Some(why) = overlay.misfit(on, change) {
                return Err(FitFault::BadChange { place, why });
            }
            overlay.note(on, change)?;
        }
        Ok(())
    }
}
