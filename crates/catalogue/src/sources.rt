//! The sources, by their names.
ghost use Rattle.std.specs.Prelude.{◌≡◌, ◌≤◌, IfOk, OnOk, All, find, length, map};
ghost use Rattle.std.specs.Option.{option_copied};
ghost use Rattle.graph_slots.specs.Slots.{slots};
ghost use Rattle.catalogue_state.specs.State.{from_source};
ghost use Rattle.catalogue_state.specs.Bound.{unfed};

use crate::{Source, SourceData};
use column_types::{List, NoMemory, Shared, Text};
use std::alloc::Global;
use std::marker::Model;

/// The sources, each with how many of its changes are to be seen. Seen as the list of them.
#[derive(Drop)]
pub(crate) struct Sources {
    all: List<Source>,
}

impl Model for Sources {
    ghost use Rattle.std.specs.Prelude.{List as Items};
    ghost use Rattle.catalogue_state.specs.declared.parts.Source.{Source as ASource};

    ghost Value = { Items ASource };

    ghost view = { λ s. s.all };
}

/// The sources, none of whose changes are to be seen yet.
fn unfed_sources(alloc: Global, sources: &[Shared<SourceData>]) -> Result<List<Source>, NoMemory>
    ensures sources { IfOk result (λ made. made ≡ map unfed sources.now) }
    ensures small { OnOk result (All (λ d. length (slots d.opening.schema) ≤ 2208) sources.now) }
{
    let mut made = List::new(alloc);
    for source in sources {
        let _slots = source.get().opening.slot_count();
        made.push(Source {
            data: source.share()?,
            visible: 0,
        })?;
    }
    Ok(made)
}

impl Sources {
    /// The sources before any of their changes is to be seen. Opening graphs have at most 2,208 slots.
    pub(crate) fn unfed(alloc: Global, sources: &[Shared<SourceData>]) -> Result<Sources, NoMemory>
        ensures sources { IfOk result (λ made. made ≡ map unfed sources.now) }
        ensures small { OnOk result (All (λ d. length (slots d.opening.schema) ≤ 2208) sources.now) }
    {
        Ok(Sources {
            all: unfed_sources(alloc, sources)?,
        })
    }

    /// The source of that name.
    pub(crate) fn named(&self, name: &Text) -> Option<&Source>
        ensures { option_copied result ≡ find (from_source name.now) self.now }
    {
        self.all
            .as_slice()
            .iter()
            .find(|source| source.data.get().name.as_str() == name.as_str())
    }
}
