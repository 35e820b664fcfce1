//! The map from names to columns.
ghost use Rattle.std.specs.Prelude.{◌≡◌, ◌↔◌, [], map, None, Some, Err, IsTrue, IsErr, OnOk, OnErr};
ghost use Rattle.std.specs.Option.{option_copied};
ghost use Rattle.transient_props.specs.Transients.{column_of, ChangesOnly, NamesRise, prop_of, is_vertex_prop as vertex_prop_named, is_taken};

use crate::pairs::insert_both;
use crate::places::{has_name, place_for, place_of};
use crate::{NoProp, TransientFault};
use column_types::{Column, Text};
use graph_schema::{Prop, Schema};
use std::alloc::Global;
use std::marker::Model;

/// A map from names to columns, seen as the list of its entries in the order of their names' bytes. It is kept as two lists:
/// one of the names with the kinds of their columns, and one of the columns.
#[derive(Drop)]
pub struct Transients {
    props: Vec<Prop>,
    columns: Vec<Column>,
}

impl Model for Transients {
    ghost use Rattle.std.specs.Prelude.{List};
    ghost use Rattle.transient_props.specs.Transients.{Transient, entries_of, IsKept};

    ghost Value = { List Transient };

    ghost view = { λ t. entries_of t.props.items t.columns.items };

    ghost invariant = { λ t. IsKept t.props.items t.columns.items };
}

impl Transients {
    /// No transient properties. It takes no memory.
    pub fn new(alloc: Global) -> Transients
        ensures { result ≡ [] }
    {
        Transients {
            props: Vec::new(alloc),
            columns: Vec::new(alloc),
        }
    }

    /// Adds a column under a name, in the place of the name. `PropTaken` is answered exactly where a vertex table of the
    /// schema or the map has the name already, and takes no memory. After an error the column is dropped, and the map is as before.
    pub fn add(&mut self, schema: &Schema, name: Text, column: Column) -> Result<(), TransientFault>
        ensures added { OnOk result (ChangesOnly self.old self.new name (Some column)) }
        ensures taken { IsTrue (is_taken schema.now self.old name) ↔ (result ≡ Err (TransientFault.PropTaken name)) }
        ensures unchanged { OnErr result (self.new ≡ self.old) }
    {
        if is_vertex_prop(schema, name.as_str()) || self.get(name.as_str()).is_some() {
            return Err(TransientFault::PropTaken { name });
        }
        let place = place_for(self.props.as_slice(), name.as_str());
        let prop = Prop {
            name,
            kind: column.kind(),
        };
        insert_both(&mut self.props, &mut self.columns, place, prop, column)?;
        Ok(())
    }

    /// Takes a name out and drops its column. `NoProp` is answered exactly where the map has no such name, and then nothing is
    /// changed. It takes no memory.
    pub fn drop_prop(&mut self, name: &str) -> Result<(), NoProp>
        ensures dropped { OnOk result (ChangesOnly self.old self.new name.now None) }
        ensures missing { (column_of self.old name.now ≡ None) ↔ IsErr result }
        ensures unchanged { OnErr result (self.new ≡ self.old) }
    {
        let place = place_of(self.props.as_slice(), name);
        if place == self.props.len() {
            return Err(NoProp);
        }
        self.props.remove(place);
        self.columns.remove(place);
        Ok(())
    }

    /// The column of a name, or none where the map has no such name.
    pub fn get(&self, name: &str) -> Option<&Column>
        ensures { option_copied result ≡ column_of self.now name.now }
    {
        self.columns.get(place_of(self.props.as_slice(), name))
    }

    /// The names in the order of their bytes, each with the kind of its column.
    pub fn props(&self) -> &[Prop]
        ensures props { result.now ≡ map prop_of self.now }
        ensures rising { NamesRise self.now }
    {
        self.props.as_slice()
    }
}

/// Whether a vertex table of the schema has a property of the name.
fn is_vertex_prop(schema: &Schema, name: &str) -> bool
    ensures { result ≡ vertex_prop_named schema.now name.now }
{
    schema
        .vertices()
        .iter()
        .any(|table| has_name(table.props.as_slice(), name))
}
