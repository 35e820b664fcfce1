//! What a change that fits makes of an overlay.
ghost use Rattle.std.specs.Prelude.{◌≡◌, OnOk, None};
ghost use Rattle.graph_model.specs.declared.change.Change.TheVariants as change;
ghost use Rattle.changeset.specs.Facts.{misfit_of, noted};
ghost use Rattle.changeset.specs.Overlay.{told, AreFew};

use crate::base::{destination_table, edge_width, source_table, vertex_width};
use crate::overlay::Overlay;
use crate::state::{EdgeState, VertexState};
use column_types::{List, NoMemory, Value};
use graph_model::Change;
use graph_snap::Snapshot;

impl Overlay {
    /// The vertex is there. Ends stand at it as before.
    fn insert_vertex(
        &mut self,
        base: &Snapshot,
        table: u32,
        key: i64,
        values: &List<Value>,
    ) -> Result<(), NoMemory>
        requires few { AreFew (told base.now self.old) }
        requires fits { misfit_of base.now.schema (told base.now self.old) (change.InsertVertex table key values.now) ≡ None }
        ensures { OnOk result (told base.now self.new ≡ noted base.now.schema (told base.now self.old) (change.InsertVertex table key values.now)) }
    {
        let ends = self.ends(base, table, key);
        self.put_vertex(table, key, VertexState { there: true, ends })?;
        self.vertex_total += 1;
        self.cell_total += values.len() as u32;
        Ok(())
    }

    /// The vertex is gone.
    fn delete_vertex(&mut self, base: &Snapshot, table: u32, key: i64) -> Result<(), NoMemory>
        requires { misfit_of base.now.schema (told base.now self.old) (change.DeleteVertex table key) ≡ None }
        ensures { OnOk result (told base.now self.new ≡ noted base.now.schema (told base.now self.old) (change.DeleteVertex table key)) }
    {
        let ends = self.ends(base, table, key);
        self.put_vertex(table, key, VertexState { there: false, ends })?;
        let width = vertex_width(base.schema(), table);
        self.vertex_total = self.vertex_total.saturating_sub(1);
        self.cell_total = self.cell_total.saturating_sub(width);
        Ok(())
    }

    /// The edge is there, and one more end stands at each of its vertices. At a loop's vertex stand two.
    fn insert_edge(
        &mut self,
        base: &Snapshot,
        table: u32,
        key: i64,
        source: i64,
        destination: i64,
        values: &List<Value>,
    ) -> Result<(), NoMemory>
        requires few { AreFew (told base.now self.old) }
        requires fits { misfit_of base.now.schema (told base.now self.old) (change.InsertEdge table key source destination values.now) ≡ None }
        ensures { OnOk result (told base.now self.new ≡ noted base.now.schema (told base.now self.old) (change.InsertEdge table key source destination values.now)) }
    {
        self.raise(base, source_table(base, table), source)?;
        self.raise(base, destination_table(base, table), destination)?;
        self.put_edge(
            table,
            key,
            EdgeState::There {
                source,
                destination,
            },
        )?;
        self.edge_total += 1;
        self.cell_total += values.len() as u32;
        Ok(())
    }

    /// The edge is gone, and one end less stands at each of its vertices.
    fn delete_edge(&mut self, base: &Snapshot, table: u32, key: i64) -> Result<(), NoMemory>
        requires { misfit_of base.now.schema (told base.now self.old) (change.DeleteEdge table key) ≡ None }
        ensures { OnOk result (told base.now self.new ≡ noted base.now.schema (told base.now self.old) (change.DeleteEdge table key)) }
    {
        let EdgeState::There {
            source,
            destination,
        } = self.edge(base, table, key)
        else {
            return Ok(());
        };
        self.lower(base, source_table(base, table), source)?;
        self.lower(base, destination_table(base, table), destination)?;
        self.put_edge(table, key, EdgeState::Gone)?;
        let width = edge_width(base.schema(), table);
        self.edge_total = self.edge_total.saturating_sub(1);
        self.cell_total = self.cell_total.saturating_sub(width);
        Ok(())
    }

    /// Notes a change that fits. A set value leaves all that is told. After an error the overlay is of no use.
    pub(crate) fn note(&mut self, base: &Snapshot, change: &Change) -> Result<(), NoMemory>
        requires few { AreFew (told base.now self.old) }
        requires fits { misfit_of base.now.schema (told base.now self.old) change.now ≡ None }
        ensures { OnOk result (told base.now self.new ≡ noted base.now.schema (told base.now self.old) change.now) }
    {
        match change {
            Change::InsertVertex { table, key, values } => {
                self.insert_vertex(base, *table, *key, values)
            }
            Change::DeleteVertex { table, key } => self.delete_vertex(base, *table, *key),
            Change::InsertEdge {
                table,
                key,
                source,
                destination,
                values,
            } => self.insert_edge(base, *table, *key, *source, *destination, values),
            Change::DeleteEdge { table, key } => self.delete_edge(base, *table, *key),
            Change::SetVertex { .. } | Change::SetEdge { .. } => Ok(()),
        }
    }
}
