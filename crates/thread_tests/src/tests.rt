//! Types that cross threads, crate by crate.
use algo_digraph::{FlatDigraph, VertexOrder};
use column_reclaim::{Registry, RegistryRow};
use column_types::{Column, List, Shared, Text, Value};
use csr_rows::Rows;
use graph_columns::{GraphParts, TableIndex};
use graph_config::Config;
use graph_schema::Schema;
use graph_slots::{Part, SlotName};
use graph_snap::{Built, Derived, EdgeAt, Snapshot, VertexAt};
use scatter_buf::{Filled, ScatterBuf};

fn crosses_threads<T: Send + Sync>() {}

/// Columns, what they are made of and what holds them.
#[test]
fn columns_cross_threads() {
    crosses_threads::<Text>();
    crosses_threads::<Value>();
    crosses_threads::<List<Value>>();
    crosses_threads::<Column>();
    crosses_threads::<Shared<Column>>();
}

/// A registry and its rows cross threads where their items do.
fn registries_cross<T: Send + Sync>() {
    crosses_threads::<Registry<T>>();
    crosses_threads::<RegistryRow<T>>();
}

#[test]
fn registries_cross_threads() {
    registries_cross::<Shared<Column>>();
}

#[test]
fn rows_cross_threads() {
    crosses_threads::<Rows>();
}

#[test]
fn parts_cross_threads() {
    crosses_threads::<Part>();
    crosses_threads::<SlotName>();
}

#[test]
fn indexes_cross_threads() {
    crosses_threads::<TableIndex>();
    crosses_threads::<GraphParts>();
}

#[test]
fn snapshots_cross_threads() {
    crosses_threads::<Snapshot>();
    crosses_threads::<Built>();
    crosses_threads::<Derived>();
    crosses_threads::<VertexAt>();
    crosses_threads::<EdgeAt>();
}

#[test]
fn digraphs_cross_threads() {
    crosses_threads::<FlatDigraph<'static>>();
    crosses_threads::<VertexOrder>();
}

#[test]
fn schemas_cross_threads() {
    crosses_threads::<Schema>();
}

#[test]
fn configurations_cross_threads() {
    crosses_threads::<Config>();
}

#[test]
fn scattered_values_cross_threads() {
    crosses_threads::<ScatterBuf<u32>>();
    crosses_threads::<Filled<u32>>();
}
