//! Configurations.
ghost use Rattle.std.specs.Prelude.{◌≡◌, ◌+◌, ◌≤◌, length, IfErr};
ghost use Rattle.serde_json.specs.View.{view};
ghost use Rattle.graph_schema.specs.Schema.{IsSchema};
ghost use Rattle.graph_config.specs.Fault.{Gives};
ghost use Rattle.graph_config.specs.Walk.{AreWalked};
ghost use Rattle.graph_config.specs.Locates.{LocatesFault};
ghost use Rattle.graph_config.specs.Config.{IsConfig, config_with, config_at, config_of};

use crate::ConfigFault;
use crate::ends::check_ends;
use crate::field::keys_of;
use crate::names::check_names;
use crate::tables::Tables;
use crate::walk::walk;
use column_types::{List, Text};
use graph_schema::{Keys, Schema, SchemaFault};
use serde_json::Value;
use std::alloc::Global;
use std::marker::Model;

/// A schema, and the names of the files of its vertex tables and then of its edge tables. What every configuration keeps is
/// `IsConfig`: each table has one file.
#[derive(Debug, Drop, PartialEq, Eq)]
pub struct Config {
    pub schema: Schema,
    pub files: List<Text>,
}

impl Model for Config {
    ghost use Rattle.graph_config.specs.Config.{ConfigData, IsConfig};

    ghost Value = { ConfigData };

    ghost view = { λ c. record { schema = c.schema; files = c.files } };

    ghost inverse = { λ c. record { schema = c.schema; files = c.files } };

    ghost invariant = { λ c. IsConfig (record { schema = c.schema; files = c.files }) };
}

impl Config {
    /// Tells a proof what every configuration keeps: each table has one file, and its schema is one.
    pub fn sound(&self)
        ensures files { IsConfig self.now }
        ensures schema { IsSchema self.now.schema }
    {
        self.schema.sound();
    }
}

/// The configuration that bytes stand for.
///
/// The error is the first fault in the order of the first page, with its number and its path. 3 comes exactly where the bytes
/// are no JSON. The path of 4 names a field that an object must have and lacks, that of 5 a value that is there and not allowed
/// there, that of 52 a list that is too long, and no path before it has such a fault; 6, 7 and 50 come where no path has one.
/// `NoMemory` comes where memory ran out.
#[tactic(auto, using(crate::proofs::Located::locates_fault))]
pub fn read_config(alloc: Global, bytes: &[u8]) -> Result<Config, ConfigFault>
    ensures reads { Gives result (config_of bytes.now) }
    ensures place { IfErr result (LocatesFault bytes.now) }
{
    read_bytes(alloc, bytes)
}

#[tactic(auto, using(crate::proofs::Read::no_json))]
fn read_bytes(alloc: Global, bytes: &[u8]) -> Result<Config, ConfigFault>
    ensures { Gives result (config_of bytes.now) }
{
    match Value::from_slice(alloc, bytes) {
        Ok(top) => read_top(alloc, &top),
        Err(e) => {
            if e.is_memory() {
                return Err(ConfigFault::NoMemory);
            }
            Err(ConfigFault::At {
                number: 3,
                path: Text::new(alloc),
            })
        }
    }
}

/// The configuration that a JSON value stands for.
#[tactic(auto, unfolding(crate::specs::Config::config_at))]
fn read_top(alloc: Global, top: &Value) -> Result<Config, ConfigFault>
    ensures { Gives result (config_at (view top.now)) }
{
    let tables = walk(alloc, top)?;
    let keys = keys_of(top.get("version"));
    make_config(alloc, keys, tables)
}

/// The configuration of tables that the walk has come to, where nothing is at fault in them, with these keys.
#[tactic(auto, using(crate::proofs::Made::kinds_agree, crate::proofs::Made::kinds_differ, crate::proofs::Made::ends_there), unfolding(crate::specs::Config::config_with, crate::specs::Check::checked))]
fn make_config(alloc: Global, keys: Keys, tables: Tables) -> Result<Config, ConfigFault>
    requires walked { AreWalked tables }
    requires few { length tables.vertices + length tables.edges ≤ 32 }
    ensures { Gives result (config_with keys tables) }
{
    let Tables {
        vertices,
        edges,
        files,
    } = tables;
    check_names(alloc, vertices.as_slice(), edges.as_slice())?;
    check_ends(alloc, vertices.len(), edges.as_slice())?;
    match Schema::new(alloc, keys, vertices, edges) {
        Ok(schema) => Ok(Config { schema, files }),
        Err(SchemaFault::At { number, path }) => Err(ConfigFault::At { number, path }),
        Err(SchemaFault::NoMemory) => Err(ConfigFault::NoMemory),
    }
}
