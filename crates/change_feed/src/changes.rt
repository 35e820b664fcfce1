//! Changes from files.
ghost use Rattle.std.specs.Prelude.{◌≡◌, Ok, IfOk, IfErr, OnOk};
ghost use Rattle.csv.specs.Records.{fields_of};
ghost use Rattle.change_feed.specs.Fault.{FeedCause, IsCause};
ghost use Rattle.change_feed.specs.Row.{change_of};
ghost use Rattle.change_feed.specs.Changes.{changes_of, with_row};

use crate::fault::{FeedFault, RowFault, fault_at};
use crate::row::read_row;
use column_types::List;
use csv::ByteRecord;
use csv_records::{open_records, take_record};
use graph_model::{Change, Schema};
use std::alloc::Global;

/// Appends the change of a row.
fn add_row(
    alloc: Global,
    changes: &mut List<Change>,
    schema: &Schema,
    fields: &ByteRecord,
) -> Result<(), RowFault>
    ensures ok { OnOk result (with_row changes.old (change_of schema.now (fields_of fields.now)) ≡ Ok changes.new) }
    ensures cause { IfErr result (IsCause (change_of schema.now (fields_of fields.now))) }
{
    let change = read_row(alloc, schema, fields)?;
    changes.push(change)?;
    Ok(())
}

/// The changes of the rows of a file, in order, for graphs of a schema.
///
/// `BadRow` names the first row with a fault, and its first cause. `NoMemory` comes where memory ran out.
pub fn read_changes(alloc: Global, schema: &Schema, bytes: &[u8]) -> Result<List<Change>, FeedFault>
    ensures ok { IfOk result (λ changes. changes_of schema.now bytes.now ≡ Ok changes) }
    ensures cause { IfErr result (FeedCause (changes_of schema.now bytes.now)) }
{
    let mut reader = open_records(alloc, bytes);
    let mut fields = ByteRecord::new(alloc);
    let mut changes = List::new(alloc);
    let mut row: u64 = 0;
    'records: loop {
        if !take_record(&mut reader, &mut fields)? {
            return Ok(changes);
        }
        row += 1;
        if let Err(fault) = add_row(alloc, &mut changes, schema, &fields) {
            return Err(fault_at(row, fault));
        }
    }
}
