//! The records of a file, one at a time.
ghost use Rattle.std.specs.Prelude.{◌≡◌, IfOk};
ghost use Rattle.csv.specs.Records.{fields_of};
ghost use Rattle.csv_records.specs.Reading.{IsReading, TakesRecord, records_left, records_of};

use column_types::NoMemory;
use csv::{ByteRecord, Reader, ReaderBuilder};
use std::alloc::Global;

/// A reader of the records of a file without a header row.
pub fn open_records(alloc: Global, bytes: &[u8]) -> Reader<&[u8]>
    ensures reading { IsReading result }
    ensures all { records_left result ≡ records_of bytes.entry.now }
{
    ReaderBuilder::new()
        .has_headers(false)
        .flexible(true)
        .from_reader(alloc, bytes)
}

/// Takes the next record, and answers whether there was one. A slice is read without a fault, so an error of the reader is
/// out of memory. Nothing is said of the reader after it.
pub fn take_record(reader: &mut Reader<&[u8]>, fields: &mut ByteRecord) -> Result<bool, NoMemory>
    requires { IsReading reader.old }
    ensures { IfOk result (λ found. TakesRecord reader.old found (fields_of fields.new) reader.new) }
{
    let Ok(found) = reader.read_byte_record(fields) else {
        return Err(NoMemory);
    };
    Ok(found)
}
