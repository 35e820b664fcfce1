//! The fields of a record as texts.
ghost use Rattle.std.specs.Prelude.{◌≡◌, IsTrue, option_map};
ghost use Rattle.std.specs.Str.{is_utf8};
ghost use Rattle.csv.specs.Records.{field_at, fields_of};
ghost use Rattle.csv_records.specs.Texts.{are_texts as texts};

use csv::ByteRecord;
use std::str::from_utf8;

fn is_text(field: &[u8]) -> bool
    ensures { result ≡ is_utf8 field.now }
{
    from_utf8(field).is_ok()
}

/// Whether each field of a record is UTF-8.
pub fn are_texts(fields: &ByteRecord) -> bool
    ensures { result ≡ texts (fields_of fields.now) }
{
    for field in fields.iter() {
        if !is_text(field) {
            return false;
        }
    }
    true
}

/// The text of a field, none past the last. The fields are UTF-8.
pub fn text_at(fields: &ByteRecord, place: usize) -> Option<&str>
    requires { IsTrue (texts (fields_of fields.now)) }
    ensures { option_map (λ s. s.now) result ≡ field_at (fields_of fields.now) place }
{
    let field = fields.get(place)?;
    from_utf8(field).ok()
}
