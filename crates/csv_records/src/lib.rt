//! The records of a file, one at a time, and their fields as texts.
//!
//! [`open_records`] makes a reader of `csv` over the bytes of a file without a header row, whose records may differ in their numbers of
//! fields, and [`take_record`] takes the next record. `records_left` of specs/Reading says which records a reader has still to
//! give: at first all of the file, `records_of`. [`are_texts`] tells whether the fields of a record are UTF-8, and [`text_at`] lends
//! the text of one of them.
#![tactic(auto)]

mod fields;
mod records;

pub use fields::{are_texts, text_at};
pub use records::{open_records, take_record};
