//! The lines that the program writes for words that are no form and for stops, and the statuses of stops.
ghost use Rattle.std.specs.Prelude.{◌≡◌, codes, ◌++◌, IfOk, OnOk};
ghost use Rattle.std.specs.Fmt.{decimal};
ghost use Rattle.pgx_shell.specs.Ending.{why_text, error_line, stop_status, config_fault_text, path_text};
ghost use Rattle.pgx_shell.specs.FaultNames.{config_fault_name as name_of_config_fault, table_fault_name as name_of_table_fault};
ghost use Rattle.pgx_shell.specs.declared.stop.Stop.{Stop};

use crate::Stop;
use column_types::{NoMemory, Text};
use graph_config::ConfigFault;
use journal_text::push_count;
use script_read::LineWhy;
use std::alloc::Global;

pub(crate) const NO_MEMORY_LINE: &str = "error no memory\n";

/// The status of a stop.
pub(crate) fn status_of(stop: &Stop) -> u8
    ensures { result ≡ stop_status stop.now }
{
    match stop {
        Stop::TooLong | Stop::BadLine { .. } => 3,
        Stop::NoFile { .. } | Stop::BadConfig { .. } | Stop::BadTable { .. } => 4,
        Stop::NoMemory => 5,
        Stop::ReadFault => 6,
        Stop::WriteFault => 7,
    }
}

/// The line for words of which the one at this place is at fault.
pub(crate) fn usage_text(alloc: Global, place: u64) -> Result<Text, NoMemory>
    ensures { IfOk result (λ text. text ≡ codes "usage " ++ decimal place ++ codes "\n") }
{
    let mut text = Text::from_str(alloc, "usage ")?;
    push_count(&mut text, place)?;
    text.push("\n")?;
    Ok(text)
}

/// The line for a stop.
pub(crate) fn error_text(alloc: Global, stop: &Stop) -> Result<Text, NoMemory>
    ensures { IfOk result (λ text. text ≡ error_line stop.now) }
{
    match stop {
        Stop::TooLong => Text::from_str(alloc, "error script longer than 16777216 bytes\n"),
        Stop::BadLine { line, why } => line_text(alloc, *line, *why),
        Stop::NoFile { name } => no_file_text(alloc, name.as_str()),
        Stop::BadConfig { file, fault } => config_text(alloc, file.as_str(), fault),
        Stop::BadTable { file, row, number } => table_text(alloc, file.as_str(), *row, *number),
        Stop::ReadFault => Text::from_str(alloc, "error read fault\n"),
        Stop::WriteFault => Ok(Text::new(alloc)),
        Stop::NoMemory => Text::from_str(alloc, NO_MEMORY_LINE),
    }
}

/// The line for a line of the script that is at fault.
fn line_text(alloc: Global, line: u64, why: LineWhy) -> Result<Text, NoMemory>
    ensures { IfOk result (λ text. text ≡ error_line (Stop.BadLine line why)) }
{
    let mut text = Text::from_str(alloc, "error line ")?;
    push_count(&mut text, line)?;
    text.push(" fault 47 ")?;
    text.push(why_word(why))?;
    text.push("\n")?;
    Ok(text)
}

/// The line for a file that is missing.
fn no_file_text(alloc: Global, name: &str) -> Result<Text, NoMemory>
    ensures { IfOk result (λ text. text ≡ error_line (Stop.NoFile name.now)) }
{
    let mut text = Text::from_str(alloc, "error no file ")?;
    text.push(name)?;
    text.push("\n")?;
    Ok(text)
}

/// The line for a configuration that is at fault.
fn config_text(alloc: Global, file: &str, fault: &ConfigFault) -> Result<Text, NoMemory>
    ensures { IfOk result (λ text. text ≡ error_line (Stop.BadConfig file.now fault.now)) }
{
    let mut text = Text::from_str(alloc, "error config ")?;
    text.push(file)?;
    text.push(" ")?;
    push_config_fault(&mut text, fault)?;
    text.push("\n")?;
    Ok(text)
}

fn push_config_fault(text: &mut Text, fault: &ConfigFault) -> Result<(), NoMemory>
    ensures { OnOk result (text.new ≡ text.old ++ config_fault_text fault.now) }
{
    match fault {
        ConfigFault::At { number, path } => {
            text.push("fault ")?;
            push_count(text, u64::from(*number))?;
            text.push(" ")?;
            text.push(config_fault_name(*number))?;
            push_path(text, *number, path.as_str())?;
            Ok(())
        }
        ConfigFault::NoMemory => text.push("no memory"),
    }
}

fn push_path(text: &mut Text, number: u32, path: &str) -> Result<(), NoMemory>
    ensures { OnOk result (text.new ≡ text.old ++ path_text number path.now) }
{
    if number == 3 {
        return Ok(());
    }
    text.push(" ")?;
    text.push(path)?;
    Ok(())
}

/// The line for a record that is at fault.
fn table_text(alloc: Global, file: &str, row: u64, number: u32) -> Result<Text, NoMemory>
    ensures { IfOk result (λ text. text ≡ error_line (Stop.BadTable file.now row number)) }
{
    let mut text = Text::from_str(alloc, "error table ")?;
    text.push(file)?;
    text.push(" record ")?;
    push_count(&mut text, row)?;
    text.push(" fault ")?;
    push_count(&mut text, u64::from(number))?;
    text.push(" ")?;
    text.push(table_fault_name(number))?;
    text.push("\n")?;
    Ok(text)
}

fn config_fault_name(number: u32) -> &'static str
    ensures { result.now ≡ name_of_config_fault number }
{
    match number {
        3 => "NotJson",
        4 => "FieldMissing",
        5 => "WrongType",
        6 => "NameTwice",
        7 => "UnknownTable",
        50 => "KindClash",
        52 => "TooManyTables",
        _ => "",
    }
}

fn table_fault_name(number: u32) -> &'static str
    ensures { result.now ≡ name_of_table_fault number }
{
    match number {
        8 => "NotUtf8",
        9 => "FieldCount",
        10 => "BadCell",
        11 => "KeyTwice",
        12 => "MissingEnd",
        13 => "TooManyRows",
        _ => "",
    }
}

fn why_word(why: LineWhy) -> &'static str
    ensures { result.now ≡ why_text why }
{
    match why {
        LineWhy::Utf8 => "utf8",
        LineWhy::Word => "word",
        LineWhy::Later => "later",
        LineWhy::Form => "form",
        LineWhy::Name => "name",
        LineWhy::Number => "number",
        LineWhy::Twice => "twice",
        LineWhy::Many => "many",
        LineWhy::End => "end",
    }
}
