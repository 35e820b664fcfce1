//! Laws of the definitions, in words of their own.
ghost use Rattle.source_open.specs.Laws.{OpenEach, FaultAtFirst, InlineNeedsNoFile, ToldMissing, RecordsAfterFiles};

/// Sources open exactly where each does, each to what it is by itself; else the fault is that of the first that does not open.
pub fn sources_open_one_by_one()
    ensures each { OpenEach }
    ensures first { FaultAtFirst }
{}

/// An inline source needs no file. A file that is told as missing is missing, and a record is told at fault only where all files
/// of its configuration are there.
pub fn files_are_there_before_records_are_read()
    ensures inline { InlineNeedsNoFile }
    ensures missing { ToldMissing }
    ensures records { RecordsAfterFiles }
{}
