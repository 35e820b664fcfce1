//! Laws of the definitions, in words of their own.
ghost use Rattle.table_loader.specs.Inline.{LinesStandForAGraph};
ghost use Rattle.table_loader.specs.Law.{FaultsAreFirst, LineFaultsAreFirst, LineFaultsAreRowFaults, LinesHaveRowCauses, RecordsHaveRowCauses, TablesStandForAGraph};

/// The files of a schema's tables stand for a graph exactly where each record reads as a row of its table, in order, and these
/// rows are a graph: keys differ as the schema says, ends exist, and the limits hold. It is the graph of these rows.
pub fn tables_stand_for_a_graph()
    ensures { TablesStandForAGraph }
{}

/// A fault of table files is that of the first record with one: the files before it are taken over, and so are the records
/// before it in its file; after those it has this fault.
pub fn table_faults_are_first()
    ensures { FaultsAreFirst }
{}

/// The lines of an inline source are accepted exactly where their rows are a graph: keys differ, ends exist, and the limits
/// hold. The graph is then these rows.
pub fn inline_lines_stand_for_a_graph()
    ensures { LinesStandForAGraph }
{}

/// A fault of the lines of an inline source is that of the first line with one.
pub fn inline_faults_are_first()
    ensures { LineFaultsAreFirst }
{}

/// A record that was read, and a line, does not fit only where its key is taken, an end is missing or a limit is passed: the
/// number 13 stands for a limit alone. A fault of lines is 11, 12 or 13.
pub fn rows_have_three_causes()
    ensures records { RecordsHaveRowCauses }
    ensures lines { LinesHaveRowCauses }
    ensures line_faults { LineFaultsAreRowFaults }
{}
