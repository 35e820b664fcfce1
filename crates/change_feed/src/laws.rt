//! Laws of the definitions, in words of their own.
ghost use Rattle.change_feed.specs.Law.{FaultsAreFirst, FilesWriteLists, RowsWriteChanges};

/// A row is read as a change exactly where its fields are texts that write it: the word, the name of the table, the key, and
/// what else the change has.
pub fn rows_write_changes()
    ensures { RowsWriteChanges }
{}

/// A file is read as a list of changes exactly where its rows write them, one by one in order.
pub fn files_write_lists()
    ensures { FilesWriteLists }
{}

/// A fault of a file is that of its first row with one: each row before it is read as a change.
pub fn row_faults_are_first()
    ensures { FaultsAreFirst }
{}
