//! What holds of the definitions alone. Each law is what its function ensures.

ghost use Rattle.value_formats.specs.Laws.{LinesAreAsImported, LinesHaveOneReading, RowsAreReadBack, RowsAreReadBackAnywhere};

/// What `import_line` reads of a line is what the line is by its elements.
pub fn lines_are_as_imported()
    ensures { LinesAreAsImported }
{}

/// A line is read in one way only.
pub fn one_import()
    ensures { LinesHaveOneReading }
{}

/// A row that EXPORT writes is read back by IMPORT to targets of its kinds, at the beginning of an
/// input and after other bytes.
pub fn rows_are_read_back()
    ensures first { RowsAreReadBack }
    ensures anywhere { RowsAreReadBackAnywhere }
{}
