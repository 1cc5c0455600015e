//! The lines of a workbook and how a sheet spells them in bytes: definitions and theorems, with no computation.
#![tactic(auto)]

ghost use Rattle.layout.specs.Laws.{Canonical, LineSizes, ReadsBack};
ghost use Rattle.layout.specs.Worked.{SheetLimits, WorkedSheet};

/// A sheet of up to 64 lines that fit is read back as it was written.
pub fn sheets_read_back()
    ensures { ReadsBack }
{}

/// Bytes that are read as a sheet are the sheet of the lines read, and those fit.
pub fn sheets_are_canonical()
    ensures { Canonical }
{}

/// A line has a byte for its head, one more if it has steps, 8 for each monomial and 9 for each step.
pub fn line_sizes()
    ensures { LineSizes }
{}

/// The sheet of three lines over six codes, byte for byte.
pub fn worked_sheet()
    ensures { WorkedSheet }
{}

/// Counts of 1 to 64 and up to 64 lines are read, other counts, bytes cut short and bytes left over are not.
pub fn sheet_limits()
    ensures { SheetLimits }
{}
