// What follows from the definitions alone. The functions do nothing: their contracts are the theorems.
ghost use Rattle.sheet.specs.Faithful.{OpensSheets, OneTable, Reopening, HalfRefused};

// A sheet is opened exactly when it is what the writer makes of an accepted table.
pub fn only_sheets_open()
    ensures { OpensSheets }
{}

// Equal sheets come from equal tables.
pub fn a_sheet_has_one_table()
    ensures { OneTable }
{}

// Start, finish and open give the program back.
pub fn a_written_sheet_opens()
    ensures { Reopening }
{}

// Opening refuses a half sheet.
pub fn a_half_sheet_never_opens()
    ensures { HalfRefused }
{}
