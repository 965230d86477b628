//! The laws of plans' texts.
ghost use Rattle.tables_file.specs.PrintedTextIsRead.{PlansAreRead, PrintedPlansAreRead};
ghost use Rattle.tables_file.specs.PrintedTextIsRead.{PrintedTablesAreRead, TextsAreInRange};

/// If the numbers of a plan are in their ranges, the text of the plan has no fault, and is read as the plan's LIDs
/// and tables. Each LID is read with its end port, and each switch with the greatest LID as its top.
pub fn printed_plans_are_read()
    ensures law { PrintedPlansAreRead }
{}

/// If facts are in range and every end port finds a LID under an LMC, the text of their plan by any rule under this
/// LMC has no fault, and is read as the plan. This text is what `lft_blocks::write_plan` writes.
pub fn plans_are_read()
    ensures law { PlansAreRead }
{}

/// If the numbers of a plan are in their ranges, and each switch is given a top of its own, at most 49,151, the text
/// of the plan's LIDs and tables under these tops has no fault, and is read as these tables.
pub fn printed_tables_are_read()
    ensures law { PrintedTablesAreRead }
{}

/// Whatever a text is, the tops that it gives are at most 49,151, and the blocks that it gives have 64 entries, each
/// a byte.
pub fn texts_are_in_range()
    ensures law { TextsAreInRange }
{}
