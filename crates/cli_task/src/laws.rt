//! The laws of the words of a command line.
ghost use Rattle.cli_task.specs.Laws.{PacesAreInRange, WellFormedWordsAsk};

/// An accepted command line asks for a task, and names each input of the task.
pub fn well_formed_words_ask()
    ensures law { WellFormedWordsAsk }
{}

/// If an accepted command line asks for a manager that decides by itself, the numbers by which it is paced are in their
/// ranges.
pub fn paces_are_in_range()
    ensures law { PacesAreInRange }
{}
