//! The law of printed schedules.
ghost use Rattle.schedule_file.specs.Printed.{PrintedSchedulesAreRead};

/// If a schedule was read from a text for some nodes, its printed text is read back as this schedule for the same
/// nodes. The printed text has a line for each command.
#[tactic(auto, using(crate::proofs::Printed::printed_is_read))]
pub fn printed_schedules_are_read()
    ensures law { PrintedSchedulesAreRead }
{}
