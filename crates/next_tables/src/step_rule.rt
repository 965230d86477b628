use std::alloc::Global;

/// How a step chooses the next entry of a switch.
#[derive(Drop)]
pub enum StepRule {
    /// By settled entries: a switch takes the plan's entry once each switch on the plan's route from there has the
    /// plan's entry.
    SettledFirst,
    /// By an order of the usable switches: a switch takes the plan's entry if no packet can then go down and then up,
    /// and if no packet that arrived is lost. The list has the position of each usable switch in this order. The
    /// switches are in ascending order of GUID there.
    ByOrder(Vec<usize>),
}
