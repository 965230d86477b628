/// How the plan of a manager's facts compares to what it wrote last.
#[derive(Clone, Copy, Debug, PartialEq, Eq)]
pub enum Comparison {
    /// Some end port finds no LID.
    NoPlan,
    /// It is what was written last.
    Same,
    /// It is another one, or nothing was written.
    Differs,
}
