//! The laws of the lines that are read.
ghost use Rattle.serve_lines.specs.Read.{ReadLinesAreInRange, ToldLinesAreInRange};

/// Whatever bytes a line has, a floor in it is a generation, a packet in it has 256 bytes, and the LID that the
/// packet came from fits in 16 bits.
#[tactic(auto, using(crate::proofs::Ranges::read_lines_are_in_range))]
pub fn read_lines_are_in_range()
    ensures { ReadLinesAreInRange }
{}

/// Whatever bytes a line has that a manager is told that decides by itself, the time in it fits in 64 bits, a packet in
/// it has 256 bytes, and the LID that the packet came from fits in 16 bits.
#[tactic(auto, using(crate::proofs::Ranges::told_lines_are_in_range))]
pub fn told_lines_are_in_range()
    ensures { ToldLinesAreInRange }
{}
