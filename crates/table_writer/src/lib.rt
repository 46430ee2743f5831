// Writes the table of a listing that has passed all questions: header, routine entries, instruction entries, cells.
// The layout is that of docs/LAYOUT.md; the lines are read again, each part written as it is read.
#![tactic(auto)]

pub mod line;

pub use line::write_line;
