// The words that a line's fields give the table: the cells of a field, a field of one figure, and words stored in a row.
// The layout is that of docs/LAYOUT.md.
#![tactic(auto)]

pub mod cell;
pub mod put;
pub mod word;
