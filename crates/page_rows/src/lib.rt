// The rows of the valve book, put into lent bytes. Document 02: "rows of 44 characters and a line feed: output number in 2
// columns, a space, moment opened in 20, a space, milliseconds open in 20, all right-aligned". A store past the end is none.
#![tactic(auto)]

pub mod bytes;
pub mod rows;

pub use rows::{put_blank_rows, put_heading, put_open_for, put_row};
