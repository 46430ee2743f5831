// The lines that a session prints, put into lent bytes. Document 01: "It prints `O|time|output|value` for each write, then
// `X|code|present moment`". A store past the end of the lent bytes is none.
#![tactic(auto)]

pub mod figure;
pub mod lines;

pub use lines::{put_end_line, put_write_lines};
