// Why a listing's line is out of form: its first field that is wrong, or its letter, its number of fields or where it stands.
#![tactic(auto)]

pub mod letter;
pub mod line;

pub use line::line_fault;
