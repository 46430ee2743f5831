// Reads the lines of a listing as records, and puts question 2, "Has every line its form, and does the last end in a line feed?"
// Of each record it tells what questions 3 to 5 ask about. It writes nothing.
#![tactic(auto)]

pub mod form;
pub mod line;
pub mod record;

pub use form::form_place;
pub use line::read_line;
