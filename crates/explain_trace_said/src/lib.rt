// What is said of a trace, put into lent bytes: the reasons at a line, the rule of each code, and the lines of a listing at which a stop's rule is asked.
#![tactic(auto)]

pub mod asked;
pub mod place;
pub mod reason;

pub use asked::put_asked;
pub use place::put_place;
pub use reason::{Numbered, Said, put_code, put_fault, put_why};
