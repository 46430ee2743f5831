// Question 4, put to the whole listing in passes over its lines. Questions 2 and 3 have let the listing through.
// It writes nothing.
#![tactic(auto)]

pub mod routines;
pub mod there;

pub use routines::{Survey, code_length, survey_routines};
pub use there::there_place;
