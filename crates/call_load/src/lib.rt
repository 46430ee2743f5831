// Loads a listing: the questions are put to the whole text, and only then is its table written.
// Document 01: "A loader turns a listing (text) into a table." Any bytes and any table may come; a refusal leaves the table untouched.
#![tactic(auto)]

pub mod loading;
pub mod writing;

pub use loading::load;
