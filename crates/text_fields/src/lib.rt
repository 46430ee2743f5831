// Reads the fields of a listing's line by places: numbers, kinds, expressions and rows of figures. Document 01: "Plain ASCII, one record a line,
// fields parted by one tab .., pieces inside a field by one space, each line closed by a line feed."
// Any bytes may come; a text out of form is an answer. It writes nothing.
#![tactic(auto)]

pub mod field;
pub mod gathering;
pub mod kinds;

pub use field::{
    Expression, Number, Read, expression_field, figures_field, number_field, pieces_field,
};
pub use gathering::{Gathering, gathered, is_there};
pub use kinds::{Kinds, kinds_field};
