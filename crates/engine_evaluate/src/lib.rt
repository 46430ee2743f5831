// The value of an expression of the running routine. Document 01: "An expression is postfix, of the pieces `#v` .., `n` ..,
// `@n` .., `+ - * <`. It leaves one value and never holds more than 8"; document 02: "Expressions gain `/` and `%`",
// "Evaluating can now fail". It is read from the table's cells.
#![tactic(auto)]

pub mod expression;

pub use engine_values::NO_VALUE;
pub use expression::{evaluate, value_of};
