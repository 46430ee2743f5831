// A reason in words, put into lent bytes: the field and the piece that it is about, and its sentence; and the rule of each question.
#![tactic(auto)]

pub mod numbers;
pub mod reason;
pub mod sentences;
pub mod spot;

pub use numbers::reason_of;
pub use reason::{Said, put_line, put_reason, put_with_figure, sentence, strange_sentence};
pub use sentences::put_sentence;
pub use spot::{put_fault, put_spot};
