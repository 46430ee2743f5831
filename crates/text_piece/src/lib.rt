// What a piece's bytes give: a figure, a piece of an expression. Any bytes may come; it writes nothing.
#![tactic(auto)]

pub mod figure;
pub mod piece;

pub use figure::{Figure, figure_of, is_digit, wide};
pub use piece::{Piece, effect_of, piece_of};
