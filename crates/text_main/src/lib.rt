// The part of question 4 that asks about main: "Is main as stated (place: its `R`, or 1 without one)?"
#![tactic(auto)]

pub mod main_routine;

pub use main_routine::{Here, is_stated};
