// The machine's blocks while an instant runs: one word of a block read and put, words cleared. Every contract says what the words
// stand for as rows and environment. `m` is the machine's memory, `s` a slot.
#![tactic(auto)]

pub mod memory;

pub use memory::{clear_words, put_word, word_at};
