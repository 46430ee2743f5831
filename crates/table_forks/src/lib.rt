// Writes a fork's entry and the cells of its child fields. The layout is that of docs/LAYOUT.md.
#![tactic(auto)]

pub mod fork;

pub use fork::write_fork;
