// The page of the valve book, written in one pass over a session's writes. Document 02: "Rows go by opening moment, then by output."
// Lists that stand in this order throughout enter as they are. In others a write that leaves its valve as it is, is passed over; writes
// whose openings have their rows on other pages enter as they are listed, since their order cannot show; else a moment's writes enter by
// rising output, so that an opening's row comes behind all rows before it. `first` is the number of the page's first opening.
#![tactic(auto)]

pub mod order;
pub mod valves;

pub use order::enter_writes;
pub use valves::Valves;
