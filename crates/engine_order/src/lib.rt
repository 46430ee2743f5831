// The live slots in walking order, and the next moment due, at the end of an instant. `m` is the machine's memory. The order list is
// built at words 64 and on.
#![tactic(auto)]

pub mod order;

pub use order::order_slots;
