// The stored cases of the watering windows: what each asks and the answer stored with it; the lists that are lent, and how they must be left.
#![tactic(auto)]

pub mod cases;
pub mod lists;
