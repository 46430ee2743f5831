// What explain says of a listing: whether it loads, and if not, at which line, why, and by which rule.
#![tactic(auto)]

pub mod said;
pub mod verdict;
