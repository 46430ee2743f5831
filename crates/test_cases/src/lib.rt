// What the test programs share: the frame of a file of cases, and words of lent memory to fill, copy and compare.
#![tactic(auto)]

pub mod entries;
pub mod frame;
pub mod memories;
pub mod report;
