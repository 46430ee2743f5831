// Watering windows. Document 02: "The layer lists the inputs of any span of moments, start included and end left out, by moment and then
// input: 1 at the opening minute, 0 at the closing minute." Any text, any span and any lists are taken.
#![tactic(auto)]

pub mod answer;
pub mod call;
pub mod span;

pub use answer::Listed;
pub use call::list_windows;
