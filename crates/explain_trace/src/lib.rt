// Why a session does not play a trace to its end, by the trace's text and the number of inputs: the first line that is out of form (code 2), whose time does
// not rise (9), or whose input is not there or not above the one before it (11).
#![tactic(auto)]

pub mod form;
pub mod reasons;
pub mod scan;

pub use form::form_fault;
pub use reasons::Reason;
pub use scan::{TraceFault, trace_fault};
