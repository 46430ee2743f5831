// Why a field of a listing's line is out of form: its first piece that is wrong, and the reason.
#![tactic(auto)]

pub mod field;
pub mod piece;
pub mod reasons;

pub use field::{Found, Role, fault_in, field_fault};
pub use piece::{strange_field, strange_in, why_bad};
pub use reasons::{Fault, Reason, Spot, Strange, about};
