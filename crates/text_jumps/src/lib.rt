// What is told of a record, and the records that lead elsewhere: `U`, `G` and `F`.
#![tactic(auto)]

pub mod fork;
pub mod jump;
pub mod record;
pub mod scope;

pub use fork::read_fork;
pub use jump::{read_branch, read_jump};
pub use record::Record;
pub use scope::{NO_SCOPE, Scope};
