// What explain says of a schedule, put into lent bytes: that it fits, or the first line where question 19 says no, the reason there, and the rule.
#![tactic(auto)]

pub mod reason;
pub mod told;

pub use reason::put_schedule_usage;
pub use told::put_schedule;
