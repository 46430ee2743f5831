// The tree of question 7: the records are scanned once, in walking order, against the child fields of the table.
#![tactic(auto)]

pub mod scan;
