// What is told of a line's record.

// What questions 3 to 5 ask of a record.
#[derive(Clone, Copy)]
pub enum Record {
    // inputs and outputs
    Ports(u64, u64),
    // arguments, locals, and whether all arguments are by reference
    Opens(u64, u64, bool),
    // the pieces after the letter, whether all that it points to is there, and whether it may be a routine's last
    Instruction(u64, bool, bool),
}
