// The refusals of a call.
ghost use Rattle.std.specs.Prelude.{◌≡◌};
ghost use Rattle.call_arguments.specs.Refusals.{number_of};

// Which question refuses a call, by its number in document 01. The questions 2 to 5 are the loader's.
#[derive(Clone, Copy, Debug, PartialEq, Eq)]
pub enum Refusal {
    // a lent memory is too short
    Short = 1,
    // no table
    NoTable = 6,
    // no machine's state
    NoState = 7,
    // a machine that is stopped
    Halted = 8,
    // a moment that is not after the present one
    NotLater = 9,
    // something is due before the moment
    Overdue = 10,
    // the inputs' numbers
    Inputs = 11,
    // the allowance
    Allowance = 12,
}

impl Refusal {
    // The question's number.
    pub fn number(self) -> u32
        ensures { result ≡ number_of self }
    {
        self as u32
    }
}
