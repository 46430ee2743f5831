// The answer of a start or an instant call.
ghost use Rattle.std.specs.Prelude.{◌≡◌};
ghost use Rattle.call_conclude.specs.Failures.{refuses, number_of};

use call_arguments::Refusal;

// "the next moment due or none": a figure of the result, which the caller reads as a number.
#[derive(Clone, Copy)]
pub enum Due {
    Never,
    At(u64),
}

// Of a call that goes through: steps used, output writes listed, the next moment due.
#[derive(Clone, Copy)]
pub struct Figures {
    pub steps: u32,
    pub listed: u32,
    pub due: Due,
}

// Why a call did not go through.
#[derive(Clone, Copy, Debug, PartialEq, Eq)]
pub enum Failure {
    // a question refused it before its run
    Refused(Refusal),
    // the run stopped under a number, and the machine with it
    Stopped(u32),
}

impl Failure {
    // Document 01's number.
    pub fn number(self) -> u32
        ensures { result ≡ number_of self }
    {
        match self {
            Failure::Refused(refusal) => refusal.number(),
            Failure::Stopped(number) => number,
        }
    }
}

impl From<Refusal> for Failure {
    ghost from_gives = { refuses };

    fn from(refusal: Refusal) -> Failure {
        Failure::Refused(refusal)
    }
}
