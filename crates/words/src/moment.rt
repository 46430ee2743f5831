// Moments and delays. Document 01: "A moment is counted in milliseconds from the start, a delay from the present instant;
// a moment has 64 bits." Only later_moment makes a moment from a moment and a delay.
ghost use Rattle.std.specs.Prelude.{◌≡◌};
ghost use Rattle.words.specs.Moments.{later_moment, later_of};

// Milliseconds from the start.
#[derive(Clone, Copy, Debug, PartialEq, Eq)]
pub struct Moment(pub u64);

// Milliseconds from the present instant.
#[derive(Clone, Copy, Debug, PartialEq, Eq)]
pub struct Delay(pub u32);

// Where a delay leads: to a moment, or to 2 to the 64 and beyond, where there is none.
#[derive(Clone, Copy, Debug, PartialEq, Eq)]
pub enum Later {
    At(Moment),
    TooLate,
}

// The moment that lies a delay after the present one.
pub fn later_moment(present: Moment, delay: Delay) -> Later
    ensures { later_of result ≡ later_moment present.0 delay.0 }
{
    let moment = present.0;
    let milliseconds = u64::from(delay.0);
    if milliseconds <= u64::MAX - moment {
        Later::At(Moment(moment + milliseconds))
    } else {
        Later::TooLate
    }
}
