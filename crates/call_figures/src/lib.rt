// The figures of the calls' answers: number, place and the others, as document 01 lists them, in plain structs for C.
// A refusal's and a stop's other figures are 0.
#![tactic(auto)]

pub mod loading;

ghost use Rattle.std.specs.Prelude.{◌≡◌};
ghost use Rattle.call_figures.specs.Answers.{turned_away, gone_through, of_answer, of_comparison};

use call_arguments::Refusal;
use call_conclude::{Due, Failure, Figures};
pub use loading::{FabrwentLoad, load_figures};

// Number, place, steps used, output writes listed; 1 and the next moment due, or 0 and 0 for none.
#[repr(C)]
#[derive(Clone, Copy)]
pub struct FabrwentCall {
    pub number: u32,
    pub place: u32,
    pub steps: u32,
    pub listed: u32,
    pub due_known: u32,
    pub due: u64,
}

// Number, place, and 1 if the machines are alike.
#[repr(C)]
#[derive(Clone, Copy)]
pub struct FabrwentAlike {
    pub number: u32,
    pub place: u32,
    pub alike: u32,
}

// The figures of a refusal or a stop.
fn turned_away(number: u32) -> FabrwentCall
    ensures { result ≡ turned_away number }
{
    FabrwentCall {
        number: number,
        place: 0,
        steps: 0,
        listed: 0,
        due_known: 0,
        due: 0,
    }
}

fn gone_through(figures: Figures) -> FabrwentCall
    ensures { result ≡ gone_through figures.steps figures.listed figures.due }
{
    let due = figures.due;
    let steps = figures.steps;
    let listed = figures.listed;
    match due {
        Due::Never => FabrwentCall {
            number: 0,
            place: 0,
            steps: steps,
            listed: listed,
            due_known: 0,
            due: 0,
        },
        Due::At(moment) => FabrwentCall {
            number: 0,
            place: 0,
            steps: steps,
            listed: listed,
            due_known: 1,
            due: moment,
        },
    }
}

// The figures of a start's or an instant call's answer.
pub fn figures_of(answer: Result<Figures, Failure>) -> FabrwentCall
    ensures { result ≡ of_answer answer }
{
    match answer {
        Ok(figures) => gone_through(figures),
        Err(failure) => turned_away(failure.number()),
    }
}

// The figures of a comparison.
pub fn alike_figures(answer: Result<bool, Refusal>) -> FabrwentAlike
    ensures { result ≡ of_comparison answer }
{
    match answer {
        Ok(alike) => FabrwentAlike {
            number: 0,
            place: 0,
            alike: u32::from(alike),
        },
        Err(refusal) => FabrwentAlike {
            number: refusal.number(),
            place: 0,
            alike: 0,
        },
    }
}
