// Questions 1 to 5, each put to the whole listing before the next.
ghost use Rattle.std.specs.Prelude.{◌≡◌};
ghost use Rattle.listing.specs.Load.{loading};
ghost use Rattle.text_questions.specs.Outcome.{outcome_of};

use crate::opening::form_question;
use text_endings::ending_place;
use text_limits::limit_place;
use text_survey::there_place;

// What loading gives: the table, or a refusal with the number of the question and the place.
#[derive(Clone, Copy)]
pub enum Loaded {
    Done,
    Refused(u32, usize),
}

// The first question that refuses the listing; `long_enough` answers question 1.
#[tactic(auto, using(crate::proofs::Asking::not_placed, crate::proofs::Asking::refused_1, crate::proofs::Asking::refused_2, crate::proofs::Asking::refused_3, crate::proofs::Asking::refused_4, crate::proofs::Asking::refused_5, crate::proofs::Asking::all_passed))]
pub fn put_questions(long_enough: bool, s: &[u8]) -> Loaded
    ensures { outcome_of s.now result ≡ loading long_enough s.now }
{
    if !long_enough {
        return Loaded::Refused(1, 0);
    }
    if let Some(place) = form_question(s) {
        return Loaded::Refused(2, place);
    }
    if let Some(place) = limit_place(s) {
        return Loaded::Refused(3, place);
    }
    if let Some(place) = there_place(s) {
        return Loaded::Refused(4, place);
    }
    if let Some(place) = ending_place(s) {
        return Loaded::Refused(5, place);
    }
    Loaded::Done
}
