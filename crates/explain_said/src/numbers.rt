// The sentences of the reasons by number. They are those of specs/Numbers, as the contracts say.
ghost use Rattle.std.specs.Prelude.{◌≡◌, ◌+◌, ◌-◌, ◌≤◌, length, slice_get};
ghost use Rattle.session_print.specs.Puts.{Puts};
ghost use Rattle.explain_said.specs.Numbers.{number_text};

use crate::reason::{Said, sentence};
use explain_fields::{Reason, Strange};
use test_cases::report::put_text;

// The reasons from number 1 on; the figures are not said.
const REASONS: [Reason; 33] = [
    Reason::Strange(Strange::Nothing),
    Reason::Strange(Strange::CarriageReturn),
    Reason::Strange(Strange::NotAscii),
    Reason::Strange(Strange::SpacesForTabs),
    Reason::NoSuchLetter,
    Reason::FieldCount,
    Reason::ChildCount,
    Reason::BadFigure,
    Reason::SecondPiece,
    Reason::BadKinds,
    Reason::BadPiece,
    Reason::LacksOperand,
    Reason::NinthValue,
    Reason::LeavesSeveral,
    Reason::FifthName,
    Reason::PortsLater,
    Reason::FirstLine,
    Reason::SecondLine,
    Reason::NoLineFeed,
    Reason::EmptyListing,
    Reason::ManyBytes,
    Reason::ManyRoutines,
    Reason::ManyNames,
    Reason::ManyInstructions,
    Reason::ManyPieces,
    Reason::NoInstruction,
    Reason::NoEnd,
    Reason::NoName(0),
    Reason::NoJump(0),
    Reason::NoRoutine(0),
    Reason::ArgumentCount,
    Reason::NoMain,
    Reason::MainAsStated,
];

// The reason of a list with a number, from 1 on.
pub fn reason_of<R: Copy>(reasons: &[R], number: u32) -> Option<R>
    ensures { result ≡ slice_get reasons.now (number - 1) }
{
    reasons.get((number as usize).saturating_sub(1)).copied()
}

// The sentence of a reason by its number, 0 being a rule that has no reasons of its own; none for other numbers.
fn sentence_of(number: u32) -> &'static [u8]
    ensures is { result.now ≡ number_text number }
    ensures short { length result.now ≤ 200 }
{
    if number == 0 {
        return b"the line does not meet the rule below";
    }
    match reason_of(&REASONS, number) {
        Some(why) => sentence(why),
        None => b"",
    }
}

impl Said for u32 {
    ghost said = { number_text };

    fn put(self, out: &mut [u8], at: usize) -> usize {
        put_text(out, at, sentence_of(self))
    }
}
