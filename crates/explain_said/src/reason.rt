// The sentences of the reasons. They are those of specs/Reasons, as the contracts say.
ghost use Rattle.std.specs.Prelude.{◌≡◌, ◌+◌, ◌≤◌, length};
ghost use Rattle.session_print.specs.Puts.{Puts};
ghost use Rattle.listing.specs.Bytes.{Bytes, bytes_of};
ghost use Rattle.explain_parts.specs.Parts.{part_of};
ghost use Rattle.explain_said.specs.Reasons.{strange_sentence, sentence, counted, with_figure, reason_text};

use explain_fields::{Reason, Strange};
use explain_parts::part_of;
use session_print::figure::put_figure;
use test_cases::report::put_text;

// A line of a text by the lines before it, put at a place; the place past it.
pub fn put_line(out: &mut [u8], at: usize, text: &[u8], lines: usize) -> usize
    requires { (at ≤ 60000) × (length text.now ≤ 4000) }
    ensures { Puts out.old at (part_of 10 text.now lines) out.new result × (result ≤ at + 4000) }
{
    put_text(out, at, part_of(text, b'\n', lines))
}

// What is strange, in a sentence.
pub fn strange_sentence(strange: Strange) -> &'static [u8]
    ensures is { result.now ≡ bytes_of (strange_sentence strange) }
    ensures short { length result.now ≤ 200 }
{
    match strange {
        Strange::Nothing =>
            b"nothing stands here: the line is blank, two tabs or spaces follow each other, or one ends the line",
        Strange::CarriageReturn =>
            b"a carriage return stands here: a line ends in a line feed alone",
        Strange::NotAscii => b"a byte that is not ASCII stands here",
        Strange::SpacesForTabs => b"spaces stand where tabs belong: one tab parts two fields",
    }
}

// A reason's sentence, without the figure behind it.
pub fn sentence(why: Reason) -> &'static [u8]
    ensures is { result.now ≡ bytes_of (sentence why) }
    ensures short { length result.now ≤ 200 }
{
    match why {
        Reason::Strange(strange) => strange_sentence(strange),
        Reason::NoSuchLetter =>
            b"no record begins so: the letters are P, R, S, A, U, G, W, F and E",
        Reason::FieldCount =>
            b"the number of fields is wrong: after the letter P, R, S and U have 2, A has 3, G and W have 1, E has none",
        Reason::ChildCount => b"the number of children is wrong: F has 1 to 8, a field for each",
        Reason::BadFigure => b"this is no figure: digits alone, no zero in front, no sign",
        Reason::SecondPiece => b"one piece alone stands in this field: a space parts it in two",
        Reason::BadKinds => b"these are no kinds: a letter r or v for each argument, or - for none",
        Reason::BadPiece =>
            b"this is no piece: #v with v from -2147483648 to 2147483647, n, @n, +, -, *, <, / or %, without a zero in front",
        Reason::LacksOperand => b"this sign lacks an operand: it takes the two values before it",
        Reason::NinthValue => b"this is a ninth value: an expression holds at most 8",
        Reason::LeavesSeveral => b"the expression leaves more than one value: a sign is missing",
        Reason::FifthName => b"this is a fifth name: W waits on 1 to 4",
        Reason::PortsLater => b"P stands on line 1 alone",
        Reason::FirstLine => b"line 1 is P with the numbers of inputs and outputs",
        Reason::SecondLine => b"line 2 is the R of main",
        Reason::NoLineFeed => b"the last line lacks its line feed",
        Reason::EmptyListing =>
            b"the listing is empty: line 1 is P with the numbers of inputs and outputs",
        Reason::ManyBytes => b"the listing is too long: byte 49,153 stands on this line",
        Reason::ManyRoutines => b"this is routine 65: at most 64",
        Reason::ManyNames => b"the routine has too many names: arguments and locals are at most 16",
        Reason::ManyInstructions => b"this is instruction 513: at most 512 in all",
        Reason::ManyPieces =>
            b"the pieces are too many: at most 4,096 after the letters of instruction lines",
        Reason::NoInstruction => b"this routine has no instruction: it ends in E or G",
        Reason::NoEnd => b"this is the last instruction of its routine: it is E or G",
        Reason::NoName(_) =>
            b"no such name: they are numbered from 0, arguments first; this routine has ",
        Reason::NoJump(_) =>
            b"no such instruction: they are numbered from 0 in their routine; this one has ",
        Reason::NoRoutine(_) => b"no such routine: they are numbered from 0; this listing has ",
        Reason::ArgumentCount =>
            b"a child has too many or too few arguments: one for each kind of the routine that it calls",
        Reason::NoMain => b"main is missing: its R is line 2",
        Reason::MainAsStated => b"main has one argument r for each input and output, and no other",
    }
}

// The figure behind a reason's sentence: how many names, instructions or routines there are.
fn counted(why: Reason) -> Option<u64>
    ensures { result ≡ counted why }
{
    match why {
        Reason::NoName(n) => Some(n as u64),
        Reason::NoJump(n) => Some(n as u64),
        Reason::NoRoutine(n) => Some(n as u64),
        _ => None,
    }
}

// A sentence and the figure behind it, if there is one, put at a place; the place past them.
pub fn put_with_figure(out: &mut [u8], at: usize, text: &[u8], figure: Option<u64>) -> usize
    requires { (at ≤ 60000) × (length text.now ≤ 200) }
    ensures { Puts out.old at (with_figure text.now figure) out.new result × (result ≤ at + 220) }
{
    let past = put_text(out, at, text);
    match figure {
        Some(n) => put_figure(out, past, n),
        None => past,
    }
}

// What can be said as a reason: a reason itself, or its number (numbers.rt).
pub trait Said: Copy {
    ghost said: { Self → Bytes };

    fn put(self, out: &mut [u8], at: usize) -> usize
        requires { at ≤ 60000 }
        ensures { Puts out.old at (said self) out.new result × (result ≤ at + 220) };
}

impl Said for Reason {
    ghost said = { reason_text };

    fn put(self, out: &mut [u8], at: usize) -> usize {
        put_with_figure(out, at, sentence(self), counted(self))
    }
}

// A reason, put at a place; the place past it.
pub fn put_reason<R: Said>(out: &mut [u8], at: usize, why: R) -> usize
    requires { at ≤ 60000 }
    ensures { Puts out.old at (R.said why) out.new result × (result ≤ at + 220) }
{
    why.put(out, at)
}
