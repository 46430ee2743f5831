// The sentences of the reasons and of the codes. They are those of specs/Reasons, as the contracts say.
ghost use Rattle.std.specs.Prelude.{◌≡◌, ◌+◌, ◌≤◌, length};
ghost use Rattle.session_print.specs.Puts.{Puts};
ghost use Rattle.listing.specs.Bytes.{Bytes, bytes_of};
ghost use Rattle.explain_trace_said.specs.Reasons.{sentence, counted, reason_text, fault_said, rule_text, code_text};
ghost use Rattle.explain_trace_said.specs.Numbers.{number_text, allowed_text, why_text};

use explain_fields::{Fault, Strange};
use explain_said::{put_line, put_spot, put_with_figure, reason_of, strange_sentence};
use explain_trace::Reason;
use session_print::figure::put_figure;
use test_cases::report::put_text;

// A reason's sentence, without the figure behind it.
fn sentence(why: Reason) -> &'static [u8]
    ensures is { result.now ≡ bytes_of (sentence why) }
    ensures short { length result.now ≤ 200 }
{
    match why {
        Reason::Strange(strange) => strange_sentence(strange),
        Reason::NoSuchLetter => b"no line begins so: the letters are I and Q",
        Reason::FieldCount =>
            b"the number of fields is wrong: after the letter I has 3, time, input and value; Q has 1, time",
        Reason::BadTime =>
            b"this is no time: digits alone, no zero in front, no sign, at most 18446744073709551615",
        Reason::BadInput =>
            b"this is no input number: digits alone, no zero in front, no sign, at most 4294967295",
        Reason::BadValue =>
            b"this is no value: from -2147483648 to 2147483647, no zero and no plus in front",
        Reason::SecondPiece => b"one piece alone stands in this field: a space parts it in two",
        Reason::NoForm => b"the line has no form",
        Reason::NoLineFeed => b"the last line lacks its line feed",
        Reason::NoLast => b"the trace ends here without Q: its last line is Q with a time",
        Reason::AfterLast => b"this line stands after Q, which is the last",
        Reason::NotAfter(_) =>
            b"this time is not after the present moment: times rise, the first is at least 1; here above ",
        Reason::NoInput(_) => b"no such input: they are numbered from 0; this listing has ",
        Reason::NotRising(_) =>
            b"the inputs of one time are listed in rising order, each once: here from ",
    }
}

// The figure behind a reason's sentence: the time that is to be passed, the number of inputs, the least number.
fn counted(why: Reason) -> Option<u64>
    ensures { result ≡ counted why }
{
    match why {
        Reason::NotAfter(time) => Some(time),
        Reason::NoInput(inputs) => Some(inputs),
        Reason::NotRising(least) => Some(least),
        _ => None,
    }
}

// A reason, put at a place; the place past it.
pub fn put_reason(out: &mut [u8], at: usize, why: Reason) -> usize
    requires { at ≤ 50000 }
    ensures { Puts out.old at (reason_text why) out.new result × (result ≤ at + 220) }
{
    put_with_figure(out, at, sentence(why), counted(why))
}

// The reasons from number 1 on; the figures are said apart.
const REASONS: [Reason; 17] = [
    Reason::Strange(Strange::Nothing),
    Reason::Strange(Strange::CarriageReturn),
    Reason::Strange(Strange::NotAscii),
    Reason::Strange(Strange::SpacesForTabs),
    Reason::NoSuchLetter,
    Reason::FieldCount,
    Reason::BadTime,
    Reason::BadInput,
    Reason::BadValue,
    Reason::SecondPiece,
    Reason::NoForm,
    Reason::NoLineFeed,
    Reason::NoLast,
    Reason::AfterLast,
    Reason::NotAfter(0),
    Reason::NoInput(0),
    Reason::NotRising(0),
];

// From this number on a figure stands behind the sentence.
const NOT_AFTER: u32 = 15;

// The sentence of a reason by its number, 0 being none; none for other numbers.
fn sentence_of(number: u32) -> &'static [u8]
    ensures is { result.now ≡ number_text number }
    ensures short { length result.now ≤ 200 }
{
    if number == 0 {
        return b"nothing is wrong";
    }
    match reason_of(&REASONS, number) {
        Some(why) => sentence(why),
        None => b"",
    }
}

// The figure behind a number that asks for it; the place past it.
fn put_allowed(out: &mut [u8], at: usize, why: u32, allowed: u64) -> usize
    requires { at ≤ 60000 }
    ensures { Puts out.old at (allowed_text why allowed) out.new result × (result ≤ at + 20) }
{
    if why < NOT_AFTER {
        return at;
    }
    put_figure(out, at, allowed)
}

// A reason by its number, with its figure; the place past them.
pub fn put_why(out: &mut [u8], at: usize, why: u32, allowed: u64) -> usize
    requires { at ≤ 50000 }
    ensures { Puts out.old at (why_text why allowed) out.new result × (result ≤ at + 220) }
{
    let a = put_text(out, at, sentence_of(why));
    put_allowed(out, a, why, allowed)
}

// What can be said as a reason: a reason itself, or its number with its figure.
pub trait Said: Copy {
    ghost said: { Self → Bytes };

    fn put(self, out: &mut [u8], at: usize) -> usize
        requires { at ≤ 50000 }
        ensures { Puts out.old at (said self) out.new result × (result ≤ at + 220) };
}

impl Said for Reason {
    ghost said = { reason_text };

    fn put(self, out: &mut [u8], at: usize) -> usize {
        put_reason(out, at, self)
    }
}

// A reason's number, and the figure that stands behind some.
#[derive(Clone, Copy, Debug, PartialEq, Eq)]
pub struct Numbered {
    pub why: u32,
    pub allowed: u64,
}

impl Said for Numbered {
    ghost said = { λ number. why_text number.why number.allowed };

    fn put(self, out: &mut [u8], at: usize) -> usize {
        put_why(out, at, self.why, self.allowed)
    }
}

// What is wrong in a line, and where, or that nothing is; the place past it.
pub fn put_fault<R: Said>(out: &mut [u8], at: usize, line: &[u8], fault: Option<Fault<R>>) -> usize
    requires { at ≤ 30000 }
    ensures { Puts out.old at (fault_said R.said line.now fault) out.new result × (result ≤ at + 4420) }
{
    match fault {
        Some(fault) => {
            let past = put_spot(out, at, line, fault.spot);
            fault.why.put(out, past)
        }
        None => put_text(out, at, b"nothing is wrong"),
    }
}

// The rule of a code, put at a place; the place past it. None for other numbers.
fn put_rule(out: &mut [u8], at: usize, code: u32) -> usize
    requires { at ≤ 50000 }
    ensures { Puts out.old at (rule_text code) out.new result × (result ≤ at + 4000) }
{
    put_line(
        out,
        at,
        b"

A trace has lines I with time, input and value, and last Q with a time. One tab parts two fields, and each line ends in a line feed.






The time of each call is after the present moment, which is that of the call before it, or 0. Inputs of one time are one call and stand together.

The inputs of a call are below the listing's number of inputs, and rise. An input stands at most once in a call.

A step is left: in a session an instant reaches at most 10,000 instructions. Look for a loop without W.
At F the live routines and the new children are at most 64. Look for children that never end.
At F the routine's level is at most 9: main is at level 0, a child one deeper. Look for a routine that forks itself.
At A the delay is at least 1 millisecond.
At A the due moment is below 2 to the 64.
At S, U and A every divisor of / and % is other than 0, at A in the delay first, then in the value, before code 16. Look for a name that may be 0.",
        code as usize,
    )
}

// A code and its rule, on a line of their own; the place past them.
pub fn put_code(out: &mut [u8], at: usize, code: u32) -> usize
    requires { at ≤ 45000 }
    ensures { Puts out.old at (code_text code) out.new result × (result ≤ at + 4100) }
{
    let a = put_text(out, at, b"\nCode ");
    let b = put_figure(out, a, code as u64);
    let c = put_text(out, b, b": ");
    let d = put_rule(out, c, code);
    put_text(out, d, b"\n")
}
