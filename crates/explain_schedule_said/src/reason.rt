// The sentences of the reasons, and the rule of question 19. They are those of specs/Reasons, as the contracts say.
ghost use Rattle.std.specs.Prelude.{◌≡◌, ◌+◌, ◌≤◌, length};
ghost use Rattle.session_print.specs.Puts.{Puts};
ghost use Rattle.listing.specs.Bytes.{bytes_of};
ghost use Rattle.explain_schedule_said.specs.Reasons.{sentence, counted, reason_text, fault_text, rule, question_text, usage_text};
ghost use Rattle.explain_schedule_said.specs.Numbers.{number_text, allowed_text, why_text};

use explain_fields::{Fault, Reason as Form, Strange};
use explain_said::{put_spot, put_with_figure, reason_of, sentence as form_sentence};
use explain_schedule::Reason;
use session_print::figure::put_figure;
use test_cases::report::put_text;

// A reason's sentence, without the figure behind it.
fn sentence(why: Reason) -> &'static [u8]
    ensures is { result.now ≡ bytes_of (sentence why) }
    ensures short { length result.now ≤ 200 }
{
    match why {
        Reason::Form(why) => form_sentence(why),
        Reason::DateCount =>
            b"the number of fields is wrong: line 1 is a date and has 3, year, month and day",
        Reason::WindowCount =>
            b"the number of fields is wrong: a window has 4, input, weekday, opening and closing minute",
        Reason::NoDate =>
            b"the schedule is empty: line 1 is the date on which moment 0 is midnight",
        Reason::NoLineFeed => b"the last line lacks its line feed",
        Reason::NoYear => b"no such year: they go from 2000 to 2199",
        Reason::NoMonth => b"no such month: they go from 1 to 12",
        Reason::NoInput => b"no such input: they are numbered from 0 to 15",
        Reason::NoWeekday => b"no such weekday: they go from 1, Monday, to 7, Sunday",
        Reason::NoMinute =>
            b"no such closing minute: a window closes at 1,440, midnight, at the latest",
        Reason::NoDay(_) => b"no such day: they are numbered from 1; this month has ",
        Reason::NotBelow(_) => b"this opening minute is not below the closing minute, which is ",
    }
}

// The figure behind a reason's sentence: the days of the month, the closing minute.
fn counted(why: Reason) -> Option<u64>
    ensures { result ≡ counted why }
{
    match why {
        Reason::NoDay(days) => Some(days),
        Reason::NotBelow(closing) => Some(closing),
        _ => None,
    }
}

// A reason, put at a place; the place past it.
pub fn put_reason(out: &mut [u8], at: usize, why: Reason) -> usize
    requires { at ≤ 50000 }
    ensures { Puts out.old at (reason_text why) out.new result × (result ≤ at + 220) }
{
    put_with_figure(out, at, sentence(why), counted(why))
}

// The reasons from number 1 on; the figures are said apart.
const REASONS: [Reason; 17] = [
    Reason::Form(Form::Strange(Strange::Nothing)),
    Reason::Form(Form::Strange(Strange::CarriageReturn)),
    Reason::Form(Form::Strange(Strange::NotAscii)),
    Reason::Form(Form::Strange(Strange::SpacesForTabs)),
    Reason::DateCount,
    Reason::WindowCount,
    Reason::NoDate,
    Reason::Form(Form::BadFigure),
    Reason::Form(Form::SecondPiece),
    Reason::NoLineFeed,
    Reason::NoYear,
    Reason::NoMonth,
    Reason::NoInput,
    Reason::NoWeekday,
    Reason::NoMinute,
    Reason::NoDay(0),
    Reason::NotBelow(0),
];

// From this number on a figure stands behind the sentence.
const NO_DAY: u32 = 16;

// The sentence of a reason by its number, 0 being none; none for other numbers.
fn sentence_of(number: u32) -> &'static [u8]
    ensures is { result.now ≡ number_text number }
    ensures short { length result.now ≤ 200 }
{
    if number == 0 {
        return b"nothing is wrong";
    }
    match reason_of(&REASONS, number) {
        Some(why) => sentence(why),
        None => b"",
    }
}

// The figure behind a number that asks for it; the place past it.
fn put_allowed(out: &mut [u8], at: usize, why: u32, allowed: u64) -> usize
    requires { at ≤ 60000 }
    ensures { Puts out.old at (allowed_text why allowed) out.new result × (result ≤ at + 20) }
{
    if why < NO_DAY {
        return at;
    }
    put_figure(out, at, allowed)
}

// A reason by its number, with its figure; the place past them.
pub fn put_why(out: &mut [u8], at: usize, why: u32, allowed: u64) -> usize
    requires { at ≤ 50000 }
    ensures { Puts out.old at (why_text why allowed) out.new result × (result ≤ at + 220) }
{
    let a = put_text(out, at, sentence_of(why));
    put_allowed(out, a, why, allowed)
}

// What is wrong in a line, and where, or that nothing is; the place past it.
pub fn put_fault(out: &mut [u8], at: usize, line: &[u8], fault: Option<Fault<Reason>>) -> usize
    requires { at ≤ 30000 }
    ensures { Puts out.old at (fault_text line.now fault) out.new result × (result ≤ at + 4420) }
{
    match fault {
        Some(fault) => {
            let past = put_spot(out, at, line, fault.spot);
            put_reason(out, past, fault.why)
        }
        None => put_text(out, at, b"nothing is wrong"),
    }
}

// The rule, as a line; the place past it.
fn put_rule(out: &mut [u8], at: usize) -> usize
    requires { at ≤ 60000 }
    ensures { Puts out.old at rule out.new result × (result ≤ at + 400) }
{
    put_text(
        out,
        at,
        b"Line 1 is a real date, year 2000 to 2199, month and day. Every other line is a window, input 0 to 15, weekday 1 (Monday) to 7, opening minute, and closing minute above it, at most 1,440. One tab parts two fields, and each line ends in a line feed. Look for a field too few or too many, a leading zero, a carriage return or a blank line.\n",
    )
}

// The question's number and its rule, on a line of their own; the place past them.
pub fn put_question(out: &mut [u8], at: usize) -> usize
    requires { at ≤ 45000 }
    ensures { Puts out.old at question_text out.new result × (result ≤ at + 500) }
{
    let a = put_text(out, at, b"\nQuestion 19: ");
    put_rule(out, a)
}

// The rule behind those of a listing; the place past it.
pub fn put_schedule_usage(out: &mut [u8], at: usize) -> usize
    requires { at ≤ 45000 }
    ensures { Puts out.old at usage_text out.new result × (result ≤ at + 500) }
{
    let a = put_text(out, at, b"A schedule fits only if this holds:\n19 ");
    put_rule(out, a)
}
