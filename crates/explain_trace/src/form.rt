// Why a line of a trace is out of form.
ghost use Rattle.std.specs.Prelude.{◌≡◌, ◌+◌, ◌≤◌, length};
ghost use Rattle.listing.specs.Lists.{is_some};
ghost use Rattle.walk.specs.Trace.{read_below, read_signed};
ghost use Rattle.explain_trace.specs.Forms.{fields_after, is_letter_field, letter_why, fits_letter, reads_field, bad_field, field_why, fields_fault, form_fault};

use crate::reasons::Reason;
use explain_fields::{Fault, Spot, about, strange_field, strange_in};
use explain_lines::letter::{NO_RECORD, first_byte};
use explain_parts::{count_parts, part_end, part_of};
use session_trace_lines::figure::{Bounded, MOST_32, MOST_64, figure_up_to, value_of};

// How many fields come after a letter; none if no line begins so.
fn fields_after(letter: u8) -> Option<usize>
    ensures { result ≡ fields_after letter }
{
    match letter {
        b'I' => Some(3),
        b'Q' => Some(1),
        _ => None,
    }
}

// Whether a field is one letter of a line.
fn is_letter_field(field: &[u8]) -> bool
    ensures { result ≡ is_letter_field field.now }
{
    if field.len() == 1 {
        return fields_after(first_byte(field)).is_some();
    }
    false
}

// Why a line's first field is no letter of a line.
fn letter_why(field: &[u8]) -> Option<Reason>
    ensures { result ≡ letter_why field.now }
{
    if is_letter_field(field) {
        return None;
    }
    match strange_field(field) {
        Some(strange) => Some(Reason::Strange(strange)),
        None => Some(Reason::NoSuchLetter),
    }
}

// Whether so many fields may come after a letter.
fn fits_letter(letter: u8, count: usize) -> bool
    ensures { result ≡ fits_letter letter count }
{
    match fields_after(letter) {
        Some(fields) => count == fields,
        None => count == NO_RECORD,
    }
}

// Whether a field is a figure up to a number.
fn is_figure(field: &[u8], most: u64) -> bool
    ensures { result ≡ is_some (read_below (most + 1) field.now) }
{
    let read = figure_up_to(field, 0, field.len(), most);
    match read {
        Bounded::Value(_) => true,
        Bounded::Bad => false,
    }
}

// Whether a field is a value.
fn is_value(field: &[u8]) -> bool
    ensures { result ≡ is_some (read_signed field.now) }
{
    let read = value_of(field, 0, field.len());
    match read {
        Bounded::Value(_) => true,
        Bounded::Bad => false,
    }
}

// Whether the field with this number after the letter is in form.
fn is_field(number: usize, field: &[u8]) -> bool
    ensures { result ≡ reads_field number field.now }
{
    match number {
        1 => is_figure(field, MOST_64),
        2 => is_figure(field, MOST_32),
        _ => is_value(field),
    }
}

// Why it is not, if no byte is strange.
fn bad_field(number: usize) -> Reason
    ensures { result ≡ bad_field number }
{
    match number {
        1 => Reason::BadTime,
        2 => Reason::BadInput,
        _ => Reason::BadValue,
    }
}

// Why the field with this number after the letter is out of form.
fn field_why(number: usize, field: &[u8]) -> Option<Reason>
    ensures { result ≡ field_why number field.now }
{
    if is_field(number, field) {
        return None;
    }
    if part_end(field, b' ', 0) < field.len() {
        return Some(Reason::SecondPiece);
    }
    match strange_in(field) {
        Some(strange) => Some(Reason::Strange(strange)),
        None => Some(bad_field(number)),
    }
}

// The first field after the letter that is wrong, of so many.
fn fields_fault(line: &[u8], count: usize) -> Option<Fault<Reason>>
    requires { count ≤ 200000 }
    ensures { result ≡ fields_fault line.now 1 count }
{
    for number in 1..count + 1 {
        let field = part_of(line, b'\t', number);
        match field_why(number, field) {
            Some(why) => {
                return Some(Fault {
                    why,
                    spot: Spot::Field(number + 1),
                });
            }
            None => {}
        }
    }
    None
}

// Why a line is out of form, by its bytes without the line feed.
pub fn form_fault(line: &[u8]) -> Option<Fault<Reason>>
    requires { length line.now ≤ 100000 }
    ensures { result ≡ form_fault line.now }
{
    if let Some(why) = letter_why(part_of(line, b'\t', 0)) {
        return Some(Fault {
            why,
            spot: Spot::Field(1),
        });
    }
    let count = count_parts(line, b'\t') - 1;
    if fits_letter(first_byte(line), count) {
        return fields_fault(line, count);
    }
    Some(about(Reason::FieldCount))
}
