// Why a line is no date's and no window's.
ghost use Rattle.std.specs.Prelude.{◌≡◌, ◌≤◌, length};
ghost use Rattle.text_piece.specs.Pieces.{figure_answer};
ghost use Rattle.explain_schedule.specs.Lines.{count_why, formed, figures_fault, value_in, number_at, date_fault, window_fault};

use crate::ranges::{date_range, window_range};
use crate::reasons::Reason;
use explain_fields::{
    Fault, Found, Reason as FormReason, Role, about, fault_in, field_fault, strange_field,
};
use explain_parts::{count_parts, part_of};
use text_piece::{Figure, figure_of};

// The fields of a date, year, month and day; and of a window, input, weekday, opening and closing minute.
const DATE_FIELDS: usize = 3;

const WINDOW_FIELDS: usize = 4;

// Why a line has too few or too many fields.
fn count_why(why: Reason, line: &[u8]) -> Reason
    ensures { result ≡ count_why why line.now }
{
    match strange_field(line) {
        Some(strange) => Reason::Form(FormReason::Strange(strange)),
        None => why,
    }
}

// What is wrong in a field, as a fault of the line.
fn formed(found: Found, field: usize) -> Fault<Reason>
    ensures { result ≡ formed found field }
{
    let fault = fault_in(found, field);
    Fault {
        why: Reason::Form(fault.why),
        spot: fault.spot,
    }
}

// The first of so many fields that is no figure.
fn figures_fault(line: &[u8], count: usize) -> Option<Fault<Reason>>
    requires { (length line.now ≤ 100000) × (count ≤ 200000) }
    ensures { result ≡ figures_fault line.now 0 count }
{
    for before in 0..count {
        let field = part_of(line, b'\t', before);
        match field_fault(field, Role::Number) {
            Some(found) => {
                return Some(formed(found, before + 1));
            }
            None => {}
        }
    }
    None
}

// The number of a figure; 0 for none.
fn figure_value(piece: &[u8]) -> u64
    ensures { result ≡ value_in (figure_answer piece.now) }
{
    let f = figure_of(piece, 0, piece.len());
    match f {
        Figure::Value(n) => n,
        Figure::Bad => 0,
    }
}

// The number in a field, by the fields before it.
fn number_at(line: &[u8], before: usize) -> u64
    ensures { result ≡ number_at line.now before }
{
    figure_value(part_of(line, b'\t', before))
}

// Why a line is no date's.
pub fn date_fault(line: &[u8]) -> Option<Fault<Reason>>
    requires { length line.now ≤ 100000 }
    ensures { result ≡ date_fault line.now }
{
    if count_parts(line, b'\t') != DATE_FIELDS {
        return Some(about(count_why(Reason::DateCount, line)));
    }
    if let Some(fault) = figures_fault(line, DATE_FIELDS) {
        return Some(fault);
    }
    date_range(number_at(line, 0), number_at(line, 1), number_at(line, 2))
}

// Why a line is no window's.
pub fn window_fault(line: &[u8]) -> Option<Fault<Reason>>
    requires { length line.now ≤ 100000 }
    ensures { result ≡ window_fault line.now }
{
    if count_parts(line, b'\t') != WINDOW_FIELDS {
        return Some(about(count_why(Reason::WindowCount, line)));
    }
    if let Some(fault) = figures_fault(line, WINDOW_FIELDS) {
        return Some(fault);
    }
    let input = number_at(line, 0);
    let weekday = number_at(line, 1);
    window_range(input, weekday, number_at(line, 2), number_at(line, 3))
}
