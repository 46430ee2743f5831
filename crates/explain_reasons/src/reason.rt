// The reason at a place, for each question.
ghost use Rattle.std.specs.Prelude.{◌≡◌, ◌≤◌, length};
ghost use Rattle.explain_reasons.specs.Faults.{unclosed_why, form_fault, ending_why, fault_at};

use crate::tally::limit_why;
use explain_fields::{Fault, Reason, about};
use explain_lines::letter::first_byte;
use explain_lines::line_fault;
use explain_parts::count_parts;
use explain_there::there_fault;

// Why a text is not closed.
fn unclosed_why(listing: &[u8]) -> Reason
    ensures { result ≡ unclosed_why listing.now }
{
    if listing.len() == 0 {
        return Reason::EmptyListing;
    }
    Reason::NoLineFeed
}

// Question 2: a line out of form, or the last one without its line feed.
fn form_fault(listing: &[u8], place: usize, line: &[u8]) -> Option<Fault<Reason>>
    requires { (length listing.now ≤ 100000) × (length line.now ≤ 100000) }
    ensures { result ≡ form_fault listing.now place line.now }
{
    if count_parts(listing, b'\n') <= place {
        return Some(about(unclosed_why(listing)));
    }
    line_fault(place, line)
}

// Question 5: a routine without an instruction, or whose last is no `E` and no `G`.
fn ending_why(line: &[u8]) -> Reason
    ensures { result ≡ ending_why line.now }
{
    if first_byte(line) == b'R' {
        return Reason::NoInstruction;
    }
    Reason::NoEnd
}

// The reason at a place, whose line is lent too; none for a question that has no reasons of its own.
pub fn reason_at(listing: &[u8], number: u32, place: usize, line: &[u8]) -> Option<Fault<Reason>>
    requires { (length listing.now ≤ 100000) × (length line.now ≤ 100000) }
    ensures { result ≡ fault_at listing.now number place line.now }
{
    match number {
        2 => form_fault(listing, place, line),
        3 => Some(about(limit_why(listing, place))),
        4 => Some(there_fault(listing, place, line)),
        5 => Some(about(ending_why(line))),
        _ => None,
    }
}
