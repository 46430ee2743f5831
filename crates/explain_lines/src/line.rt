// Why a line is out of form.
ghost use Rattle.std.specs.Prelude.{◌≡◌, ◌≤◌, length};
ghost use Rattle.explain_lines.specs.Lines.{fields_fault, line_fault};

use crate::letter::{count_why, first_byte, fits_letter, letter_why, role_of, stands_why};
use explain_fields::{Fault, Reason, Spot, about, fault_in, field_fault};
use explain_parts::{count_parts, part_of};

// The first field after the letter that is wrong, of so many.
fn fields_fault(line: &[u8], letter: u8, count: usize) -> Option<Fault<Reason>>
    requires { (length line.now ≤ 100000) × (count ≤ 200000) }
    ensures { result ≡ fields_fault letter line.now 1 count }
{
    for number in 1..count + 1 {
        let field = part_of(line, b'\t', number);
        match field_fault(field, role_of(letter, number)) {
            Some(found) => {
                return Some(fault_in(found, number + 1));
            }
            None => {}
        }
    }
    None
}

// Why a line is out of form, by its number and its bytes without the line feed.
pub fn line_fault(number: usize, line: &[u8]) -> Option<Fault<Reason>>
    requires { length line.now ≤ 100000 }
    ensures { result ≡ line_fault number line.now }
{
    if let Some(why) = letter_why(part_of(line, b'\t', 0)) {
        return Some(Fault {
            why,
            spot: Spot::Field(1),
        });
    }
    let letter = first_byte(line);
    let count = count_parts(line, b'\t') - 1;
    if !fits_letter(letter, count) {
        return Some(about(count_why(letter)));
    }
    if let Some(fault) = fields_fault(line, letter, count) {
        return Some(fault);
    }
    match stands_why(number, letter) {
        Some(why) => Some(about(why)),
        None => None,
    }
}
