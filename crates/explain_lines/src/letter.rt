// The letters of the records, and the fields that belong to each.
ghost use Rattle.std.specs.Prelude.{◌≡◌, ◌≤◌, length, get_or};
ghost use Rattle.explain_lines.specs.Letters.{fields_after, is_letter_field, fits_letter, first_role, later_role, role_of, letter_why, count_why, stands_why};

use explain_fields::{Reason, Role, strange_field};

// So many fields stand for those of a byte that begins no record.
pub const NO_RECORD: usize = 255;

// How many fields come after a letter, of an `F` at most; none if no record begins so.
fn fields_after(letter: u8) -> Option<usize>
    ensures { result ≡ fields_after letter }
{
    match letter {
        b'P' => Some(2),
        b'R' => Some(2),
        b'S' => Some(2),
        b'A' => Some(3),
        b'U' => Some(2),
        b'G' => Some(1),
        b'W' => Some(1),
        b'F' => Some(8),
        b'E' => Some(0),
        _ => None,
    }
}

// The byte that a text begins with, 0 if it is empty.
pub fn first_byte(s: &[u8]) -> u8
    ensures { result ≡ get_or s.now 0 0 }
{
    if s.len() == 0 {
        return 0;
    }
    s[0]
}

// Whether a field is one letter of a record.
fn is_letter_field(field: &[u8]) -> bool
    ensures { result ≡ is_letter_field field.now }
{
    if field.len() == 1 {
        return fields_after(first_byte(field)).is_some();
    }
    false
}

// Why a line's first field is no letter of a record.
pub fn letter_why(field: &[u8]) -> Option<Reason>
    ensures { result ≡ letter_why field.now }
{
    if is_letter_field(field) {
        return None;
    }
    match strange_field(field) {
        Some(strange) => Some(Reason::Strange(strange)),
        None => Some(Reason::NoSuchLetter),
    }
}

// Whether so many fields may come after a letter; after a byte that begins no record, whether they are 255.
pub fn fits_letter(letter: u8, count: usize) -> bool
    ensures { result ≡ fits_letter letter count }
{
    if letter == b'F' {
        if count == 0 {
            return false;
        }
        return count <= 8;
    }
    match fields_after(letter) {
        Some(fields) => count == fields,
        None => count == NO_RECORD,
    }
}

// Why so many may not.
pub fn count_why(letter: u8) -> Reason
    ensures { result ≡ count_why letter }
{
    if letter == b'F' {
        return Reason::ChildCount;
    }
    Reason::FieldCount
}

// What the first field after a letter holds, and what a later one does.
fn first_role(letter: u8) -> Role
    ensures { result ≡ first_role letter }
{
    if letter == b'R' {
        return Role::Kinds;
    }
    if letter == b'U' {
        return Role::Expression;
    }
    Role::Number
}

fn later_role(letter: u8) -> Role
    ensures { result ≡ later_role letter }
{
    if letter == b'S' {
        return Role::Expression;
    }
    if letter == b'A' {
        return Role::Expression;
    }
    Role::Number
}

// What the field after a letter holds that has this number, the letter being number 0.
pub fn role_of(letter: u8, number: usize) -> Role
    ensures { result ≡ role_of letter number }
{
    if letter == b'W' {
        return Role::Names;
    }
    if letter == b'F' {
        return Role::Child;
    }
    if number == 1 {
        return first_role(letter);
    }
    later_role(letter)
}

// Why a record may not stand on a line.
pub fn stands_why(number: usize, letter: u8) -> Option<Reason>
    ensures { result ≡ stands_why number letter }
{
    if letter == b'P' {
        if number == 1 {
            return None;
        }
        return Some(Reason::PortsLater);
    }
    if number <= 1 {
        return Some(Reason::FirstLine);
    }
    if letter == b'R' {
        return None;
    }
    if number <= 2 {
        return Some(Reason::SecondLine);
    }
    None
}
