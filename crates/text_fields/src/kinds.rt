// The kinds of a routine's arguments. Document 01: "kinds has a letter per argument, `r` by reference or `v` by value, or is
// `-` for none."
ghost use Rattle.std.specs.Prelude.{◌≡◌};
ghost use Rattle.std.specs.List.{list_all};
ghost use Rattle.text_place.specs.Texts.{Within};
ghost use Rattle.text_fields.specs.Fields.{is_kind, is_reference, kinds_answer, kinds_field_answer};

use crate::field::Read;
use text_place::{Place, take_piece};

// How many, and whether all are by reference.
#[derive(Clone, Copy)]
pub struct Kinds {
    pub count: u64,
    pub by_reference: bool,
}

fn is_kind(b: u8) -> bool
    ensures { result ≡ is_kind b }
{
    matches!(b, b'r' | b'v')
}

fn are_kinds(letters: &[u8]) -> bool
    ensures { result ≡ list_all is_kind letters.now }
{
    letters.iter().all(|b| is_kind(*b))
}

fn are_references(letters: &[u8]) -> bool
    ensures { result ≡ list_all is_reference letters.now }
{
    letters.iter().all(|b| *b == b'r')
}

fn kinds_of(letters: &[u8]) -> Option<Kinds>
    ensures { result ≡ kinds_answer letters.now }
{
    if letters.is_empty() {
        return None;
    }
    if letters == b"-".as_slice() {
        return Some(Kinds {
            count: 0,
            by_reference: true,
        });
    }
    if !are_kinds(letters) {
        return None;
    }
    Some(Kinds {
        count: letters.len() as u64,
        by_reference: are_references(letters),
    })
}

pub fn kinds_field(s: &[u8], place: Place, stop: u8) -> Option<Read<Kinds>>
    requires { Within s.now place.offset place.line }
    ensures { result ≡ kinds_field_answer s.now place stop }
{
    if stop != b'\t' {
        return None;
    }
    let t = take_piece(s, place);
    if t.stop == b' ' {
        return None;
    }
    let from = t.from;
    let to = t.to;
    let kinds = kinds_of(&s[from..to])?;
    Some(Read {
        value: kinds,
        stop: t.stop,
        next: t.next,
    })
}
