// The records that lead to another instruction of their routine: `U` and `G`.
ghost use Rattle.std.specs.Prelude.{◌≡◌, List};
ghost use Rattle.text_place.specs.Texts.{Within};
ghost use Rattle.listing.specs.Listing.{Routine};
ghost use Rattle.listing.specs.Form.{read_branch, read_jump};
ghost use Rattle.text_jumps.specs.Records.{rest_answer};

use crate::record::Record;
use crate::scope::Scope;
use text_fields::{Number, Read, expression_field, number_field};
use text_place::Place;

pub fn read_branch(s: &[u8], place: Place, stop: u8, scope: Scope) -> Option<Read<Record>>
    requires { Within s.now place.offset place.line }
    ensures { (routines : List Routine) → result ≡ rest_answer routines scope s.now place stop read_branch }
{
    let e = expression_field(s, place, stop, scope.names)?;
    let Number::Read(j, stop, next) = number_field(s, e.next, e.stop) else {
        return None;
    };
    if stop == b'\t' {
        return None;
    }
    let known = e.value.there & (j < u64::from(scope.size));
    Some(Read {
        value: Record::Instruction(e.value.pieces + 1, known, false),
        stop,
        next,
    })
}

pub fn read_jump(s: &[u8], place: Place, stop: u8, scope: Scope) -> Option<Read<Record>>
    requires { Within s.now place.offset place.line }
    ensures { (routines : List Routine) → result ≡ rest_answer routines scope s.now place stop read_jump }
{
    let Number::Read(j, stop, next) = number_field(s, place, stop) else {
        return None;
    };
    if stop == b'\t' {
        return None;
    }
    Some(Read {
        value: Record::Instruction(1, j < u64::from(scope.size), true),
        stop,
        next,
    })
}
