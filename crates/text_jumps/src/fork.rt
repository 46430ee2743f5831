// The record that leads to other routines: `F`.
ghost use Rattle.std.specs.Prelude.{◌≡◌, ◌≤◌, length};
ghost use Rattle.text_place.specs.Texts.{Within};
ghost use Rattle.listing.specs.Form.{read_fork};
ghost use Rattle.text_jumps.specs.Records.{rest_answer, stand_ins};

use crate::record::Record;
use crate::scope::{Scope, call_is_there};
use text_fields::{Read, figures_field};
use text_place::Place;

// Document 01: "forks 1 to 8 children".
const MOST_CHILDREN: u64 = 8;

// `arguments` has the number of arguments of each routine.
pub fn read_fork(
    s: &[u8],
    place: Place,
    stop: u8,
    scope: Scope,
    arguments: &[u8],
) -> Option<Read<Record>>
    requires { Within s.now place.offset place.line × (length arguments.now ≤ 64) }
    ensures { result ≡ rest_answer (stand_ins arguments.now) scope s.now place stop read_fork }
{
    let mut at = place;
    let mut stop = stop;
    let mut count: u64 = 0;
    let mut pieces: u64 = 0;
    let mut there = true;
    while stop == b'\t' {
        if MOST_CHILDREN <= count {
            return None;
        }
        let call = figures_field(s, at, stop, scope.names)?;
        there &= call_is_there(call.value, arguments);
        count += 1;
        pieces += call.value.count;
        stop = call.stop;
        at = call.next;
    }
    if count == 0 {
        return None;
    }
    Some(Read {
        value: Record::Instruction(pieces, there, false),
        stop,
        next: at,
    })
}
