// A line's record, from the fields after its letter.
ghost use Rattle.std.specs.Prelude.{◌≡◌, List, ℕ, ◌≤◌, length};
ghost use Rattle.text_place.specs.Texts.{Within};
ghost use Rattle.listing.specs.Listing.{Routine};
ghost use Rattle.listing.specs.Form.{read_ports, read_opens, read_assign, read_schedule, read_wait, read_end, read_by_letter};
ghost use Rattle.text_jumps.specs.Records.{rest_answer, stand_ins};

use text_fields::{Number, Read, expression_field, figures_field, kinds_field, number_field};
use text_jumps::{Record, Scope, read_branch, read_fork, read_jump};
use text_place::Place;

fn read_ports(s: &[u8], place: Place, stop: u8, scope: Scope) -> Option<Read<Record>>
    requires { Within s.now place.offset place.line }
    ensures { (routines : List Routine) → result ≡ rest_answer routines scope s.now place stop read_ports }
{
    let Number::Read(inputs, stop, next) = number_field(s, place, stop) else {
        return None;
    };
    let Number::Read(outputs, stop, next) = number_field(s, next, stop) else {
        return None;
    };
    if stop == b'\t' {
        return None;
    }
    Some(Read {
        value: Record::Ports(inputs, outputs),
        stop,
        next,
    })
}

fn read_opens(s: &[u8], place: Place, stop: u8, scope: Scope) -> Option<Read<Record>>
    requires { Within s.now place.offset place.line }
    ensures { (routines : List Routine) → result ≡ rest_answer routines scope s.now place stop read_opens }
{
    let kinds = kinds_field(s, place, stop)?;
    let Number::Read(locals, stop, next) = number_field(s, kinds.next, kinds.stop) else {
        return None;
    };
    if stop == b'\t' {
        return None;
    }
    Some(Read {
        value: Record::Opens(kinds.value.count, locals, kinds.value.by_reference),
        stop,
        next,
    })
}

fn read_assign(s: &[u8], place: Place, stop: u8, scope: Scope) -> Option<Read<Record>>
    requires { Within s.now place.offset place.line }
    ensures { (routines : List Routine) → result ≡ rest_answer routines scope s.now place stop read_assign }
{
    let Number::Read(n, stop, next) = number_field(s, place, stop) else {
        return None;
    };
    let e = expression_field(s, next, stop, scope.names)?;
    if e.stop == b'\t' {
        return None;
    }
    let known = (n < u64::from(scope.names)) & e.value.there;
    Some(Read {
        value: Record::Instruction(1 + e.value.pieces, known, false),
        stop: e.stop,
        next: e.next,
    })
}

fn read_schedule(s: &[u8], place: Place, stop: u8, scope: Scope) -> Option<Read<Record>>
    requires { Within s.now place.offset place.line }
    ensures { (routines : List Routine) → result ≡ rest_answer routines scope s.now place stop read_schedule }
{
    let Number::Read(n, stop, next) = number_field(s, place, stop) else {
        return None;
    };
    let d = expression_field(s, next, stop, scope.names)?;
    let e = expression_field(s, d.next, d.stop, scope.names)?;
    if e.stop == b'\t' {
        return None;
    }
    let known = (n < u64::from(scope.names)) & d.value.there & e.value.there;
    Some(Read {
        value: Record::Instruction(1 + d.value.pieces + e.value.pieces, known, false),
        stop: e.stop,
        next: e.next,
    })
}

fn read_wait(s: &[u8], place: Place, stop: u8, scope: Scope) -> Option<Read<Record>>
    requires { Within s.now place.offset place.line }
    ensures { (routines : List Routine) → result ≡ rest_answer routines scope s.now place stop read_wait }
{
    let names = figures_field(s, place, stop, scope.names)?;
    let g = names.value;
    if 4 < g.count {
        return None;
    }
    if names.stop == b'\t' {
        return None;
    }
    Some(Read {
        value: Record::Instruction(g.count, g.there, false),
        stop: names.stop,
        next: names.next,
    })
}

fn read_end(stop: u8, place: Place, scope: Scope) -> Option<Read<Record>>
    ensures { (s : List ℕ) (routines : List Routine) → result ≡ rest_answer routines scope s place stop read_end }
{
    if stop == b'\t' {
        return None;
    }
    Some(Read {
        value: Record::Instruction(0, true, true),
        stop,
        next: place,
    })
}

// `arguments` has the number of arguments of each routine.
pub fn read_rest(
    s: &[u8],
    place: Place,
    stop: u8,
    letter: u8,
    scope: Scope,
    arguments: &[u8],
) -> Option<Read<Record>>
    requires { Within s.now place.offset place.line × (length arguments.now ≤ 64) }
    ensures { result ≡ rest_answer (stand_ins arguments.now) scope s.now place stop (read_by_letter letter) }
{
    match letter {
        b'P' => read_ports(s, place, stop, scope),
        b'R' => read_opens(s, place, stop, scope),
        b'S' => read_assign(s, place, stop, scope),
        b'A' => read_schedule(s, place, stop, scope),
        b'U' => read_branch(s, place, stop, scope),
        b'G' => read_jump(s, place, stop, scope),
        b'W' => read_wait(s, place, stop, scope),
        b'F' => read_fork(s, place, stop, scope, arguments),
        b'E' => read_end(stop, place, scope),
        _ => None,
    }
}
