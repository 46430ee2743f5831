// A call of a case, with what the file spoils, held against the answer stored for it.
ghost use Rattle.std.specs.Prelude.{◌≡◌};
ghost use Rattle.test_stored_items.specs.Calls.{RanCall, RanSpoilt};

use std::io::Stdout;
use test_lending::machine::{PATTERN, copy_of, machine_right};
use test_lending::places::spoil_first;
use test_stored_answers::answer_right;
use test_stored_calls::calls::{Call, answer_place, call_at, make_stored};

// A call on these memories.
fn run_call(stdout: Stdout, s: &[u8], call: Call, table: &[u32], machine: &mut [u32]) -> bool
    ensures { RanCall s.now call table.now machine.old machine.new result }
{
    let mut numbers = [PATTERN; 20];
    let mut values = [PATTERN; 20];
    let before = copy_of(machine);
    let found = make_stored(s, call, table, machine, &mut numbers, &mut values);
    if !answer_right(stdout, s, answer_place(s, call), found, &numbers, &values) {
        return false;
    }
    let words = before.len().min(machine.len());
    machine_right(stdout, machine, &before[..words], found.number)
}

// A call with what the file spoils: the table's first word (6), the machine's first word (7), or a length.
pub fn run_spoilt(
    stdout: Stdout,
    s: &[u8],
    at: usize,
    table: &mut [u32],
    machine: &mut [u32],
) -> bool
    ensures { (table.new ≡ table.old) × RanSpoilt s.now at table.old machine.old machine.new result }
{
    let call = call_at(s, at);
    let spoil = call.spoil;
    let table_first = spoil_first(table, spoil, 6, 2147483648);
    let machine_first = spoil_first(machine, spoil, 7, 5);
    let right = run_call(stdout, s, call, table, machine);
    spoil_first(table, spoil, 6, table_first);
    spoil_first(machine, spoil, 7, machine_first);
    right
}
