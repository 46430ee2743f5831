// One comparison as the file has it: a word, its kind, then the number and the word (1 alike, else 0) that it must answer. The kind says what is
// spoilt: 4 the length of the copy, 6 the table's first word, 7 the machine's first word, any other nothing.
#![tactic(auto)]

ghost use Rattle.std.specs.Prelude.{◌≡◌};
ghost use Rattle.walk.specs.Comparison.{alike_call};
ghost use Rattle.layout.specs.Layout.{layout};
ghost use Rattle.test_cases.specs.Words.{Tells};
ghost use Rattle.test_stored_comparisons.specs.Comparisons.{ComparedRight, RanComparison};

use test_cases::frame::{past, word_at};
use test_lending::places::{lent, spoil_first};

// A comparison by the library as firmware links it: does it answer the number and the word stored at a place, and place 0?
fn compare(s: &[u8], at: usize, table: &[u32], machine: &[u32], kept: &[u32]) -> bool
    ensures { Tells result (ComparedRight s.now at (alike_call layout table.now machine.now kept.now)) }
{
    let found = fabrwent::fabrwent_alike(table, machine, kept);
    if found.place != 0 {
        return false;
    }
    if word_at(s, at) != found.number {
        return false;
    }
    word_at(s, past(s, at, 4)) == found.alike
}

// A comparison with what its kind spoils.
pub fn compare_spoilt(
    s: &[u8],
    at: usize,
    table: &mut [u32],
    machine: &mut [u32],
    kept: &[u32],
) -> bool
    ensures { RanComparison s.now at table.old machine.old kept.now
        table.new machine.new result }
{
    let kind = word_at(s, at);
    let stored = past(s, at, 4);
    let kept_lent = lent(kept, kind, 4, 12287);
    let table_first = spoil_first(table, kind, 6, 2147483648);
    let machine_first = spoil_first(machine, kind, 7, 5);
    let right = compare(s, stored, table, machine, &kept[..kept_lent]);
    spoil_first(table, kind, 6, table_first);
    spoil_first(machine, kind, 7, machine_first);
    right
}
