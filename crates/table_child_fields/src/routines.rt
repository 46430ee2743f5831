// What a table says of a routine: the variables it owns, the instruction at a place.

ghost use Rattle.std.specs.Prelude.{◌≡◌, ◌+◌, ◌*◌, ◌<◌, ◌≤◌};
ghost use Rattle.table.specs.Areas.{TableLong};
ghost use Rattle.walk.specs.Question7.{owned_by};
ghost use Rattle.table.specs.Decode.{word, table_listing};
ghost use Rattle.table_child_fields.specs.Tables.{TableBounds, Seen, line_at};

use table::{END, KIND_BITS, LOCALS, ROUTINE_WORDS, ROUTINES, SIZE};
use table_read::{Entry, fetch};
use words::number;

// How many variables routine r owns: its locals and its arguments by value.
pub fn owned_by(t: &[u32], r: usize) -> usize
    requires { TableLong t.now × (r < word t.now 2) × (word t.now 2 ≤ 64) }
    ensures { result ≡ owned_by (table_listing t.now) r }
{
    let at = ROUTINES + ROUTINE_WORDS * r;
    let arguments = number(t[at]);
    let mut bits = number(t[at + KIND_BITS]);
    let mut owned = number(t[at + LOCALS]);
    for _ in 0..arguments {
        if bits % 2 != 1 {
            owned += 1;
        }
        bits /= 2;
    }
    owned
}

// Instruction `place` of routine r; past the last one, an `E`.
pub fn line_at(t: &[u32], r: usize, place: usize) -> Entry
    requires { TableLong t.now × (r < word t.now 2) × TableBounds t.now }
    ensures { (result ≡ line_at t.now r place) × Seen t.now r place result.kind result.cells result.first }
{
    let at = ROUTINES + ROUTINE_WORDS * r;
    let lines = number(t[at + SIZE]);
    if lines <= place {
        return Entry {
            kind: END,
            operand: 0,
            cells: 0,
            first: 0,
            second: 0,
        };
    }
    fetch(t, r, place)
}
