// The trigger lists of an instant, as linked lists in the machine's words: for each variable, the slots of those who await
// it. They are made once, at the instant's beginning; a write passes along one (crate `engine_wake`). `m` is the machine's memory, `t` the table.
#![tactic(auto)]

ghost use Rattle.std.specs.Prelude.{◌≡◌, true, List, ℕ, suc, ◌+◌, ◌*◌, ◌≤◌, ◌<◌, length};
ghost use Rattle.machine.specs.Words.{HasMachine};
ghost use Rattle.table.specs.Areas.{TableLong};
ghost use Rattle.listing.specs.Listing.{Listing};
ghost use Rattle.table.specs.Decode.{names_at};
ghost use Rattle.engine_rows.specs.Rows.{Owner, owner_of};
ghost use Rattle.engine_rows.specs.Triggers.{same_owner, cons_if, list_if, triggers_of};
ghost use Rattle.engine_blocks.specs.Blocks.{owner_at, rows_of};
ghost use Rattle.engine_triggers.specs.Chains.{triggers_at, NoTriggers, Chains, OnlyTriggers};
ghost use Rattle.engine_triggers.specs.Awaited.{awaited_names, FewNames, Sleeper, Sleepers, NamesOf, lists_with};

use engine_variables::Binding;
use machine::{FIRST_TRIGGERS, NEXT_TRIGGERS, SLOTS};
use table::{CELL_WORDS, WAIT};
use table_read::{fetch, name_at};
use words::number;

// Slot s put before the list of the variable that a name of its routine stands for: name j of its wait.
fn list_name(m: &mut [u32], s: usize, j: usize, name: usize)
    requires { HasMachine m.old × (s < 64) × (j < 4) × (name < 16) × (name < length (rows_of m.old s).bindings) }
    ensures { (OnlyTriggers m.old m.new)
        × ((lists : Owner → List ℕ) → Chains m.old (4 * s + j) lists
        → Chains m.new (suc (4 * s + j)) (λ o. cons_if (same_owner (owner_of (rows_of m.old s).bindings name) o) s (lists o))) }
{
    let Binding { block, index } = engine_variables::owner(m, s, name);
    let first = engine_blocks::word_at(m, block, FIRST_TRIGGERS + index);
    let number = 4 * s + j + 1;
    engine_blocks::put_word(m, s, NEXT_TRIGGERS + j, first);
    engine_blocks::put_word(m, block, FIRST_TRIGGERS + index, number as u32);
}

// The same for the names of a wait, which stand in the table's cells.
fn list_names(m: &mut [u32], t: &[u32], s: usize, cells: usize, count: usize)
    requires { HasMachine m.old × (s < 64) × TableLong t.now × (cells + 2 * count ≤ 12288) × (FewNames (rows_of m.old s) (names_at t.now cells count)) }
    ensures { (OnlyTriggers m.old m.new)
        × ((lists : Owner → List ℕ) → Chains m.old (4 * s) lists
        → Chains m.new (4 * s + count) (lists_with (rows_of m.old s).bindings s (names_at t.now cells count) lists)) }
{
    for j in 0..count {
        let name = name_at(t, cells + CELL_WORDS * j);
        list_name(m, s, j, name);
    }
}

// Slot s in the lists of the variables that it awaits, if it sleeps.
fn list_slot(m: &mut [u32], t: &[u32], s: usize)
    requires { HasMachine m.old × (s < 64)
        × ((rows_of m.old s).asleep ≡ true → Sleeper t.now (rows_of m.old s)) }
    ensures { (OnlyTriggers m.old m.new)
        × ((lists : Owner → List ℕ) → Chains m.old (4 * s) lists
        → Chains m.new (4 * suc s) (λ o. list_if (rows_of m.old s).asleep (rows_of m.old s).bindings s
        (awaited_names t.now (rows_of m.old s)) o (lists o))) }
{
    if !engine_row::asleep(m, s) {
        return;
    }
    let routine = number(engine_row::routine(m, s));
    let place = number(engine_row::place(m, s));
    let entry = fetch(t, routine, place);
    if entry.kind != WAIT {
        return;
    }
    list_names(m, t, s, entry.cells, entry.first);
}

// The lists of all sleepers, where there are none yet: those of the listing that the table stands for.
pub fn list_sleepers(m: &mut [u32], t: &[u32])
    requires { HasMachine m.old × (NoTriggers m.old) × (Sleepers t.now m.old) }
    ensures { (OnlyTriggers m.old m.new)
        × ((listing : Listing) → NamesOf listing t.now m.old → (s index : ℕ) → s ≤ 64 → index < 16
        → triggers_at m.new s index ≡ triggers_of listing (rows_of m.old) (owner_at s index)) }
{
    for s in 0..SLOTS {
        list_slot(m, t, s);
    }
}
