// A look at a machine that was found: its present moment and its next moment due. It puts 1, 6, 7 and 8, and writes nothing.
#![tactic(auto)]

ghost use Rattle.std.specs.Prelude.{true, ◌≡◌};
ghost use Rattle.table.specs.Areas.{HasTable};
ghost use Rattle.walk.specs.Calls.{first_words};
ghost use Rattle.table.specs.Question6.{is_table};
ghost use Rattle.table.specs.Decode.{table_listing};
ghost use Rattle.machine.specs.Words.{HasMachine};
ghost use Rattle.machine.specs.ReadMachine.{read_machine};
ghost use Rattle.layout.specs.Layout.{layout};
ghost use Rattle.machine.specs.Due.{due_at};
ghost use Rattle.call_arguments.specs.Refusals.{number_of};
ghost use Rattle.call_look.specs.Look.{not_seen_lem, seen, seen_machine, look_call};
ghost use Rattle.call_look.specs.Figures.{figures_of};

use call_arguments::Refusal;
use call_questions::running;
use machine::MACHINE_WORDS;
use table::TABLE_WORDS;

// Number and place; 1 and the next moment due, or 0 and 0 for none; the present moment.
#[repr(C)]
#[derive(Clone, Copy)]
pub struct Sight {
    pub number: u32,
    pub place: u32,
    pub due_known: u32,
    pub moment: u64,
    pub due: u64,
}

// The figures of a refusal.
fn refused(refusal: Refusal) -> Sight
    ensures { result ≡ figures_of (not_seen_lem (number_of refusal)) }
{
    Sight {
        number: refusal.number(),
        place: 0,
        due_known: 0,
        moment: 0,
        due: 0,
    }
}

// The figures of a machine at a moment, with its next moment due (0: none).
fn seen_at(moment: u64, due: u64) -> Sight
    ensures { result ≡ figures_of (seen moment (due_at due)) }
{
    if due == 0 {
        return Sight {
            number: 0,
            place: 0,
            due_known: 0,
            moment,
            due: 0,
        };
    }
    Sight {
        number: 0,
        place: 0,
        due_known: 1,
        moment,
        due,
    }
}

// 7 and 8, on a table that has passed question 6.
fn look_at(table: &[u32], machine: &[u32]) -> Sight
    requires { HasTable table.now × HasMachine machine.now × (is_table (first_words table.now) ≡ true) }
    ensures { result ≡ figures_of (seen_machine (read_machine (table_listing (first_words table.now)) (first_words machine.now))) }
{
    let mut dues: [u64; 65] = [0; 65];
    match running(machine_check::check_machine(table, machine, &mut dues)) {
        Err(refusal) => refused(refusal),
        Ok(due) => {
            let present = machine_words::present_moment(&machine[0..MACHINE_WORDS]);
            seen_at(present.0, due)
        }
    }
}

// Which moment is it on this machine, and what is due next?
pub fn look(table: &[u32], machine: &[u32]) -> Sight
    ensures { result ≡ figures_of (look_call layout table.now machine.now) }
{
    if table.len() < TABLE_WORDS {
        return refused(Refusal::Short);
    }
    if machine.len() < MACHINE_WORDS {
        return refused(Refusal::Short);
    }
    if !table_check::is_table(table) {
        return refused(Refusal::NoTable);
    }
    look_at(table, machine)
}
