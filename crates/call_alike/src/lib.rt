// The comparison of two machines: "1, 6, then 7 for both machines, then 8 for both".
#![tactic(auto)]

ghost use Rattle.std.specs.Prelude.{true, ◌≡◌, ◌≤◌};
ghost use Rattle.table.specs.Areas.{HasTable};
ghost use Rattle.walk.specs.Calls.{first_words};
ghost use Rattle.walk.specs.Comparison as walk;
ghost use Rattle.table.specs.Question6.{is_table};
ghost use Rattle.table.specs.Decode.{table_listing};
ghost use Rattle.machine.specs.Words.{state_of, variables_in, HasMachine};
ghost use Rattle.machine.specs.ReadMachine.{read_machine};
ghost use Rattle.layout.specs.Layout.{layout};
ghost use Rattle.call_alike.specs.Compared.{pair_refusal, compared_of};

use call_arguments::Refusal;
use call_questions::machine_refusal;
use machine::{ENVIRONMENT_VARIABLES, MACHINE_WORDS, VARIABLE_WORDS};
use table::TABLE_WORDS;
use table_read::environment_size;

// Have the first k environment variables the same values?
fn same_values(a: &[u32], b: &[u32], k: usize) -> bool
    requires { HasMachine a.now × HasMachine b.now × (k ≤ 16) }
    ensures { result ≡ walk.same_values (variables_in (first_words a.now) 12112 k) (variables_in (first_words b.now) 12112 k) }
{
    for i in 0..k {
        let at = ENVIRONMENT_VARIABLES + i * VARIABLE_WORDS;
        if a[at] != b[at] {
            return false;
        }
    }
    true
}

// "Two running machines are alike when their present moments and the values of all environment variables are equal."
fn same_states(table: &[u32], a: &[u32], b: &[u32]) -> bool
    requires { HasTable table.now × HasMachine a.now × HasMachine b.now × (is_table (first_words table.now) ≡ true) }
    ensures { result ≡ walk.alike (state_of (table_listing (first_words table.now)) (first_words a.now))
        (state_of (table_listing (first_words table.now)) (first_words b.now)) }
{
    let first = machine_words::present_moment(a);
    let second = machine_words::present_moment(b);
    if first.0 != second.0 {
        return false;
    }
    let size = environment_size(table);
    same_values(a, b, size)
}

// Which of two machines' refusals comes first: "then 7 for both machines, then 8 for both".
fn pair_refusal(first: Result<(), Refusal>, second: Result<(), Refusal>) -> Result<(), Refusal>
    ensures { result ≡ pair_refusal first second }
{
    let Err(refusal) = second else {
        return first;
    };
    match refusal {
        Refusal::NoState => second,
        _ => first.and(second),
    }
}

// The comparison on a table that has passed question 6.
fn compare(table: &[u32], a: &[u32], b: &[u32]) -> Result<bool, Refusal>
    requires { HasTable table.now × HasMachine a.now × HasMachine b.now × (is_table (first_words table.now) ≡ true) }
    ensures { compared_of result ≡ walk.both_states (read_machine (table_listing (first_words table.now)) (first_words a.now))
        (read_machine (table_listing (first_words table.now)) (first_words b.now)) }
{
    let first = machine_refusal(table, a);
    let second = machine_refusal(table, b);
    pair_refusal(first, second)?;
    Ok(same_states(table, a, b))
}

// Are the two machines on this table alike?
pub fn alike(table: &[u32], a: &[u32], b: &[u32]) -> Result<bool, Refusal>
    ensures { compared_of result ≡ walk.alike_call layout table.now a.now b.now }
{
    if table.len() < TABLE_WORDS {
        return Err(Refusal::Short);
    }
    if a.len() < MACHINE_WORDS {
        return Err(Refusal::Short);
    }
    if b.len() < MACHINE_WORDS {
        return Err(Refusal::Short);
    }
    if !table_check::is_table(table) {
        return Err(Refusal::NoTable);
    }
    compare(table, a, b)
}
