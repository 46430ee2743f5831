// Question 6, "Is the table one that loading some listing leaves?": one pass over a table's words.
// The routines' entries are taken in order, each with its instructions and their cells, by a running number of the instructions and a
// running address of the cells; then the unused words must be 0. Names, jumps, counts, kinds and limits are asked where they stand.
#![tactic(auto)]

ghost use Rattle.std.specs.Prelude.{◌≡◌, ◌+◌, ◌<◌, ◌≤◌, length, take, eqb};
ghost use Rattle.listing.specs.Lists.{all};
ghost use Rattle.listing.specs.Questions.{is_by_reference, opens_as_stated};
ghost use Rattle.table.specs.Areas.{kind_bits, TableLong};
ghost use Rattle.table.specs.Decode.{word, kinds_of_bits, routine_at_entry, table_listing};
ghost use Rattle.table.specs.Question6.{is_table};
ghost use Rattle.table_check.specs.Check.{entry_test, opening_test, routine_past, pass_from};

use table::{
    ARGUMENTS, CELLS, ENTRIES, ENTRY_WORDS, FIRST_ENTRY, KIND_BITS, LOCALS, ROUTINE_COUNT,
    ROUTINE_WORDS, ROUTINES, SIZE, TABLE_WORDS,
};
use table_check_code::code_past;
use table_check_ends::{may_end, tail_passes};
use table_read::environment_size;

// ---- a routine's entry ----

// Do the bits say no more than so many kinds?
fn kinds_fit(arguments: u32, bits: u32) -> bool
    ensures { result ≡ eqb bits (kind_bits (kinds_of_bits arguments bits)) }
{
    let mut rest = bits;
    for _ in 0..arguments {
        rest /= 2;
    }
    rest == 0
}

// Are all these kinds by reference?
fn all_by_reference(arguments: u32, bits: u32) -> bool
    ensures { result ≡ all is_by_reference (kinds_of_bits arguments bits) }
{
    let mut rest = bits;
    for _ in 0..arguments {
        if rest % 2 != 1 {
            return false;
        }
        rest /= 2;
    }
    true
}

// At most 16 names, its first instruction the number `first`, 1 or more instructions, 512 in all up to here, kinds of its arguments alone.
#[tactic(auto, unfolding(crate::specs::Check::entry_test))]
fn entry_passes(t: &[u32], a: usize, first: usize) -> bool
    requires { (a + 5 ≤ length t.now) × (first ≤ 512) }
    ensures { result ≡ entry_test t.now a first }
{
    let arguments = t[a + ARGUMENTS];
    let bits = t[a + KIND_BITS];
    let locals = t[a + LOCALS] as usize;
    let start = t[a + FIRST_ENTRY] as usize;
    let size = t[a + SIZE] as usize;
    (arguments as usize) + locals <= 16
        && start == first
        && 1 <= size
        && first + size <= 512
        && kinds_fit(arguments, bits)
}

// "Main has i + o arguments, all `r`".
#[tactic(auto, using(crate::proofs::Opening::main_opens))]
fn main_passes(t: &[u32]) -> bool
    requires { 13 ≤ length t.now }
    ensures { result ≡ opens_as_stated (table_listing t.now) 0 (routine_at_entry t.now 8) }
{
    let arguments = t[8];
    let bits = t[9];
    (arguments as usize) == environment_size(t) && all_by_reference(arguments, bits)
}

#[tactic(auto, using(crate::proofs::Opening::opening_test_lem, crate::proofs::Opening::others_open))]
fn opening_passes(t: &[u32], number: usize, first: usize) -> bool
    requires { TableLong t.now × (number < 64) × (first ≤ 512) }
    ensures { result ≡ opening_test t.now number first }
{
    entry_passes(t, ROUTINES + ROUTINE_WORDS * number, first) && (number > 0 || main_passes(t))
}

// ---- a routine ----

// The address behind the cells of routine `number`, or none if the answer is no.
#[tactic(auto, using(crate::proofs::RoutinePass::closed, crate::proofs::RoutinePass::stopped, crate::proofs::RoutinePass::unended, crate::proofs::RoutinePass::through, crate::proofs::Opening::opened))]
fn routine_past(t: &[u32], number: usize, first: usize, cells: usize) -> Option<usize>
    requires { TableLong t.now × (number < 64) × (first ≤ 512) × (cells ≤ 11080) × (word t.now 2 ≤ 64) }
    ensures { result ≡ routine_past t.now number first cells }
{
    if !opening_passes(t, number, first) {
        return None;
    }
    let a = ROUTINES + ROUTINE_WORDS * number;
    let names = t[a + ARGUMENTS] + t[a + LOCALS];
    let size = t[a + SIZE];
    let n = size as usize;
    let e = ENTRIES + ENTRY_WORDS * first;
    let next = code_past(t, names, size, e, cells, n)?;
    if may_end(t, e + ENTRY_WORDS * (n - 1)) {
        Some(next)
    } else {
        None
    }
}

// ---- the whole ----

fn routines_pass(t: &[u32], n: usize) -> bool
    requires { TableLong t.now × (n ≤ 64) × (word t.now 2 ≤ 64) }
    ensures { result ≡ pass_from t.now 0 0 2888 n }
{
    let mut first = 0;
    let mut cells = CELLS;
    for number in 0..n {
        let Some(next) = routine_past(t, number, first, cells) else {
            return false;
        };
        let a = ROUTINES + ROUTINE_WORDS * number;
        first += t[a + SIZE] as usize;
        cells = next;
    }
    tail_passes(t, n, first, cells)
}

// Question 6 of 12,288 words.
#[tactic(auto, using(crate::proofs::Whole::table_is_checked), unfolding(crate::specs::Check::table_test))]
fn words_pass(t: &[u32]) -> bool
    requires { TableLong t.now }
    ensures { result ≡ is_table t.now }
{
    let n = t[ROUTINE_COUNT] as usize;
    1 <= n && n <= 64 && routines_pass(t, n)
}

// Question 6 of a table's first 12,288 words; fewer are no table.
pub fn is_table(t: &[u32]) -> bool
    ensures { result ≡ is_table (take 12288 t.now) }
{
    t.len() >= TABLE_WORDS && words_pass(&t[..TABLE_WORDS])
}
