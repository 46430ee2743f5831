// What a call must leave of the machine lent to it.
ghost use Rattle.std.specs.Prelude.{◌≡◌, min, length, take};
ghost use Rattle.test_cases.specs.Words.{Tells};
ghost use Rattle.test_lending.specs.Memories.{StoppedForm, MachineRight, unused_memory};

use std::io::Stdout;
use streams::say;
use test_cases::memories::{all_are, all_from, copy};

// The word that lists and memories are filled with before they are lent, and the length of the memories asked for.
pub const PATTERN: u32 = 2779096485;

pub const MEMORY: usize = 12288;

// The last number of a refusal; higher ones are stops.
const LAST_REFUSAL: u32 = 12;

// A memory with 12 words more than are asked for.
pub fn unused_memory() -> [u32; 12300]
    ensures { (12300 ≡ length result) × (result ≡ unused_memory) }
{
    [PATTERN; 12300]
}

// A machine as it is now, or its first 12,300 words.
pub fn copy_of(machine: &[u32]) -> [u32; 12300]
    ensures { (12300 ≡ length result) × (take (min (length machine.now) 12300) result ≡ take 12300 machine.now) }
{
    let mut words = unused_memory();
    copy(machine, &mut words);
    words
}

// "The machine's first word holds the number (0 while running), its other 12,287 words are 0"
fn stopped_form(machine: &[u32], number: u32) -> bool
    ensures { Tells result (StoppedForm machine.now number) }
{
    MEMORY <= machine.len() && machine[0] == number && all_are(&machine[1..MEMORY], 0)
}

// "Up to 12 a refusal leaves all lent memory untouched"; a stop leaves the stopped form; "Words past 12,288 are never touched."
fn is_right(machine: &[u32], before: &[u32], number: u32) -> bool
    ensures { Tells result (MachineRight machine.now before.now number) }
{
    if !all_from(machine, MEMORY, PATTERN) {
        return false;
    }
    match number {
        0 => true,
        1..=LAST_REFUSAL => machine == before,
        _ => stopped_form(machine, number),
    }
}

// The same; if it is not right this is said.
pub fn machine_right(stdout: Stdout, machine: &[u32], before: &[u32], number: u32) -> bool
    ensures { Tells result (MachineRight machine.now before.now number) }
{
    let right = is_right(machine, before, number);
    if !right {
        say(&stdout, b"the machine is not as it must be\n");
    }
    right
}
