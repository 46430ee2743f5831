// The stopped form of a machine's memory, and the blank memory that the start begins with.
// "The machine's first word holds the number (0 while running), its other 12,287 words are 0 .. Words past 12,288 are never touched."
#![tactic(auto)]

ghost use Rattle.std.specs.Prelude.{◌≡◌, ◌++◌, ◌≤◌, drop};
ghost use Rattle.machine.specs.Words.{HasMachine};
ghost use Rattle.walk.specs.Calls.{halted_words};
ghost use Rattle.machine_halt.specs.Zeroed.{zeroed, blank_words};

use machine::MACHINE_WORDS;

// The words from one place up to 12,288 made 0.
fn clear_from(m: &mut [u32], from: usize)
    requires { HasMachine m.old × (from ≤ 12288) }
    ensures { m.new ≡ zeroed from 12288 m.old }
{
    m[from..MACHINE_WORDS].fill(0);
}

// The stop's number, and nothing else.
pub fn halt(m: &mut [u32], number: u32)
    requires { HasMachine m.old }
    ensures { m.new ≡ halted_words number ++ drop 12288 m.old }
{
    m[0] = number;
    clear_from(m, 1);
}

// All words 0.
pub fn blank(m: &mut [u32])
    requires { HasMachine m.old }
    ensures { m.new ≡ blank_words ++ drop 12288 m.old }
{
    clear_from(m, 0);
}
