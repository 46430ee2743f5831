// What a line gives its table, handed back.
use text_place::Place;

// What a line holds that a table's header or a routine's entry needs; an instruction's cells and entry are written.
#[derive(Clone, Copy)]
pub enum Holds {
    // inputs and outputs
    Ports(u32, u32),
    // arguments, their kinds as bits, locals
    Opens(u32, u32, u32),
    // the words of its cells
    Instruction(usize),
}

// What the line holds, and the place past it.
#[derive(Clone, Copy)]
pub struct WrittenLine {
    pub holds: Holds,
    pub next: Place,
}

// Where an instruction is written: its entry, and its cells from an address on.
#[derive(Clone, Copy)]
pub struct Target {
    pub entry: usize,
    pub cells: usize,
}
