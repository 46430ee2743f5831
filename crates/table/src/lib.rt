// Definitions and theorems: a table's words, the listing that they stand for, question 6; and the layout's constants (docs/LAYOUT.md).
#![tactic(auto)]

// The words of a table that are read or written.
pub const TABLE_WORDS: usize = 12288;
// The header: inputs, outputs, the number of routines.
pub const INPUTS: usize = 0;

pub const OUTPUTS: usize = 1;

pub const ROUTINE_COUNT: usize = 2;

// Routine entries: number of arguments, kinds as bits, locals, number of the first instruction, number of instructions.
pub const ROUTINES: usize = 8;

pub const ROUTINE_WORDS: usize = 5;

pub const ARGUMENTS: usize = 0;

pub const KIND_BITS: usize = 1;

pub const LOCALS: usize = 2;

pub const FIRST_ENTRY: usize = 3;

pub const SIZE: usize = 4;

// Instruction entries: kind, operand, word address of the cells, two counts.
pub const ENTRIES: usize = 328;

pub const ENTRY_WORDS: usize = 5;

pub const KIND: usize = 0;

pub const OPERAND: usize = 1;

pub const CELLS_AT: usize = 2;

pub const FIRST_COUNT: usize = 3;

pub const SECOND_COUNT: usize = 4;

// The kinds of instructions.
pub const ASSIGN: u32 = 1;

pub const SCHEDULE: u32 = 2;

pub const BRANCH: u32 = 3;

pub const JUMP: u32 = 4;

pub const WAIT: u32 = 5;

pub const FORK: u32 = 6;

pub const END: u32 = 7;

// Cells of two words, and where those of 4,096 pieces end.
pub const CELLS: usize = 2888;

pub const CELL_WORDS: usize = 2;

pub const CELL_END: usize = 11080;

// The kinds of pieces.
pub const LITERAL: u32 = 0;

pub const VALUE_OF: u32 = 1;

pub const WRITTEN_MARK: u32 = 2;

pub const PLUS: u32 = 3;

pub const MINUS: u32 = 4;

pub const TIMES: u32 = 5;

pub const LESS: u32 = 6;

pub const DIVIDE: u32 = 7;

pub const REMAINDER: u32 = 8;
