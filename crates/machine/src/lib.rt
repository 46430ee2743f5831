// The machine's words: what they stand for, and when they pass question 7. Definitions and theorems; and the layout's constants (docs/LAYOUT.md).
#![tactic(auto)]

// The words of a machine that are read or written.
pub const MACHINE_WORDS: usize = 12288;
// The present moment (two words), the number of live routines, and where the unused words of the header begin.
pub const PRESENT: usize = 1;

pub const LIVE: usize = 3;

pub const UNUSED: usize = 4;
// The numbers that stop a machine, the first word of the stopped form: 13 to 17, and 18 of document 02.
pub const FIRST_STOP: u32 = 13;

pub const LAST_STOP: u32 = 18;
// The slots of the live routines in walking order.
pub const ORDER: usize = 64;

pub const ORDER_WORDS: usize = 264;
// The blocks, one for each slot, and the environment's after them.
pub const SLOTS: usize = 64;

pub const BLOCKS: usize = 328;

pub const BLOCK_WORDS: usize = 184;

pub const ENVIRONMENT: usize = 64;

pub const ENVIRONMENT_AT: usize = 12104;
// The first variable of slot 0, and of the environment.
pub const SLOT_VARIABLES: usize = 336;

pub const ENVIRONMENT_VARIABLES: usize = 12112;

// ---- a block, by offset ----
// One more than the routine's place in the walking order, 0 in a free slot; what is kept of it.
pub const IN_USE: usize = 0;

pub const LEVEL: usize = 1;

pub const CHILD: usize = 2;

pub const PLACE: usize = 3;

pub const OWN: usize = 4;

pub const KEPT_UNUSED: usize = 5;
// 1 if a waiting write may stand in the block, while an instant runs.
pub const MAY_WAIT: usize = 7;
// A block's variables, at most 16; six words for each: value, waiting value, due moment (two words), two unused.
pub const VARIABLES: usize = 8;

pub const MOST_VARIABLES: usize = 16;

pub const VARIABLE_WORDS: usize = 6;

pub const VALUE: usize = 8;

pub const WAITING: usize = 9;

pub const DUE_LOW: usize = 10;

pub const DUE_HIGH: usize = 11;
// Working words, while an instant runs.
pub const WORKING: usize = 104;

pub const ASLEEP: usize = 104;

pub const PARENT: usize = 105;

pub const CHILDREN: usize = 106;

pub const LOW: usize = 107;

pub const BITS: usize = 108;

pub const ROUTINE: usize = 109;

pub const NAMES: usize = 110;

pub const BASE: usize = 111;

pub const BINDINGS: usize = 112;

pub const WRITTEN: usize = 128;

pub const FIRST_TRIGGERS: usize = 144;

pub const NEXT_TRIGGERS: usize = 160;
