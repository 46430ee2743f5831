// The listing of document 01, its text and what loading it gives: definitions and theorems; and the limits.
#![tactic(auto)]

// "listing 49,152 bytes; 64 routines; 512 instructions in all; 16 names a routine; 4,096 pieces after the letters of instruction lines."
pub const MOST_BYTES: usize = 49152;

pub const MOST_ROUTINES: u64 = 64;

pub const MOST_INSTRUCTIONS: u64 = 512;

pub const MOST_NAMES: u64 = 16;

pub const MOST_PIECES: u64 = 4096;
