// The numbers of an instruction's entry.
ghost use Rattle.std.specs.Prelude.{◌≤◌};

// What an instruction's entry says beside its kind: its operand, the address of its cells, its two counts.
#[derive(Clone, Copy, Debug, PartialEq, Eq)]
pub struct Line {
    pub operand: u32,
    pub cells: usize,
    pub first: u32,
    pub second: u32,
    // They begin in the area of the cells, or at its end.
    ghost in_area: { cells ≤ 11080 },
}
