// Start, instant and comparison.
ghost use Rattle.fabrwent.specs.Figures.{StartFigures, InstantFigures, AlikeFigures};

use call_figures::{FabrwentAlike, FabrwentCall, alike_figures, figures_of};
use words::Moment;

pub fn fabrwent_start(
    table: &[u32],
    machine: &mut [u32],
    out_numbers: &mut [u32],
    out_values: &mut [u32],
    allowance: u32,
) -> FabrwentCall
    ensures { StartFigures table.now machine.old out_numbers.old out_values.old allowance
        machine.new out_numbers.new out_values.new result }
{
    figures_of(call_engine::start(table, machine, out_numbers, out_values, allowance))
}

// Here, at the boundary, a number is made a moment.
pub fn fabrwent_instant(
    table: &[u32],
    machine: &mut [u32],
    t: u64,
    in_numbers: &[u32],
    in_values: &[u32],
    out_numbers: &mut [u32],
    out_values: &mut [u32],
    allowance: u32,
) -> FabrwentCall
    ensures { InstantFigures table.now machine.old t in_numbers.now in_values.now
        out_numbers.old out_values.old allowance
        machine.new out_numbers.new out_values.new result }
{
    figures_of(call_engine::instant(
        table,
        machine,
        Moment(t),
        in_numbers,
        in_values,
        out_numbers,
        out_values,
        allowance,
    ))
}

pub fn fabrwent_alike(table: &[u32], a: &[u32], b: &[u32]) -> FabrwentAlike
    ensures { AlikeFigures table.now a.now b.now result }
{
    alike_figures(call_alike::alike(table, a, b))
}
