// The exported library: what a program in C or Rust links (include/fabrwent.h). A slice passes as a pointer and a length. Each export is the
// library's call of the same name, with its promise.
#![tactic(auto)]

ghost use Rattle.std.specs.Prelude.{◌≡◌};
ghost use Rattle.layout.specs.Layout.{layout};
ghost use Rattle.call_look.specs.Look.{look_call};
ghost use Rattle.call_look.specs.Figures.{figures_of};
ghost use Rattle.fabrwent.specs.Figures.{StartFigures, InstantFigures, AlikeFigures};
ghost use Rattle.fabrwent.specs.Loading.{LoadFigures};
ghost use Rattle.page.specs.Call.{PageFigures};
ghost use Rattle.windows.specs.Call.{WindowsFigures};

use fabrwent::{FabrwentAlike, FabrwentCall, FabrwentLoad, Sight};
use page::Printed;
use windows::Listed;

#[unsafe(no_mangle)]
pub extern "C" fn fabrwent_load(listing: &[u8], table: &mut [u32]) -> FabrwentLoad
    ensures { LoadFigures listing.now table.old table.new result }
{
    fabrwent::fabrwent_load(listing, table)
}

#[unsafe(no_mangle)]
pub extern "C" fn fabrwent_start(
    table: &[u32],
    machine: &mut [u32],
    out_numbers: &mut [u32],
    out_values: &mut [u32],
    allowance: u32,
) -> FabrwentCall
    ensures { StartFigures table.now machine.old out_numbers.old out_values.old allowance
        machine.new out_numbers.new out_values.new result }
{
    fabrwent::fabrwent_start(table, machine, out_numbers, out_values, allowance)
}

#[unsafe(no_mangle)]
pub extern "C" fn fabrwent_instant(
    table: &[u32],
    machine: &mut [u32],
    t: u64,
    in_numbers: &[u32],
    in_values: &[u32],
    out_numbers: &mut [u32],
    out_values: &mut [u32],
    allowance: u32,
) -> FabrwentCall
    ensures { InstantFigures table.now machine.old t in_numbers.now in_values.now
        out_numbers.old out_values.old allowance
        machine.new out_numbers.new out_values.new result }
{
    fabrwent::fabrwent_instant(
        table,
        machine,
        t,
        in_numbers,
        in_values,
        out_numbers,
        out_values,
        allowance,
    )
}

#[unsafe(no_mangle)]
pub extern "C" fn fabrwent_alike(table: &[u32], a: &[u32], b: &[u32]) -> FabrwentAlike
    ensures { AlikeFigures table.now a.now b.now result }
{
    fabrwent::fabrwent_alike(table, a, b)
}

#[unsafe(no_mangle)]
pub extern "C" fn fabrwent_look(table: &[u32], machine: &[u32]) -> Sight
    ensures { result ≡ figures_of (look_call layout table.now machine.now) }
{
    fabrwent::fabrwent_look(table, machine)
}

#[unsafe(no_mangle)]
pub extern "C" fn fabrwent_page(
    moments: &[u64],
    outputs: &[u32],
    values: &[u32],
    page: u64,
    memory: &mut [u8],
) -> Printed
    ensures { PageFigures moments.now outputs.now values.now page memory.old memory.new result }
{
    fabrwent::fabrwent_page(moments, outputs, values, page, memory)
}

#[unsafe(no_mangle)]
pub extern "C" fn fabrwent_windows(
    schedule: &[u8],
    from: u64,
    to: u64,
    moments: &mut [u64],
    inputs: &mut [u32],
    values: &mut [u32],
) -> Listed
    ensures { WindowsFigures schedule.now from to moments.old inputs.old values.old
        moments.new inputs.new values.new result }
{
    fabrwent::fabrwent_windows(schedule, from, to, moments, inputs, values)
}
