// A look at a machine that was found.
ghost use Rattle.std.specs.Prelude.{◌≡◌};
ghost use Rattle.layout.specs.Layout.{layout};
ghost use Rattle.call_look.specs.Look.{look_call};
ghost use Rattle.call_look.specs.Figures.{figures_of};

use call_look::Sight;

pub fn fabrwent_look(table: &[u32], machine: &[u32]) -> Sight
    ensures { result ≡ figures_of (look_call layout table.now machine.now) }
{
    call_look::look(table, machine)
}
