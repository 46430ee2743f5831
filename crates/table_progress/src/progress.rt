// How far a table is written, and what each line of the listing moves on.
ghost use Rattle.std.specs.Prelude.{◌≡◌};
ghost use Rattle.table_progress.specs.Progress.{entered, advanced, Room};

use table_cells::put::{put, put_entry};
use table_lines::Holds;
use text_place::Place;

// The reading place; the routines, instructions and words of cells so far; the instructions of the last routine.
#[derive(Clone, Copy)]
pub struct Progress {
    pub place: Place,
    pub routines: usize,
    pub instructions: usize,
    pub cells: usize,
    pub code: usize,
}

// What a line that was read adds to the header and to the routine entries.
pub fn enter(t: &mut [u32], p: Progress, holds: Holds)
    requires { Room p holds }
    ensures { t.new ≡ entered p holds t.old }
{
    let routines = p.routines;
    let first = p.instructions;
    let code = p.code;
    match holds {
        Holds::Ports(inputs, outputs) => {
            put(t, 0, inputs);
            put(t, 1, outputs);
        }
        Holds::Opens(arguments, bits, locals) => {
            put_entry(
                t,
                8 + 5 * routines,
                [arguments, bits, locals, first as u32, 0],
            );
            put(t, 2, (routines + 1) as u32);
        }
        Holds::Instruction(_) => {
            put(t, 7 + 5 * routines, (code + 1) as u32);
        }
    }
}

// The counts after that line.
pub fn advance(p: Progress, holds: Holds, next: Place) -> Progress
    requires { Room p holds }
    ensures { result ≡ advanced p holds next }
{
    match holds {
        Holds::Ports(_, _) => Progress { place: next, ..p },
        Holds::Opens(_, _, _) => Progress {
            place: next,
            routines: p.routines + 1,
            code: 0,
            ..p
        },
        Holds::Instruction(words) => Progress {
            place: next,
            instructions: p.instructions + 1,
            cells: p.cells + words,
            code: p.code + 1,
            ..p
        },
    }
}
