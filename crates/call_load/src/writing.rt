// The table of a listing that has passed all questions, written line by line.
ghost use Rattle.std.specs.Prelude.{◌≡◌, ◌<◌, length};
ghost use Rattle.listing.specs.Load.{Loads};
ghost use Rattle.listing.specs.Questions.{listing_in};
ghost use Rattle.table.specs.Areas.{table_words, TableLong};
ghost use Rattle.call_load.specs.Writing.{progress_after, words_next, Writing};

use machine_halt::blank;
use table_lines::Target;
use table_progress::{Progress, advance, enter};
use table_writer::write_line;
use text_place::Place;

// The next line: its words, and what it adds to header and routine entries.
fn write_next(s: &[u8], t: &mut [u32], p: Progress) -> Progress
    requires { Loads s.now (listing_in s.now) × Writing s.now t.old p × (p.place.offset < length s.now) }
    ensures { (result ≡ progress_after s.now p) × (t.new ≡ words_next s.now p t.old) × Writing s.now t.new result × (p.place.offset < result.place.offset) }
{
    let to = Target {
        entry: 328 + 5 * p.instructions,
        cells: 2888 + p.cells,
    };
    let written = write_line(s, t, p.place, to);
    let holds = written.holds;
    enter(t, p, holds);
    advance(p, holds, written.next)
}

// The whole table, over words of any contents. Document 01: "The loader clears the table's unused words among the 12,288."
pub fn write_table(s: &[u8], t: &mut [u32])
    requires { Loads s.now (listing_in s.now) × TableLong t.old }
    ensures { t.new ≡ table_words (listing_in s.now) }
{
    blank(t);
    let mut p = Progress {
        place: Place { offset: 0, line: 1 },
        routines: 0,
        instructions: 0,
        cells: 0,
        code: 0,
    };
    while p.place.offset < s.len() {
        p = write_next(s, t, p);
    }
}
