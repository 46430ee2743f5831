// The rows of a page, by their line: 0 is the heading's.
ghost use Rattle.std.proofs.Math.Option.{none};
ghost use Rattle.std.specs.Prelude.{◌≡◌, ◌+◌, ◌*◌, ◌≤◌, ◌<◌, replicate};
ghost use Rattle.std.proofs.lemmas.List.Edits.{sets};
ghost use Rattle.listing.specs.Bytes.{figure};
ghost use Rattle.page_rows.specs.Rows.{right_aligned, row, heading, blank_row, joined};

use crate::bytes::{put_byte, put_bytes, put_figure, put_repeated};

// "Each page is 60 rows" of "44 characters and a line feed".
const ROWS: usize = 60;

const CHARACTERS: usize = 44;

const ROW_BYTES: usize = 45;

// The columns: "output number in 2", "moment opened in 20", "milliseconds open in 20", each after a space.
const NUMBER_COLUMNS: usize = 2;

const MOMENT_COLUMNS: usize = 20;

const FIRST_SPACE: usize = 2;

const OPENED_AT: usize = 3;

const SECOND_SPACE: usize = 23;

const OPEN_FOR_AT: usize = 24;

// The row of a valve that is still open.
pub fn put_row(out: &mut [u8], line: usize, output: u32, opened: u64)
    requires { (line ≤ 1000) × (output < 16) }
    ensures { out.new ≡ sets out.old (line * 45) (row (record { output = output; opened = opened; closed = none })) }
{
    let at = line * ROW_BYTES;
    put_figure(out, at, NUMBER_COLUMNS, u64::from(output));
    put_byte(out, at + FIRST_SPACE, b' ');
    put_figure(out, at + OPENED_AT, MOMENT_COLUMNS, opened);
    put_byte(out, at + SECOND_SPACE, b' ');
    put_repeated(out, at + OPEN_FOR_AT, b'-', MOMENT_COLUMNS);
    put_byte(out, at + CHARACTERS, b'\n');
}

// The last column of a row.
pub fn put_open_for(out: &mut [u8], line: usize, milliseconds: u64)
    requires { line ≤ 1000 }
    ensures { out.new ≡ sets out.old (line * 45 + 24) (right_aligned 20 (figure milliseconds)) }
{
    put_figure(
        out,
        line * ROW_BYTES + OPEN_FOR_AT,
        MOMENT_COLUMNS,
        milliseconds,
    );
}

// "the first being `NR`, `OPENED` and `OPEN FOR` aligned alike"
pub fn put_heading(out: &mut [u8])
    ensures { out.new ≡ sets out.old 0 heading }
{
    put_bytes(out, 0, b"NR               OPENED             OPEN FOR\n");
}

// A whole page of rows of spaces.
pub fn put_blank_rows(out: &mut [u8])
    ensures { out.new ≡ sets out.old 0 (joined (replicate 60 blank_row)) }
{
    for line in 0..ROWS {
        let at = line * ROW_BYTES;
        put_repeated(out, at, b' ', CHARACTERS);
        put_byte(out, at + CHARACTERS, b'\n');
    }
}
