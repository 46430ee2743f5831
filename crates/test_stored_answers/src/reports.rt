// Two answers that differ, as lines, put into lent bytes.
ghost use Rattle.std.specs.Prelude.{◌++◌, ◌+◌, ◌≤◌, length};
ghost use Rattle.listing.specs.Bytes.{figure};
ghost use Rattle.session_print.specs.Puts.{Puts};
ghost use Rattle.test_stored_answers.specs.Reports.{figures_of, report_line, report_lines};

use crate::Report;
use session_print::figure::put_figure;
use test_cases::report::put_text;

// A name and a figure; the place past them.
fn put_named(out: &mut [u8], at: usize, name: &[u8], n: u64) -> usize
    requires { (at ≤ 1000) × (length name.now ≤ 10) }
    ensures { Puts out.old at (name.now ++ figure n) out.new result × (result ≤ at + 30) }
{
    let a = put_text(out, at, name);
    put_figure(out, a, n)
}

// An answer's figures; the place past them.
fn put_figures(out: &mut [u8], at: usize, report: Report) -> usize
    requires { at ≤ 600 }
    ensures { Puts out.old at (figures_of report) out.new result × (result ≤ at + 120) }
{
    let a = put_named(out, at, b" number ", report.number as u64);
    let b = put_named(out, a, b" steps ", report.steps as u64);
    let c = put_named(out, b, b" listed ", report.listed as u64);
    put_named(out, c, b" due ", report.due)
}

// A title and an answer, as a line; the place past it.
fn put_report(out: &mut [u8], at: usize, title: &[u8], report: Report) -> usize
    requires { (at ≤ 500) × (length title.now ≤ 10) }
    ensures { Puts out.old at (report_line title.now report) out.new result × (result ≤ at + 131) }
{
    let a = put_text(out, at, title);
    let b = put_figures(out, a, report);
    put_text(out, b, b"\n")
}

// The answer expected and the one found; how many bytes.
pub fn put_reports(out: &mut [u8], expected: Report, found: Report) -> usize
    ensures { Puts out.old 0 (report_lines expected found) out.new result × (result ≤ 262) }
{
    let a = put_report(out, 0, b"expected", expected);
    put_report(out, a, b"found   ", found)
}
