// A page for the valve book. Document 02: "A call writes the page asked for, counted from 1, into 2,700 bytes (no such page: rows
// of spaces) and gives the number of pages." Any lists, any memory and any page number are taken.
#![tactic(auto)]

ghost use Rattle.std.specs.Prelude.{true, cond, ◌++◌, ◌≡◌, ◌≤◌, length, drop};
ghost use Rattle.openings.specs.Writes.{writes_of};
ghost use Rattle.openings.specs.Order.{sorted_openings};
ghost use Rattle.openings.specs.Questions.{none_falls, listed_once};
ghost use Rattle.openings.specs.InOrder.{in_order_lem};
ghost use Rattle.page.specs.Pages.{page_count, page_bytes};
ghost use Rattle.page.specs.Call.{first_opening, refusal, PageFigures};

use openings::{Order, none_falls, put_questions};
use page_book::{Valves, enter_writes};
use page_rows::{put_blank_rows, put_heading};

// "into 2,700 bytes"
const PAGE_BYTES: usize = 2700;

// "Each page is 60 rows", of which the first is the heading.
const OPENINGS_ON_PAGE: u64 = 59;

// The number of no opening: there are fewer than the lists are long.
const NO_OPENING: u64 = u64::MAX;

// Number, place, and the number of pages, as C takes them (include/fabrwent.h); a refusal's place and pages are 0.
#[repr(C)]
#[derive(Clone, Copy)]
pub struct Printed {
    pub number: u32,
    pub place: u32,
    pub pages: u64,
}

// The number of a page's first opening, from 0; NO_OPENING if none has so high a number.
fn first_opening(page: u64) -> u64
    ensures { result ≡ first_opening page }
{
    if page == 0 {
        return NO_OPENING;
    }
    let before = page - 1;
    if before > NO_OPENING / OPENINGS_ON_PAGE {
        return NO_OPENING;
    }
    before * OPENINGS_ON_PAGE
}

// How many pages so many openings take; "no openings give one page".
fn page_count(openings: u64) -> u64
    ensures { result ≡ page_count openings }
{
    if openings == 0 {
        return 1;
    }
    (openings - 1) / OPENINGS_ON_PAGE + 1
}

// The page, of lists that have passed the questions; how many pages there are. `ordered` says whether the lists are in order.
fn write_page(
    moments: &[u64],
    outputs: &[u32],
    values: &[u32],
    ordered: bool,
    page: u64,
    memory: &mut [u8],
) -> u64
    requires { (2700 ≤ length memory.old) × (length moments.now ≡ length outputs.now) × (length moments.now ≡ length values.now)
        × (none_falls moments.now ≡ true) × (listed_once (writes_of moments.now outputs.now values.now) ≡ true)
        × (ordered ≡ in_order_lem moments.now outputs.now) }
    ensures { (memory.new ≡ page_bytes page (sorted_openings (writes_of moments.now outputs.now values.now)) ++ drop 2700 memory.old)
        × (result ≡ page_count (length (sorted_openings (writes_of moments.now outputs.now values.now)))) }
{
    put_blank_rows(memory);
    let mut valves = Valves {
        lines: [0; 16],
        opened: [0; 16],
        count: 0,
    };
    let first = first_opening(page);
    let openings = enter_writes(
        memory,
        &mut valves,
        first,
        moments,
        outputs,
        values,
        ordered,
    );
    let pages = page_count(openings);
    if page == 0 {
        return pages;
    }
    if page > pages {
        return pages;
    }
    put_heading(memory);
    pages
}

// A refusal.
fn refused(number: u32) -> Printed
    ensures { result ≡ refusal number }
{
    Printed {
        number,
        place: 0,
        pages: 0,
    }
}

// "A call that goes through has number 0" (document 01).
fn gone_through(pages: u64) -> Printed
    ensures { result ≡ record { number = 0; place = 0; pages = pages } }
{
    Printed {
        number: 0,
        place: 0,
        pages,
    }
}

// The question that turns lists away which fail 9 or 11: 9 comes first.
fn turned_away(moments: &[u64]) -> u32
    ensures { result ≡ cond (none_falls moments.now) 11 9 }
{
    if none_falls(moments) {
        return 11;
    }
    9
}

// Questions 1, 9 and 11, each put to the whole lists before the next; then the page. 9 and 11 are put in one pass, and 9 again where one
// of them turns the lists away.
pub fn print_page(
    moments: &[u64],
    outputs: &[u32],
    values: &[u32],
    page: u64,
    memory: &mut [u8],
) -> Printed
    ensures { PageFigures moments.now outputs.now values.now page memory.old memory.new result }
{
    if memory.len() < PAGE_BYTES {
        return refused(1);
    }
    if moments.len() != outputs.len() {
        return refused(1);
    }
    if moments.len() != values.len() {
        return refused(1);
    }
    let Some(order) = put_questions(moments, outputs) else {
        return refused(turned_away(moments));
    };
    gone_through(write_page(
        moments,
        outputs,
        values,
        order == Order::InOrder,
        page,
        memory,
    ))
}
