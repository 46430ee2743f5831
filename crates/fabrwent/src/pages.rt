// A page of the valve book, of the lists of a session's writes. Document 02: "A call writes the page asked for, counted from 1, into
// 2,700 bytes (no such page: rows of spaces) and gives the number of pages."
ghost use Rattle.page.specs.Call.{PageFigures};

use page::{Printed, print_page};

pub fn fabrwent_page(
    moments: &[u64],
    outputs: &[u32],
    values: &[u32],
    page: u64,
    memory: &mut [u8],
) -> Printed
    ensures { PageFigures moments.now outputs.now values.now page memory.old memory.new result }
{
    print_page(moments, outputs, values, page, memory)
}
