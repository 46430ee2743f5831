// Loading.
ghost use Rattle.fabrwent.specs.Loading.{LoadFigures};

use call_figures::{FabrwentLoad, load_figures};

pub fn fabrwent_load(listing: &[u8], table: &mut [u32]) -> FabrwentLoad
    ensures { LoadFigures listing.now table.old table.new result }
{
    load_figures(call_load::load(listing, table))
}
