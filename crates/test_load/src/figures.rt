// The answer of loading, of the library as firmware links it, as document 01's number and place.
ghost use Rattle.layout.specs.Layout.{layout};
ghost use Rattle.listing.specs.Load.{loading, is_long_enough};
ghost use Rattle.walk.specs.Promises.{TableAfter};
ghost use Rattle.test_load.specs.Cases.{FiguresOf};

#[derive(Clone, Copy, Debug, PartialEq, Eq)]
pub struct Figures {
    pub number: u32,
    pub place: u64,
}

// The figures of loading a listing into a table.
pub fn load_figures(listing: &[u8], table: &mut [u32]) -> Figures
    ensures { FiguresOf (loading (is_long_enough table.old) listing.now) result
        × TableAfter layout table.old table.new (loading (is_long_enough table.old) listing.now) }
{
    let loaded = fabrwent::fabrwent_load(listing, table);
    Figures {
        number: loaded.number,
        place: loaded.place,
    }
}
