// A field of one figure, as a word of the table.
ghost use Rattle.std.specs.Prelude.{◌≡◌};
ghost use Rattle.text_place.specs.Texts.{Within};
ghost use Rattle.table_cells.specs.Words.{word_answer};

use crate::cell::low_word;
use text_fields::{Number, Read, number_field};
use text_place::Place;

// A field that is no figure gives 0 and leaves the place where it is; question 2 has let none of those through.
pub fn word_field(s: &[u8], place: Place, stop: u8) -> Read<u32>
    requires { Within s.now place.offset place.line }
    ensures { (result ≡ word_answer s.now place stop) × Within s.now result.next.offset result.next.line }
{
    let Number::Read(n, stop, next) = number_field(s, place, stop) else {
        return Read {
            value: 0,
            stop: 0,
            next: place,
        };
    };
    Read {
        value: low_word(n),
        stop,
        next,
    }
}
