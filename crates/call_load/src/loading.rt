// Loading: questions 1 to 5, then the table.
ghost use Rattle.walk.specs.Promises.{LoadPromise};
ghost use Rattle.text_questions.specs.Outcome.{outcome_of};
ghost use Rattle.layout.specs.Layout.{layout};

use crate::writing::write_table;
use table::TABLE_WORDS;
use text_questions::{Loaded, put_questions};

// Document 01: "The loader puts each question to the whole listing before the next"; "a refusal leaves all lent memory untouched";
// "Words past 12,288 are never touched."
pub fn load(listing: &[u8], table: &mut [u32]) -> Loaded
    ensures { LoadPromise layout listing.now table.old table.new (outcome_of listing.now result) }
{
    let long_enough = TABLE_WORDS <= table.len();
    let answer = put_questions(long_enough, listing);
    match answer {
        Loaded::Refused(number, place) => Loaded::Refused(number, place),
        Loaded::Done => {
            write_table(listing, &mut table[..TABLE_WORDS]);
            Loaded::Done
        }
    }
}
