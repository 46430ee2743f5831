// Changes of a row's words: where the routine goes on, how many children are left, and its end.
ghost use Rattle.machine.specs.Words.{AtSlot};
ghost use Rattle.engine_rows.specs.Rows.{at_place, with_children, free_row};
ghost use Rattle.engine_blocks.specs.Blocks.{block};
ghost use Rattle.engine_blocks.specs.Store.{with_slot};
ghost use Rattle.engine_blocks.specs.Changes.{Changes, put_in, cleared, placed_block};

use engine_blocks::{clear_words, put_word};
use machine::{ASLEEP, CHILDREN, FIRST_TRIGGERS, PLACE};

// The routine goes on at an instruction: it is not asleep.
pub fn set_place(m: &mut [u32], s: usize, place: u32)
    requires { AtSlot m.old s }
    ensures { Changes s m.old m.new (placed_block (block m.old s) place) (with_slot s (λ r. at_place r place)) }
{
    put_word(m, s, ASLEEP, 0);
    put_word(m, s, PLACE, place);
}

// So many children live.
pub fn set_children(m: &mut [u32], s: usize, count: u32)
    requires { AtSlot m.old s }
    ensures { Changes s m.old m.new (put_in (block m.old s) 106 count) (with_slot s (λ r. with_children r count)) }
{
    put_word(m, s, CHILDREN, count);
}

// The slot is free: "the routine's own variables vanish with their waiting writes", and their written marks with them.
// The trigger words stay, since the trigger lists of an instant stay.
pub fn free(m: &mut [u32], s: usize)
    requires { AtSlot m.old s }
    ensures { Changes s m.old m.new (cleared 0 144 (block m.old s)) (with_slot s (λ r. free_row)) }
{
    clear_words(m, s, 0, FIRST_TRIGGERS);
}
