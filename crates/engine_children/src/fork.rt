// A fork's new routines. Document 01: "`F|c|c..` forks 1 to 8 children; each field is a routine number and then its arguments, as
// names of the caller."
ghost use Rattle.engine_children.specs.NewChild.{MayMake, MakesChild};
ghost use Rattle.engine_children.specs.Fork.{MayFork, MakesChildren};

use engine_new_names::{bind_names, pass_values};
use engine_new_rows::{free_slot, parent_of, put_kept, put_working};
use table::CELL_WORDS;
use table_read::{head_at, next_head, opening_of};

// The whole row of child number i, whose field stands at `head`, in slot s: one of n children of the routine in slot `me`.
// A free slot's words are 0, so nothing of a routine that was in it before shows.
pub fn new_child(t: &[u32], m: &mut [u32], me: usize, head: usize, i: u32, s: usize, n: u32)
    requires { MayMake t.now m.old me head i s n }
    ensures { MakesChild t.now m.old me head i s n m.new }
{
    let field = head_at(t, head);
    let callee = field.callee;
    let opening = opening_of(t, callee);
    let count = opening.arguments;
    let bits = opening.bits;
    let locals = opening.locals;
    let own = pass_values(t, m, me, s, head + CELL_WORDS, count, bits);
    let parent = parent_of(m, me, n);
    put_kept(m, s, parent.level, i, (own + locals) as u32);
    put_working(m, s, parent, i, 0, callee as u32);
    bind_names(t, m, me, s, head + CELL_WORDS, count, bits, locals);
}

// The slots of a fork's children, in order.
#[derive(Clone, Copy)]
pub struct NewSlots {
    pub places: [u8; 8],
    pub count: usize,
}

// All n children of the routine in slot `me`, the first child field at `cells`: "At `F` all children exist .. before the first
// child runs".
pub fn fork_children(t: &[u32], m: &mut [u32], me: usize, cells: usize, n: usize) -> NewSlots
    requires { MayFork t.now m.old me cells n }
    ensures { MakesChildren t.now m.old me cells n m.new result }
{
    let mut places: [u8; 8] = [0; 8];
    let mut head = cells;
    for i in 0..n {
        let s = free_slot(m).unwrap();
        new_child(t, m, me, head, i as u32, s, n as u32);
        places[i] = s as u8;
        head = next_head(t, head);
    }
    NewSlots { places, count: n }
}
