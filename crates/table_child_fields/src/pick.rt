// The child field that made a record, looked for among those that may still come.
ghost use Rattle.std.specs.Prelude.{◌≡◌};
ghost use Rattle.table.specs.Areas.{TableLong};
ghost use Rattle.table_child_fields.specs.Tables.{HeadsFit};
ghost use Rattle.table_child_fields.specs.Picking.{maker_of};

use table_read::{head_after, head_at, next_head};

// The child fields that may still come: the number of the first, the address of its head, how many are left.
#[derive(Clone, Copy, Debug, PartialEq, Eq)]
pub struct Coming {
    pub next: usize,
    pub head: usize,
    pub left: usize,
}

// What made a record: its routine, and behind its child field the next head and how many are left.
#[derive(Clone, Copy, Debug, PartialEq, Eq)]
pub struct Maker {
    pub routine: usize,
    pub head: usize,
    pub left: usize,
}

// The child field numbered `child`, if it is one of these.
pub fn pick(t: &[u32], fields: Coming, child: usize) -> Option<Maker>
    requires { TableLong t.now × HeadsFit t.now fields.head fields.left }
    ensures { result ≡ maker_of t.now fields.head fields.left fields.next child }
{
    if child < fields.next {
        return None;
    }
    let skip = child - fields.next;
    if fields.left <= skip {
        return None;
    }
    let head = head_after(t, fields.head, skip);
    let routine = head_at(t, head).callee;
    let after = next_head(t, head);
    Some(Maker {
        routine,
        head: after,
        left: fields.left - skip - 1,
    })
}
