// A path holds, for each level above the place that the scan has come to, the child fields of which children may still come;
// here it goes past a record of the right size.
ghost use Rattle.std.specs.Prelude.{◌≡◌, ◌+◌, ◌<◌, ◌≤◌, length, get_or};
ghost use Rattle.table.specs.Areas.{TableLong};
ghost use Rattle.walk.specs.Question7.{owned_by};
ghost use Rattle.table.specs.Decode.{table_listing};
ghost use Rattle.machine.specs.Words.{block_at, slot_of, MachineLong};
ghost use Rattle.machine_check_paths.specs.Scan.{Ready, Going, Caller, Stepped, record_of};
ghost use Rattle.machine_check_paths.specs.Scan.{entered_path, pushed_path, settled_path};

use machine::{BLOCK_WORDS, BLOCKS, CHILD, LEVEL, ORDER, PLACE};
use table::{FORK, WAIT};
use table_child_fields::pick::{Coming, Maker};
use table_child_fields::routines::line_at;
use words::number;

// The path of a list that passes so far.
#[derive(Clone, Copy, Debug, PartialEq, Eq)]
pub struct Path {
    // Is the last record at an `F`, so that a child of it comes next?
    pub forked: bool,
    pub depth: usize,
    pub levels: [Coming; 11],
}

// The address of the k-th routine's block.
pub fn block_of(m: &[u32], k: usize) -> usize
    requires { MachineLong m.now × (k < 64) × (slot_of m.now k < 64) }
    ensures { (result ≡ block_at (slot_of m.now k)) × (result + 184 ≤ 12104) }
{
    BLOCKS + number(m[ORDER + k]) * BLOCK_WORDS
}

// The record of a child: the child fields after its own may still come.
fn entered(p: Path, level: usize, child: usize, made: Maker) -> Path
    requires { (level < 11) × (child < 4294967296) }
    ensures { result ≡ entered_path p level child made.head made.left }
{
    let mut q = p;
    q.forked = false;
    q.depth = level + 1;
    q.levels[level] = Coming {
        next: child + 1,
        head: made.head,
        left: made.left,
    };
    q
}

// The record is at an `F`: its child fields come next.
fn pushed(p: Path, level: usize, cells: usize, count: usize) -> Path
    requires { level < 10 }
    ensures { result ≡ pushed_path p level cells count }
{
    let mut q = p;
    q.forked = true;
    q.depth = level + 2;
    q.levels[level + 1] = Coming {
        next: 0,
        head: cells,
        left: count,
    };
    q
}

// A record of the right size: is its routine asleep?
// t, m, k and p go together here and in the tree's step; they are no struct, since `Going`, which ties them and names the frames, cannot be a ghost field.
pub fn settle(t: &[u32], m: &[u32], k: usize, p: Path, made: Maker) -> Option<Path>
    requires { TableLong t.now × MachineLong m.now × (k < get_or m.now 3 0) × Ready t.now m.now × Going t.now m.now k p × Caller t.now m.now k p made.routine made.head made.left × (length (record_of m.now k).own ≡ owned_by (table_listing t.now) made.routine) }
    ensures { (result ≡ settled_path t.now m.now k p made) × Stepped t.now m.now (k + 1) result }
{
    let at = block_of(m, k);
    let level = number(m[at + LEVEL]);
    let child = number(m[at + CHILD]);
    let place = number(m[at + PLACE]);
    let q = entered(p, level, child, made);
    let line = line_at(t, made.routine, place);
    let kind = line.kind;
    if kind == WAIT {
        return Some(q);
    }
    if kind != FORK {
        return None;
    }
    if 9 < level {
        return None; // its children would be at level 11
    }
    Some(pushed(q, level, line.cells, line.first))
}
